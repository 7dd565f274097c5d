// The names that the body of a POU may use, and what their uses break.
ghost use Rattle.std.specs.Prelude.{◌≡◌, option_map, None};
ghost use Rattle.source_tree.specs.SyntaxView.{name_view, names_view, path_view};
ghost use Rattle.naming.specs.Broken.{member_by, in_member, in_members, in_flag, in_named, in_variable, in_outer, in_target, in_path, argument_by, in_argument_named, in_argument_name, in_called, in_enumerator, in_instance, in_connected, callee_of, alone};
ghost use Rattle.naming.specs.FileScope.{pou_at, standing};
ghost use Rattle.pou_scope.specs.NamesView.{file_in, pou_in, AreNamesOf};
ghost use Rattle.rules.specs.Outcomes.{outcome_of};
ghost use Rattle.naming.specs.Scopes.{scope_of, seen_named};
ghost use Rattle.naming.specs.ScopeView.{seen_if, seen_view};

use file_scope::{misused, too_deep, unknown};
use naming::{Callee, Declared, is_value};
use pou_scope::{Names, NamesOfPou};
use rules::Outcome;
use source_tree::{Name, Path};
use use_numbers::UseNumbers;

/// The names of a POU, and those of all POUs of its file.
#[derive(Clone, Copy)]
pub struct Scope<'a, 'f> {
    pub names: Names<'a, 'f>,
    pub pous: &'a [NamesOfPou<'f>],
    ghost all: { AreNamesOf (file_in names) pous.now },
}

// A member of a block, whose name is that of this variable, or of none.
fn member_by(seen: Option<&Declared<'_>>, name: &Name) -> Outcome
    ensures { result ≡ outcome_of (member_by (seen_if seen.entry) (name_view name.now)) }
{
    match seen {
        None => unknown(name),
        Some(seen) => {
            if !seen.whole {
                return Outcome::suppressed();
            }
            if seen.role.is_seen() {
                Outcome::ok()
            } else {
                misused(name)
            }
        }
    }
}

// The name of an argument, which is that of this variable of the FUNCTION, or of none.
fn argument_by(seen: Option<&Declared<'_>>, name: &Name) -> Outcome
    ensures { result ≡ outcome_of (argument_by (seen_if seen.entry) (name_view name.now)) }
{
    match seen {
        None => unknown(name),
        Some(seen) => {
            if !seen.whole {
                return Outcome::suppressed();
            }
            if seen.role.is_input() {
                Outcome::ok()
            } else {
                misused(name)
            }
        }
    }
}

// The names behind a step, of which `X` says whether it is active.
fn flag(first: &Name, members: &[Name]) -> Outcome
    ensures { result ≡ outcome_of (in_flag (name_view first.now) (names_view members.now)) }
{
    let Some((name, rest)) = members.split_first() else {
        return misused(first);
    };
    if name.text.as_str() == "X" {
        too_deep(rest)
    } else {
        unknown(name)
    }
}

impl<'f> Scope<'_, 'f> {
    // The variable of a name in the POU of a number. Keeps the number of its use.
    fn seen_in(
        &self,
        numbers: &mut UseNumbers,
        number: usize,
        name: &Name,
    ) -> Option<Option<&Declared<'f>>>
        ensures { let f = file_in self.now.names in option_map seen_if result ≡ option_map (λ p. seen_named f (scope_of p) (name_view name.now).text) (pou_at f number) }
    {
        match self.pous.get(number) {
            Some(own) => Some(own.used(numbers, name)),
            None => None,
        }
    }

    // A member of the block of a number.
    fn member(&self, numbers: &mut UseNumbers, block: usize, name: &Name) -> Outcome
        ensures { result ≡ outcome_of (in_member (file_in self.now.names) block (name_view name.now)) }
    {
        match self.seen_in(numbers, block, name) {
            Some(seen) => member_by(seen, name),
            None => Outcome::suppressed(),
        }
    }

    // The names behind an instance of the block of a number.
    fn members(
        &self,
        numbers: &mut UseNumbers,
        block: usize,
        first: &Name,
        members: &[Name],
    ) -> Outcome
        ensures { result ≡ outcome_of (in_members (file_in self.now.names) block (name_view first.now) (names_view members.now)) }
    {
        let Some((name, rest)) = members.split_first() else {
            return misused(first);
        };
        let member = self.member(numbers, block, name);
        if member.whole { too_deep(rest) } else { member }
    }

    // A path that begins with a name of the POU whose declaration breaks no rule.
    fn named(
        &self,
        numbers: &mut UseNumbers,
        seen: &Declared<'_>,
        first: &Name,
        members: &[Name],
    ) -> Outcome
        ensures { result ≡ outcome_of (in_named (file_in self.now.names) (seen_view seen.now) (record { first = name_view first.now; members = names_view members.now })) }
    {
        let role = seen.role;
        if role.is_step() {
            flag(first, members)
        } else if role.is_action() || role.is_transition() {
            misused(first)
        } else {
            match seen.block {
                Some(block) => self.members(numbers, block, first, members),
                None => too_deep(members),
            }
        }
    }

    // A path that begins with a name of the POU.
    fn variable(
        &self,
        numbers: &mut UseNumbers,
        seen: &Declared<'_>,
        first: &Name,
        members: &[Name],
    ) -> Outcome
        ensures { result ≡ outcome_of (in_variable (file_in self.now.names) (seen_view seen.now) (record { first = name_view first.now; members = names_view members.now })) }
    {
        if seen.whole {
            self.named(numbers, seen, first, members)
        } else {
            Outcome::suppressed()
        }
    }

    // A name that is that of no variable.
    fn outer(&self, name: &Name) -> Outcome
        ensures { result ≡ outcome_of (in_outer (file_in self.now.names) (pou_in self.now.names) (name_view name.now)) }
    {
        if self.names.own.is_fault(name) {
            return misused(name);
        }
        self.names.file.use_at(name)
    }

    // A target, by its names.
    fn target_of(&self, numbers: &mut UseNumbers, first: &Name, members: &[Name]) -> Outcome
        ensures { let f = file_in self.now.names in let p = pou_in self.now.names in let n = name_view first.now in result ≡ outcome_of (in_target f p (seen_named f p n.text) (record { first = n; members = names_view members.now })) }
    {
        match self.names.used(numbers, first) {
            Some(seen) => self.variable(numbers, seen, first, members),
            None => self.outer(first),
        }
    }

    /// The path of a target. Keeps the numbers of its names.
    pub fn target(&self, numbers: &mut UseNumbers, path: &Path) -> Outcome
        ensures { let f = file_in self.now.names in let p = pou_in self.now.names in let q = path_view path.now in result ≡ outcome_of (in_target f p (seen_named f p q.first.text) q) }
    {
        self.target_of(numbers, &path.first, &path.members)
    }

    /// The control variable of a FOR. Keeps its number.
    pub fn control(&self, numbers: &mut UseNumbers, name: &Name) -> Outcome
        ensures { let f = file_in self.now.names in let p = pou_in self.now.names in let n = name_view name.now in result ≡ outcome_of (in_target f p (seen_named f p n.text) (alone n)) }
    {
        self.target_of(numbers, name, &[])
    }

    // A path that is read, whose first name is that of no variable. Keeps the number of this name.
    fn outer_path(&self, numbers: &mut UseNumbers, path: &Path) -> Outcome
        ensures { let f = file_in self.now.names in let p = pou_in self.now.names in result ≡ outcome_of (in_path f p None (path_view path.now)) }
    {
        let first = &path.first;
        self.names.note(numbers, first);
        if !self.names.own.is_fault(first)
            && is_value(self.names.file.types.names.standing(first))
        {
            return too_deep(&path.members);
        }
        self.outer(first)
    }

    /// A path that is read. Keeps the numbers of its names.
    pub fn path(&self, numbers: &mut UseNumbers, path: &Path) -> Outcome
        ensures { let f = file_in self.now.names in let p = pou_in self.now.names in let q = path_view path.now in result ≡ outcome_of (in_path f p (seen_named f p q.first.text) q) }
    {
        match self.names.used(numbers, &path.first) {
            Some(seen) => self.variable(numbers, seen, &path.first, &path.members),
            None => self.outer_path(numbers, path),
        }
    }

    /// `kind#value`. Keeps the number of the value.
    pub fn enumerator(&self, numbers: &mut UseNumbers, kind: &Name, value: &Name) -> Outcome
        ensures { let f = file_in self.now.names in let t = name_view kind.now in result ≡ outcome_of (in_enumerator f t (name_view value.now) (standing f t.text)) }
    {
        self.names.note(numbers, value);
        self.names.file.enumerator(kind, value)
    }

    /// What a call in an expression calls. Keeps the number of its name.
    pub fn callee(&self, numbers: &mut UseNumbers, name: &Name) -> Callee
        ensures { result ≡ callee_of (file_in self.now.names) (name_view name.now).text }
    {
        self.names.note(numbers, name);
        self.names.file.callee(name)
    }

    /// The name of a call in an expression, which calls this.
    pub fn called(&self, callee: Callee, name: &Name) -> Outcome
        ensures { result ≡ outcome_of (in_called (file_in self.now.names) callee (name_view name.now)) }
    {
        match callee {
            Callee::Unknown => self.names.file.use_at(name),
            _ => Outcome::ok(),
        }
    }

    // The name of an argument.
    fn argument_named(&self, numbers: &mut UseNumbers, callee: Callee, name: &Name) -> Outcome
        ensures { result ≡ outcome_of (in_argument_named (file_in self.now.names) callee (name_view name.now)) }
    {
        match callee {
            Callee::Standard => unknown(name),
            Callee::Function(number) => match self.seen_in(numbers, number, name) {
                Some(seen) => argument_by(seen, name),
                None => Outcome::suppressed(),
            },
            Callee::Unknown => Outcome::ok(),
        }
    }

    /// The name of an argument, where it has one. Keeps its number.
    pub fn argument_name(
        &self,
        numbers: &mut UseNumbers,
        callee: Callee,
        name: &Option<Name>,
    ) -> Outcome
        ensures { result ≡ outcome_of (in_argument_name (file_in self.now.names) callee (option_map name_view name.now)) }
    {
        match name {
            Some(name) => self.argument_named(numbers, callee, name),
            None => Outcome::ok(),
        }
    }

    /// The name of a block's call, which is that of this variable, or of none.
    pub fn instance(&self, seen: Option<&Declared<'_>>, name: &Name) -> Outcome
        ensures { result ≡ outcome_of (in_instance (file_in self.now.names) (pou_in self.now.names) (seen_if seen.entry) (name_view name.now)) }
    {
        match seen {
            Some(seen) => {
                if !seen.whole {
                    return Outcome::suppressed();
                }
                if seen.block.is_some() {
                    Outcome::ok()
                } else {
                    misused(name)
                }
            }
            None => self.outer(name),
        }
    }

    /// The name of a connection of a block's call. Keeps its number.
    pub fn connected(&self, numbers: &mut UseNumbers, block: Option<usize>, name: &Name) -> Outcome
        ensures { result ≡ outcome_of (in_connected (file_in self.now.names) block (name_view name.now)) }
    {
        match block {
            Some(block) => self.member(numbers, block, name),
            None => Outcome::ok(),
        }
    }
}
