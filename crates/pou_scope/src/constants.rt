// The constants and types of a POU's declarations, and what their names break.
ghost use Rattle.std.specs.Prelude.{◌≡◌, option_map};
ghost use Rattle.source_tree.specs.SyntaxView.{name_view, tree_view, type_view, initial_view};
ghost use Rattle.naming.specs.Broken.{in_named_type, in_type, in_kind, in_value, in_constant, in_constant_if, in_declared_constant, in_initial, in_declaration};
ghost use Rattle.rules.specs.Judgements.{and};
ghost use Rattle.rules.specs.Outcomes.{outcome_of};
ghost use Rattle.naming.specs.Scopes.{seen_named};
ghost use Rattle.naming.specs.ScopeView.{variable_view, seen_if};

use crate::names::Names;
use crate::typed::is_typed;
use file_scope::misused;
use naming::Declared;
use rules::Outcome;
use source_tree::{Bounds, Expr, Name, TypeName};
use use_numbers::UseNumbers;

impl Names<'_, '_> {
    ghost use Rattle.pou_scope.specs.NamesView.{file_in, pou_in};

    // A name as a value, which is that of this variable, or of none.
    fn value_by(&self, seen: Option<&Declared<'_>>, name: &Name) -> Outcome
        ensures { result ≡ outcome_of (in_value (file_in self.now) (pou_in self.now) (seen_if seen.entry) (name_view name.now)) }
    {
        match seen {
            Some(seen) => {
                if seen.whole {
                    misused(name)
                } else {
                    Outcome::suppressed()
                }
            }
            None => {
                if self.own.is_fault(name) {
                    return misused(name);
                }
                self.file.value_name(name)
            }
        }
    }

    // A name that is used as a value. Keeps the number of the use.
    fn value_used(&self, numbers: &mut UseNumbers, name: &Name) -> Outcome
        ensures { let n = name_view name.now in result ≡ outcome_of (in_value (file_in self.now) (pou_in self.now) (seen_named (file_in self.now) (pou_in self.now) n.text) n) }
    {
        let seen = self.used(numbers, name);
        if seen.is_none() {
            self.note(numbers, name);
        }
        self.value_by(seen, name)
    }

    /// A constant of a label. Keeps the number of its name.
    pub fn constant(&self, numbers: &mut UseNumbers, constant: &Expr) -> Outcome
        ensures { result ≡ outcome_of (in_constant (file_in self.now) (pou_in self.now) (tree_view constant.now)) }
    {
        match constant {
            Expr::Path(path) => self.value_used(numbers, &path.first),
            Expr::Enumerator(kind, value) => {
                self.note(numbers, value);
                self.file.enumerator(kind, value)
            }
            _ => Outcome::ok(),
        }
    }

    /// The second value of a label, where there is one. Keeps the number of its name.
    pub fn written(&self, numbers: &mut UseNumbers, value: &Option<Expr>) -> Outcome
        ensures { result ≡ outcome_of (in_constant_if (file_in self.now) (pou_in self.now) (initial_view value.now)) }
    {
        match value {
            Some(value) => self.constant(numbers, value),
            None => Outcome::ok(),
        }
    }

    // A constant in the declaration of a number. Keeps the number of its name.
    fn declared_constant(&self, numbers: &mut UseNumbers, user: usize, constant: &Expr) -> Outcome
        ensures { result ≡ outcome_of (in_declared_constant (file_in self.now) (pou_in self.now) user (tree_view constant.now)) }
    {
        match constant {
            Expr::Path(path) => {
                if self.own.is_circular(user, &path.first) {
                    return misused(&path.first);
                }
                self.value_used(numbers, &path.first)
            }
            Expr::Enumerator(kind, value) => {
                self.note(numbers, value);
                self.file.enumerator(kind, value)
            }
            _ => Outcome::ok(),
        }
    }

    // An initial value in the declaration of a number. Keeps the number of its name.
    fn initial(&self, numbers: &mut UseNumbers, user: usize, initial: Option<&Expr>) -> Outcome
        ensures { result ≡ outcome_of (in_initial (file_in self.now) (pou_in self.now) user (option_map (λ e. tree_view e.now) initial.entry)) }
    {
        match initial {
            Some(value) => self.declared_constant(numbers, user, value),
            None => Outcome::ok(),
        }
    }

    // The bounds in the declaration of a number. Keeps the numbers of their names.
    #[tactic(auto, using(rules::proofs::Outcomes::outcome_and))]
    fn bounds(&self, numbers: &mut UseNumbers, user: usize, bounds: &Bounds) -> Outcome
        ensures { result ≡ outcome_of (and (in_declared_constant (file_in self.now) (pou_in self.now) user (tree_view bounds.now.low)) (in_declared_constant (file_in self.now) (pou_in self.now) user (tree_view bounds.now.high))) }
    {
        let low = self.declared_constant(numbers, user, &bounds.low);
        low.and(self.declared_constant(numbers, user, &bounds.high))
    }

    // The type of a variable by name. Keeps the number of the name, but for that of a result, which is kept with the file's types.
    fn named_type(&self, numbers: &mut UseNumbers, variable: &Declared<'_>, name: &Name) -> Outcome
        ensures { result ≡ outcome_of (in_named_type (file_in self.now) (variable_view variable.now) (name_view name.now)) }
    {
        if variable.role.is_result() {
            return Outcome::whole_if(is_typed(self.file, variable));
        }
        self.note(numbers, name);
        if self.file.block_named(name).is_none() {
            return self.file.type_name(name);
        }
        if variable.role.is_local() {
            Outcome::ok()
        } else {
            misused(variable.name)
        }
    }

    // The type of a variable of a number. Keeps the numbers of its names.
    fn type_of(
        &self,
        numbers: &mut UseNumbers,
        user: usize,
        variable: &Declared<'_>,
        kind: &TypeName,
    ) -> Outcome
        ensures { result ≡ outcome_of (in_type (file_in self.now) (pou_in self.now) user (variable_view variable.now) (type_view kind.now)) }
    {
        match kind {
            TypeName::Elementary(_, _) => Outcome::ok(),
            TypeName::Subrange(_, _, bounds) => self.bounds(numbers, user, bounds),
            TypeName::Named(name) => self.named_type(numbers, variable, name),
        }
    }

    // The type of a name of a number, where it has one. Keeps the numbers of its names.
    fn kind_of(&self, numbers: &mut UseNumbers, user: usize, variable: &Declared<'_>) -> Outcome
        ensures { let v = variable_view variable.now in result ≡ outcome_of (in_kind (file_in self.now) (pou_in self.now) user v v.kind) }
    {
        match variable.kind {
            Some(kind) => self.type_of(numbers, user, variable, kind),
            None => Outcome::ok(),
        }
    }

    /// The declaration of a number. Keeps the numbers of the names that it uses.
    #[tactic(auto, using(rules::proofs::Outcomes::outcome_and))]
    pub fn declaration(
        &self,
        numbers: &mut UseNumbers,
        user: usize,
        variable: &Declared<'_>,
    ) -> Outcome
        ensures { result ≡ outcome_of (in_declaration (file_in self.now) (pou_in self.now) user (variable_view variable.now)) }
    {
        let kind = self.kind_of(numbers, user, variable);
        kind.and(self.initial(numbers, user, variable.initial))
    }
}
