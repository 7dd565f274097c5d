// Which variables of a POU use which, and which uses lead back to their user.
ghost use Rattle.std.specs.Prelude.{◌≡◌, ◌++◌, option_map, OnOk, IfOk};
ghost use Rattle.call_order.specs.Uses.{graph_of, HasCircles};
ghost use Rattle.source_tree.specs.SyntaxView.{tree_view, type_view};
ghost use Rattle.naming.specs.DeclarationUses.{used_by_constant, used_by_type, used_by_initial, variable_uses};
ghost use Rattle.naming.specs.Scopes.{scope_with};
ghost use Rattle.naming.specs.ScopeView.{variable_view, variables_view};
ghost use Rattle.naming.specs.Slots.{slot_among};
ghost use Rattle.naming.specs.Table.{Holds};
ghost use Rattle.pou_scope.specs.NoUses.{uses_nothing};
ghost use Rattle.pou_scope.specs.SlottedView.{scope_slotted};

use crate::slots::Slots;
use crate::slotted::Slotted;
use call_order::circular_uses;
use naming::{Declared, append_number};
use source_tree::{Expr, TypeName};
use std::alloc::{AllocError, Global};

impl Slotted<'_> {
    // Appends the variable that a constant uses.
    fn append_constant(&self, used: &mut Vec<usize>, constant: &Expr) -> Result<(), AllocError>
        ensures { OnOk result (used.new.items ≡ used.old.items ++ used_by_constant (scope_slotted self.now) (tree_view constant.now)) }
    {
        match constant {
            Expr::Path(path) => append_number(used, self.number(&path.first)),
            _ => Ok(()),
        }
    }

    // Appends the variables that the bounds of a type use, where there is one.
    fn append_type(&self, used: &mut Vec<usize>, kind: Option<&TypeName>) -> Result<(), AllocError>
        ensures { OnOk result (used.new.items ≡ used.old.items ++ used_by_type (scope_slotted self.now) (option_map (λ t. type_view t.now) kind.entry)) }
    {
        match kind {
            Some(TypeName::Subrange(_, _, bounds)) => {
                self.append_constant(used, &bounds.low)?;
                self.append_constant(used, &bounds.high)
            }
            _ => Ok(()),
        }
    }

    // Appends the variable that an initial value uses, where there is one.
    fn append_initial(
        &self,
        used: &mut Vec<usize>,
        initial: Option<&Expr>,
    ) -> Result<(), AllocError>
        ensures { OnOk result (used.new.items ≡ used.old.items ++ used_by_initial (scope_slotted self.now) (option_map (λ e. tree_view e.now) initial.entry)) }
    {
        match initial {
            Some(value) => self.append_constant(used, value),
            None => Ok(()),
        }
    }

    // The variables that a declaration uses.
    fn used_by(&self, alloc: Global, variable: &Declared<'_>) -> Result<Vec<usize>, AllocError>
        ensures { let p = scope_slotted self.now in let v = variable_view variable.now in IfOk result (λ used. used.items ≡ used_by_type p v.kind ++ used_by_initial p v.initial) }
    {
        let mut used = Vec::new(alloc);
        self.append_type(&mut used, variable.kind)?;
        self.append_initial(&mut used, variable.initial)?;
        Ok(used)
    }

    // For each variable those that it uses.
    #[tactic(auto, unfolding(naming::specs::DeclarationUses::variable_uses))]
    fn uses(&self, alloc: Global) -> Result<Vec<Vec<usize>>, AllocError>
        ensures { IfOk result (λ all. graph_of all.items ≡ variable_uses (scope_slotted self.now)) }
    {
        let mut all = Vec::new(alloc);
        for variable in self.variables {
            all.push(self.used_by(alloc, variable)?)?;
        }
        Ok(all)
    }
}

// Whether nothing uses anything.
fn uses_nothing(uses: &[Vec<usize>]) -> bool
    ensures { result ≡ uses_nothing (graph_of uses.now) }
{
    for used in uses {
        if !used.is_empty() {
            return false;
        }
    }
    true
}

/// For each variable of a POU those that it uses in a circle.
pub fn variable_circles(
    alloc: Global,
    has_fault: bool,
    slots: &Slots,
    variables: &[Declared<'_>],
) -> Result<Vec<Vec<usize>>, AllocError>
    requires { Holds slots.now (slot_among has_fault (variables_view variables.now)) }
    ensures { IfOk result (λ circles. HasCircles (variable_uses (scope_with has_fault (variables_view variables.now))) (graph_of circles.items)) }
{
    let slotted = Slotted {
        has_fault,
        slots,
        variables,
    };
    let uses = slotted.uses(alloc)?;
    if uses_nothing(&uses) {
        return Ok(Vec::new(alloc));
    }
    circular_uses(alloc, &uses)
}
