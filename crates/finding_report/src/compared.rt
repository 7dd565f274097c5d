// What is compared.
ghost use Rattle.std.specs.Prelude.{◌≡◌};
ghost use Rattle.queries.specs.Settings.{setting_of};
ghost use Rattle.finding_report.specs.Views.{comparison_in};

use program_tree::Program;
use scan_model::Relation;

/// OLD, NEW and the relation between them.
#[derive(Clone, Copy)]
pub struct Compared<'p> {
    pub old: &'p Program,
    pub new: &'p Program,
    pub relation: &'p Relation,
}

#[tactic(auto, unfolding(queries::specs::Settings::setting_of))]
impl<'p> Compared<'p> {
    /// How many cells OLD has.
    pub(crate) fn old_cells(&self) -> usize
        ensures { result ≡ (setting_of (comparison_in self.now)).old_cells }
    {
        self.old.cells.len()
    }

    /// How many cells NEW has.
    pub(crate) fn new_cells(&self) -> usize
        ensures { result ≡ (setting_of (comparison_in self.now)).new_cells }
    {
        self.new.cells.len()
    }
}
