// How many cases there are.
use crate::section::Door;
use std::fmt;

/// How many cases there are of each door, and how many there are in all and have failed.
#[derive(Clone, Copy)]
pub struct Counts {
    pub cases: u64,
    pub accept: u64,
    pub replay: u64,
    pub check: u64,
    pub explain: u64,
    pub verify: u64,
    pub flat: u64,
    pub scan: u64,
    pub relation: u64,
    pub query: u64,
    pub words: u64,
    pub generated: u64,
    pub suggest: u64,
    pub formula: u64,
    pub failed: u64,
}

impl Counts {
    /// No case.
    pub const NONE: Counts = Counts {
        cases: 0,
        accept: 0,
        replay: 0,
        check: 0,
        explain: 0,
        verify: 0,
        flat: 0,
        scan: 0,
        relation: 0,
        query: 0,
        words: 0,
        generated: 0,
        suggest: 0,
        formula: 0,
        failed: 0,
    };

    /// Counts a case, which may have failed.
    pub fn add_case(&mut self, failed: bool) {
        self.cases = self.cases.saturating_add(1);
        if failed {
            self.failed = self.failed.saturating_add(1);
        }
    }

    /// Counts a case for its door.
    pub fn add_door(&mut self, door: Door) {
        match door {
            Door::Accept => self.accept = self.accept.saturating_add(1),
            Door::Replay => self.replay = self.replay.saturating_add(1),
            Door::Check => self.check = self.check.saturating_add(1),
            Door::Explain => self.explain = self.explain.saturating_add(1),
            Door::Verify => self.verify = self.verify.saturating_add(1),
            Door::Flat => self.flat = self.flat.saturating_add(1),
            Door::Scan => self.scan = self.scan.saturating_add(1),
            Door::Relation => self.relation = self.relation.saturating_add(1),
            Door::Query => self.query = self.query.saturating_add(1),
            Door::Words => self.words = self.words.saturating_add(1),
            Door::Gen => self.generated = self.generated.saturating_add(1),
            Door::Suggest => self.suggest = self.suggest.saturating_add(1),
            Door::Formula => self.formula = self.formula.saturating_add(1),
        }
    }
}

impl fmt::Display for Counts {
    fn fmt<W: fmt::Write>(&self, f: &mut fmt::Formatter<W>) -> fmt::Result {
        let (cases, failed) = (self.cases, self.failed);
        let (accept, replay) = (self.accept, self.replay);
        let (check, explain, verify) = (self.check, self.explain, self.verify);
        let (flat, scan) = (self.flat, self.scan);
        let (relation, query) = (self.relation, self.query);
        let (words, generated) = (self.words, self.generated);
        let (suggest, formula) = (self.suggest, self.formula);
        write!(
            f,
            "{cases} cases: {accept} accept, {replay} replay, {check} check, {explain} explain, "
        )?;
        write!(
            f,
            "{verify} verify, {flat} flat, {scan} scan, {relation} relation, {query} query, "
        )?;
        write!(
            f,
            "{words} words, {generated} gen, {suggest} suggest, {formula} formula, "
        )?;
        write!(f, "{failed} failed")
    }
}
