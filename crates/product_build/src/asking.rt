use crate::circuits::Circuits;
use crate::one_scan::{complete_goal, complete_step, gates_of};
use crate::scans::{break_formula, first_formula, walk_formula};
use clause_core::{Assignment, Cnf};
use pair_decoding::decode;
use queries::{Decoded, Queries, Query};
use std::alloc::{AllocError, Global};

impl<'p> Queries for Circuits<'p> {
    ghost use Rattle.product_build.specs.MadeCircuits.{comparison_of, formula_of, front_of};

    ghost compared = { comparison_of };

    ghost formula = { formula_of };

    ghost front = { front_of };

    fn query(&self, alloc: Global, query: &Query) -> Result<Cnf, AllocError> {
        match query {
            Query::First => first_formula(alloc, &self.breaks),
            Query::Step(set) => {
                let mut cnf = gates_of(alloc, &self.product)?;
                complete_step(alloc, &self.product, set, &mut cnf)?;
                Ok(cnf)
            }
            Query::Goal(set) => {
                let mut cnf = gates_of(alloc, &self.product)?;
                complete_goal(alloc, &self.product, set, &mut cnf)?;
                Ok(cnf)
            }
            Query::Deep(scans) => break_formula(alloc, &self.breaks, *scans as usize),
            Query::Walk(rows) => walk_formula(alloc, &self.breaks, *rows as usize),
        }
    }

    fn begin(&self, alloc: Global) -> Result<Cnf, AllocError> {
        gates_of(alloc, &self.product)
    }

    fn complete(&self, alloc: Global, query: &Query, cnf: &mut Cnf) -> Result<(), AllocError> {
        match query {
            Query::Step(set) => complete_step(alloc, &self.product, set, cnf),
            Query::Goal(set) => complete_goal(alloc, &self.product, set, cnf),
            _ => Ok(()),
        }
    }

    fn decode(
        &self,
        alloc: Global,
        query: &Query,
        found: &Assignment,
    ) -> Result<Decoded, AllocError> {
        decode(
            alloc,
            &self.parts,
            &self.product,
            &self.breaks,
            query,
            found,
        )
    }

    fn laws(&self) {
        let _ = &self.breaks;
    }
}
