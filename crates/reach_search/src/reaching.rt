// An allowed list of rows that is as long as can be, or as long as is known.
ghost use Rattle.std.specs.Prelude.{◌≡◌, ◌≤◌, IsTrue, IfOk};
ghost use Rattle.scan_replay.specs.Duos.{with_pair};
ghost use Rattle.queries.specs.Comparisons.{IsComparison};
ghost use Rattle.pair_trial.specs.Trials.{comparison_of, setting_in};
ghost use Rattle.reach_search.specs.Walks.{IsWalk};

use crate::trying::{begin_with, go_on, run_rows};
use crate::walk::{End, Walk};
use clause_core::Decider;
use invariant_prune::{Answer, walk_at};
use lane_sim::Random;
use pair_trial::Trial;
use queries::{Decoded, Queries, Row};
use std::alloc::{AllocError, Global};

fn rows_of(found: Decoded) -> Vec<Row>
    ensures { result ≡ found.rows }
{
    found.rows
}

/// An allowed list of rows, the first of which is given. It is full; or no list of one row more is allowed, which a log shows; or the
/// query for such a list is spent. At most one query is asked for each number of rows from 2 to DEPTH.
pub fn reach<D: Decider, Q: Queries>(
    alloc: Global,
    decider: &mut D,
    trial: &mut Trial,
    queries: &Q,
    row: &Row,
    limit: u32,
) -> Result<Walk, AllocError>
    requires compared { Q.compared queries.now ≡ comparison_of trial.old }
    requires comparison { IsComparison (comparison_of trial.old) }
    requires allowed { IsTrue ((setting_in trial.old).allowed row.now (setting_in trial.old).start) }
    requires some { 1 ≤ limit }
    requires most { limit ≤ 1000000 }
    ensures walk { IfOk result (IsWalk (comparison_of trial.old) (Q.formula queries.now) limit) }
    ensures trial { trial.new ≡ with_pair trial.new.pair trial.old }
{
    let mut rows = begin_with(alloc, trial, row)?;
    let mut random = Random::new();
    'lists: loop {
        go_on(alloc, trial, &mut random, row, &mut rows)?;
        let count = rows.len() as u64;
        if count >= trial.depth() {
            return Ok(Walk {
                rows,
                end: End::Full,
            });
        }
        match walk_at(alloc, decider, queries, count + 1, limit)? {
            Answer::Found(found) => {
                run_rows(trial, &found.rows);
                rows = rows_of(found);
            }
            Answer::Refuted(log) => {
                return Ok(Walk {
                    rows,
                    end: End::Refuted(log),
                });
            }
            Answer::Spent(log) => {
                return Ok(Walk {
                    rows,
                    end: End::Spent(log),
                });
            }
        }
    }
}
