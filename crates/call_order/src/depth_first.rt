// A proposal of the parts of a graph, by two depth-first searches (S. R. Kosaraju; M. Sharir, 1981). Nothing is said of what these
// functions answer: all of it is tested where it is used.
use std::alloc::{AllocError, Global};

/// Parts of a graph, as they are proposed: the number of each number's part, and for each part one number of it.
#[derive(Drop)]
pub struct Proposal {
    pub parts: Vec<usize>,
    pub heads: Vec<usize>,
}

// A number, and how many of its uses were followed.
#[derive(Clone, Copy)]
struct Frame {
    number: usize,
    place: usize,
}

// What a search found: the part of each number, by the start that it was found from, 0 where it was not; the start of each part; and
// the numbers in the order in which the search left them.
#[derive(Drop)]
struct Search {
    parts: Vec<usize>,
    heads: Vec<usize>,
    left: Vec<usize>,
}

// How many steps a search takes at most: into each number and out of it, and along each use and back.
fn step_limit(uses: &[Vec<usize>]) -> usize {
    let mut limit: usize = 0;
    for used in uses {
        limit = limit.saturating_add(used.len()).saturating_add(2);
    }
    limit
}

// The use that a search follows next from a number.
fn next_use(uses: &[Vec<usize>], frame: Frame) -> Option<usize> {
    let used = uses.get(frame.number)?;
    used.get(frame.place).copied()
}

impl Search {
    // Whether a number was not found yet.
    fn is_new(&self, number: usize) -> bool {
        self.parts.get(number).copied() == Some(0)
    }

    // Enters a number.
    fn enter(&mut self, number: usize, stack: &mut Vec<Frame>) -> Result<(), AllocError> {
        let part = self.heads.len().saturating_sub(1);
        if let Some(own) = self.parts.get_mut(number) {
            *own = part;
        }
        stack.push(Frame { number, place: 0 })?;
        Ok(())
    }

    // Goes one step on from a number.
    fn step(
        &mut self,
        uses: &[Vec<usize>],
        frame: Frame,
        stack: &mut Vec<Frame>,
    ) -> Result<(), AllocError> {
        let Some(used) = next_use(uses, frame) else {
            self.left.push(frame.number)?;
            return Ok(());
        };
        stack.push(Frame {
            number: frame.number,
            place: frame.place.saturating_add(1),
        })?;
        if self.is_new(used) {
            self.enter(used, stack)?;
        }
        Ok(())
    }

    // Follows all that a start leads to.
    fn follow(
        &mut self,
        uses: &[Vec<usize>],
        limit: usize,
        stack: &mut Vec<Frame>,
    ) -> Result<(), AllocError> {
        for _step in 0..limit {
            let Some(frame) = stack.pop() else {
                break;
            };
            self.step(uses, frame, stack)?;
        }
        Ok(())
    }
}

// Searches all from these starts in turn.
fn search_from(alloc: Global, uses: &[Vec<usize>], starts: &[usize]) -> Result<Search, AllocError> {
    let limit = step_limit(uses);
    let mut stack = Vec::new(alloc);
    let mut search = Search {
        parts: vec![in alloc; 0; uses.len()]?,
        heads: Vec::new(alloc),
        left: Vec::new(alloc),
    };
    search.heads.push(0)?;
    for start in starts {
        if search.is_new(*start) {
            search.heads.push(*start)?;
            search.enter(*start, &mut stack)?;
            search.follow(uses, limit, &mut stack)?;
        }
    }
    Ok(search)
}

/// Proposes the parts of a graph, of which both the uses and the users are given.
pub fn propose(
    alloc: Global,
    uses: &[Vec<usize>],
    users: &[Vec<usize>],
) -> Result<Proposal, AllocError> {
    let mut numbers = Vec::new(alloc);
    for number in 0..uses.len() {
        numbers.push(number)?;
    }
    let forth = search_from(alloc, uses, &numbers)?;
    let mut starts = forth.left;
    starts.reverse();
    let back = search_from(alloc, users, &starts)?;
    Ok(Proposal {
        parts: back.parts,
        heads: back.heads,
    })
}
