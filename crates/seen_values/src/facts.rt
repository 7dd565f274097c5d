// What the forms of proposals look at: the cells, what they were seen to hold, and classes of equal cells.
use crate::classes::Classes;
use crate::seen::Seen;
use crate::signature::{Signature, mixed, signatures};
use crate::subject::{Sort, Subject};
use scan_model::Side;
use std::alloc::{AllocError, Global};

/// Cells of one type that had one value on each pair make a class. Cells that kept one value are in none, since the product has
/// candidates for these.
#[derive(Drop)]
pub struct Facts<'a> {
    pub alloc: Global,
    pub seen: &'a Seen,
    pub subjects: &'a [Subject],
    pub signatures: Vec<Signature>,
    pub classes: Classes,
    /// Whether something was proposed that ties a class to the other program.
    pub tied: Vec<bool>,
}

/// The key of a class: a type and a checksum of values.
pub fn key_of(group: u64, sum: u64) -> u64 {
    mixed(sum, group)
}

// The classes of cells.
fn classes_of(
    alloc: Global,
    subjects: &[Subject],
    signatures: &[Signature],
) -> Result<Classes, AllocError> {
    let mut classes = Classes::new(alloc);
    for (cell, signature) in signatures.iter().enumerate() {
        if cell < subjects.len() && !signature.is_constant() {
            classes.add(key_of(subjects[cell].group, signature.values), cell)?;
        }
    }
    Ok(classes)
}

/// What was seen of cells.
pub fn facts_of<'a>(
    alloc: Global,
    seen: &'a Seen,
    subjects: &'a [Subject],
) -> Result<Facts<'a>, AllocError> {
    let signatures = signatures(alloc, seen)?;
    let classes = classes_of(alloc, subjects, signatures.as_slice())?;
    let mut tied = Vec::new(alloc);
    for _ in 0..classes.len() {
        tied.push(false)?;
    }
    Ok(Facts {
        alloc,
        seen,
        subjects,
        signatures,
        classes,
        tied,
    })
}

impl Facts<'_> {
    /// The first cell of a class; an empty class, of which there is none, has cell 0.
    pub fn first(&self, class: usize) -> usize {
        match self.classes.members(class).first() {
            Some(cell) => *cell,
            None => 0,
        }
    }

    /// The sort of a class.
    pub fn sort(&self, class: usize) -> Sort {
        let cell = self.first(class);
        if cell < self.subjects.len() {
            self.subjects[cell].sort
        } else {
            Sort::Other
        }
    }

    /// The number of the type of a class.
    pub fn group(&self, class: usize) -> u64 {
        let cell = self.first(class);
        if cell < self.subjects.len() {
            self.subjects[cell].group
        } else {
            0
        }
    }

    /// The signature of a class.
    pub fn signature(&self, class: usize) -> Option<Signature> {
        self.signatures.get(self.first(class)).copied()
    }

    /// Whether a cell is one of this program.
    pub fn is_of(&self, cell: usize, side: Side) -> bool {
        cell < self.subjects.len() && self.subjects[cell].side == side
    }

    /// The program of a cell.
    pub fn side(&self, cell: usize) -> Side {
        if self.is_of(cell, Side::New) {
            Side::New
        } else {
            Side::Old
        }
    }

    /// The cell that has the path and type of this one in the other program.
    pub fn twin(&self, cell: usize) -> Option<usize> {
        match self.subjects.get(cell) {
            Some(subject) => subject.twin,
            None => None,
        }
    }

    /// The first cell of a class that is one of this program.
    pub fn member_of(&self, class: usize, side: Side) -> Option<usize> {
        for cell in self.classes.members(class) {
            if self.is_of(*cell, side) {
                return Some(*cell);
            }
        }
        None
    }

    /// The class of a cell; a cell that kept one value is in none.
    pub fn class_of(&self, cell: usize) -> Option<usize> {
        let signature = self.signatures.get(cell)?;
        let subject = self.subjects.get(cell)?;
        if signature.is_constant() {
            return None;
        }
        self.classes.find(key_of(subject.group, signature.values))
    }

    /// Whether a cell is in a class.
    pub fn is_in(&self, class: usize, cell: usize) -> bool {
        self.class_of(cell) == Some(class)
    }

    /// A cell of a class, one of the other program than this cell where there is one.
    pub fn across(&self, class: usize, cell: usize) -> usize {
        let found = match self.side(cell) {
            Side::Old => self.member_of(class, Side::New),
            Side::New => self.member_of(class, Side::Old),
        };
        match found {
            Some(other) => other,
            None => self.first(class),
        }
    }

    /// Whether all cells of a class are inputs.
    pub fn is_of_inputs(&self, class: usize) -> bool {
        for cell in self.classes.members(class) {
            if *cell < self.subjects.len() && !self.subjects[*cell].is_input {
                return false;
            }
        }
        true
    }

    /// Whether a class has cells of both programs, or a proposal ties it to the other one.
    pub fn is_tied(&self, class: usize) -> bool {
        match self.tied.get(class) {
            Some(tied) => *tied,
            None => false,
        }
    }

    /// Notes that a class is tied to the other program.
    pub fn tie(&mut self, class: usize) {
        if class < self.tied.len() {
            self.tied[class] = true;
        }
    }
}
