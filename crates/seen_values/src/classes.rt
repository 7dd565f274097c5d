// Classes of cells by keys.
use indexmap::IndexMap;
use std::alloc::{AllocError, Global};

/// Cells by classes, each class with the key of its members. Classes stand in the order of their first members.
#[derive(Drop)]
pub struct Classes {
    alloc: Global,
    by_key: IndexMap<u64, usize>,
    members: Vec<Vec<usize>>,
}

impl Classes {
    /// No class.
    pub fn new(alloc: Global) -> Classes {
        Classes {
            alloc,
            by_key: IndexMap::new(alloc),
            members: Vec::new(alloc),
        }
    }

    /// The number of the class of a key.
    pub fn find(&self, key: u64) -> Option<usize> {
        self.by_key.get(&key).copied()
    }

    /// Puts a cell into the class of its key.
    pub fn add(&mut self, key: u64, cell: usize) -> Result<(), AllocError> {
        let number = match self.find(key) {
            Some(number) => number,
            None => {
                let number = self.members.len();
                self.by_key.insert(key, number)?;
                self.members.push(Vec::new(self.alloc))?;
                number
            }
        };
        if number < self.members.len() {
            self.members[number].push(cell)?;
        }
        Ok(())
    }

    /// How many classes there are.
    pub fn len(&self) -> usize {
        self.members.len()
    }

    /// The members of a class, in the order in which they were put there.
    pub fn members(&self, class: usize) -> &[usize] {
        match self.members.get(class) {
            Some(members) => members.as_slice(),
            None => &[],
        }
    }
}
