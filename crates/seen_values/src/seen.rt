// The values of cells, pair by pair.
use plc_types::Value;
use std::alloc::{AllocError, Global};

/// The values of the cells of two programs on pairs: a row for each pair, OLD's cells and then NEW's.
#[derive(Drop)]
pub struct Seen {
    width: usize,
    rows: usize,
    values: Vec<Value>,
}

impl Seen {
    /// No pair, of so many cells.
    pub fn new(alloc: Global, width: usize) -> Seen {
        Seen {
            width,
            rows: 0,
            values: Vec::new(alloc),
        }
    }

    /// Adds a pair.
    pub fn add(&mut self, old: &[Value], new: &[Value]) -> Result<(), AllocError> {
        self.values.extend_from_slice(old)?;
        self.values.extend_from_slice(new)?;
        self.rows = self.rows.saturating_add(1);
        Ok(())
    }

    /// How many pairs there are.
    pub fn rows(&self) -> usize {
        self.rows
    }

    /// How many cells there are.
    pub fn width(&self) -> usize {
        self.width
    }

    /// The values on a pair, by its number from 0; none where there is no such pair.
    pub fn row(&self, number: usize) -> &[Value] {
        let start = number.wrapping_mul(self.width);
        let end = start.wrapping_add(self.width);
        match self.values.get(start..end) {
            Some(row) => row,
            None => &[],
        }
    }

    /// The value of a cell on a pair, or 0 where there is none.
    pub fn value(&self, row: usize, cell: usize) -> Value {
        let row = self.row(row);
        if cell < row.len() { row[cell] } else { 0 }
    }
}
