// The two sides of a comparison.

/// OLD or NEW.
#[derive(Clone, Copy)]
pub enum Side {
    Old,
    New,
}
