// What is open.

/// How many parentheses, IFs, CASEs and FORs are open.
#[derive(Clone, Copy)]
pub struct Open {
    pub parentheses: u8,
    pub ifs: u8,
    pub cases: u8,
    pub iterations: u8,
}

/// The most that may be open at once.
pub const MOST_OPEN: u8 = 64;
