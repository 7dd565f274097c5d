// What flat lists are made over.
use program_tree::Called;

/// Who owns the cells of a POU: the PROGRAM, whose cells stand in their places; or a call of a FUNCTION, with the place of what it
/// answers, and those of its inputs and its other variables.
#[derive(Clone, Copy)]
pub enum Owner<'a> {
    Program,
    Call(usize, &'a [usize]),
}

/// What a POU's flat list is made over: how many cells the program has, behind which scratch cells stand; the owner of the POU's cells,
/// and where among the owner's its own begin; and the POUs that it may run and call, which are the first so many, and
/// whether a run of each of these does nothing.
#[derive(Clone, Copy)]
pub struct FlatScope<'a, 'o> {
    pub cells: usize,
    pub owner: Owner<'o>,
    pub base: usize,
    pub called: &'a [Called],
    pub idle: &'a [bool],
    pub below: usize,
}
