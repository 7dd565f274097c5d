// What evaluations and runs read.
use plc_types::{Range, Value};
use program_tree::Called;

/// What a POU runs over: the ranges of its owner's cells, where its own begin among them, and the POUs that it may call, which are
/// the first so many.
#[derive(Clone, Copy)]
pub struct Scope<'a> {
    pub ranges: &'a [Range],
    pub base: u128,
    pub called: &'a [Called],
    pub below: usize,
}

/// What an evaluation reads: an owner's cells, or those of two as one, OLD's and then NEW's, and the scope.
#[derive(Clone, Copy)]
pub struct Reading<'a> {
    pub first: &'a [Value],
    pub second: &'a [Value],
    pub scope: &'a Scope<'a>,
}
