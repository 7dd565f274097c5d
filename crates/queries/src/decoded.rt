use crate::row::Row;
use plc_types::Value;

/// What a solution of a query stands for: a state of OLD, one of NEW, and rows from them on. To a query for a first row, for
/// a break or for allowed rows the states are those at the start.
#[derive(Drop)]
pub struct Decoded {
    pub old: Vec<Value>,
    pub new: Vec<Value>,
    pub rows: Vec<Row>,
}
