// What the texts have and the programs have not.
use crate::spelling::Spelling;
use plc_types::Value;

/// The numbers that stand in the texts, and how each program's text writes its names.
#[derive(Drop)]
pub struct Wording {
    pub numbers: Vec<Value>,
    pub old: Spelling,
    pub new: Spelling,
}
