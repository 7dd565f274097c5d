// The states of two programs.
use plc_types::Value;

/// The states of OLD and of NEW.
#[derive(Drop)]
pub struct States {
    pub of_old: Vec<Value>,
    pub of_new: Vec<Value>,
}
