ghost use Rattle.std.specs.Prelude.{◌≡◌, map};
ghost use Rattle.clause_core.specs.Values.{is_true};
ghost use Rattle.clause_core.specs.Satisfaction.{assigned};

use crate::truth::Truth;
use std::marker::Model;

/// A truth value for each variable: contracts see a list, in which the value of variable `n` stands
/// at place `n`. A variable past its end is false.
#[derive(Drop)]
pub struct Assignment {
    values: Vec<Truth>,
}

impl Model for Assignment {
    ghost use Rattle.std.specs.Prelude.{List, Bool, map};
    ghost use Rattle.clause_core.specs.Values.{is_true};

    ghost Value = { List Bool };

    ghost view = { λ a. map is_true a.values.items };
}

impl Assignment {
    /// Gives the variables that are true the value true, and the others false.
    pub fn from_values(values: Vec<Truth>) -> Self
        ensures { result ≡ map is_true values.items }
    {
        Assignment { values }
    }

    /// The value of a variable.
    pub fn value(&self, variable: u32) -> bool
        ensures { result ≡ assigned self.now variable }
    {
        match self.values.get(variable as usize) {
            Some(Truth::True) => true,
            _ => false,
        }
    }
}
