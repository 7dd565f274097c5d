// The rules on types: what type an expression has, what is broken in it, and what typed tree it stands for; domains, members and places.
#![tactic(auto)]

mod domain;
mod member;
mod next;
mod scope;

pub use domain::Domain;
pub use member::Member;
pub use next::Next;
pub use scope::{Instance, Meaning, Place, Port, Scope, Signature};
