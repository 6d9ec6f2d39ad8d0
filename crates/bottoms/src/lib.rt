// Two cards on the caller's bytes: one that writes in place, and one that writes each time to the next of four places.
#![tactic(auto)]

mod block;
mod card;
mod fault;
mod image;
mod placement;

pub use card::{Card, Plain, Rotating};
pub use fault::{OpenFault, Refused};
pub use placement::{InPlace, Placement, Rotation};
