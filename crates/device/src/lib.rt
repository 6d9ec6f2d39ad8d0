// Block devices: what one is, what it refuses, and the trait that every card and layer implements.
#![tactic(auto)]

mod check;
mod fault;
mod replacing;
mod sector;
mod traits;

pub use check::check_block;
pub use fault::DeviceFault;
pub use replacing::replace;
pub use sector::{Sector, blank_sector};
pub use traits::Device;
