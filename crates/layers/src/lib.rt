// Layers over block devices: a cache of late writes, and a mirror of two devices. Any pile of them is again a device.
#![tactic(auto)]

mod cache;
mod mirror;
mod piles;
mod repairing;

pub use cache::Cache;
pub use mirror::Mirror;
pub use piles::wipe_pile;
