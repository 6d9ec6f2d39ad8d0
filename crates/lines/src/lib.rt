// The lines of a cache of late writes: a table of four, each empty or with a sector that waits for one block.
#![tactic(auto)]

mod line;
mod table;

pub use line::Line;
pub use table::Table;
