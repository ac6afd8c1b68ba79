// Placing: which line of the guide book each segment of a message belongs to, and in which instance of which group.
// 01, "Placing and judging", first paragraph; to be read in this order: segment, home, walk, tree, passes, tables.
#![tactic(auto)]

mod home;
mod passes;
mod segment;
mod tables;
mod tree;
mod walk;

pub use passes::{Unplaced, test_placing, write_tree};
pub use tables::{place_of, start_of};
