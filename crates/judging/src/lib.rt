// Judging: 01's table as code, and nothing else. 01, "Verdict numbers"; to be read in this order: refusing (1 to 11, of which the
// crate framing asks 3 to 9), placed (12 to 15), deciding.
#![tactic(auto)]

mod deciding;
mod placed;
mod refusing;

pub use deciding::judge;
