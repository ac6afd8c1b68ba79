// The message alone, without a guide book: numbers 3 to 9 of 01's table, and the record in which every stage answers.
// 01, "Verdict numbers"; to be read in this order: verdict, refusal, limits, survey (numbers 4 and 7), message.
#![tactic(auto)]

pub mod limits;
mod message;
mod refusal;
mod survey;
mod verdict;

pub use message::{Room, message_stage};
pub use refusal::Refusal;
pub use verdict::{Place, Verdict, put_verdict};
