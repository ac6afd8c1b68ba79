// Guide books: whether one is good. 01, "The guide book". What stands in one, by name, is guide's business.
#![tactic(auto)]

mod check;
mod codes;
mod fields;
mod header;
mod homes;
mod identifiers;
mod lines;
mod numbering;
mod ranges;
mod rows;
mod structure;

pub use check::{BadBook, check_book};
