// Rules: the rows of a guide book, and the first of them that a placed message breaks, under what is known of the conditions.
// 01, "The guide book" (Row), the last paragraph of "Placing and judging", and numbers 13 to 15; to be read in this order:
// conditions, breach, instances, finding, watch, first_row; and identifier.
#![tactic(auto)]

mod breach;
mod conditions;
pub mod finding;
pub mod first_row;
pub mod identifier;
mod instances;
mod watch;

pub use conditions::are_truth_values;
