// Fields: whether a segment's components are as the fields of its line say. 01, "Placing and judging", second paragraph, and
// number 12; to be read in this order: number, parts, field, element, fault, passes.
#![tactic(auto)]

mod element;
mod fault;
mod field;
mod number;
mod parts;
mod passes;

pub use passes::{FirstFault, test_fields};
