// What stands in a book's bytes, by name, for any bytes; whether the book is good is book's business. 01, "The guide book"; to be read
// in this order: numbers, head, edition, words, layout, blocks, code.
#![tactic(auto)]

pub mod blocks;
pub mod code;
pub mod edition;
pub mod head;
pub mod layout;
mod numbers;
pub mod words;
