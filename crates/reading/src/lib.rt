// The reading of bytes: what stands at the bottom and knows nothing of guide books.
// 01, "Bytes of a message", has the rules; to be read in this order: service, bytes, machine, segment, span, cursor,
// lookup, compare, tag.
#![tactic(auto)]

pub mod bytes;
pub mod compare;
pub mod cursor;
pub mod lookup;
pub mod machine;
pub mod segment;
pub mod service;
pub mod span;
pub mod tag;
