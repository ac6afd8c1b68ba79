// How much is judged at most: 01, numbers 3 and 5.
pub const LIMIT_BYTES: usize = 16_777_216;

pub const LIMIT_SEGMENTS: usize = 999_999;
