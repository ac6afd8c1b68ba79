// Counts of four bytes, little-endian, by the number that they count.
ghost use Rattle.std.specs.Prelude.{◌≡◌, ◌+◌, ◌≤◌, length};
ghost use Rattle.tally.specs.meaning.Tally.{count_bytes, count_place, count_of, with_count};

// Of each count.
pub const COUNT_BYTES: usize = 4;

// Where the count of a number begins.
fn count_place(number: u32) -> usize
    ensures { result ≡ count_place number }
{
    COUNT_BYTES * number as usize
}

// Four bytes, the lowest first.
pub fn count_of(tally: &[u8], number: u32) -> u32
    requires { count_place number + count_bytes ≤ length tally.now }
    ensures { result ≡ count_of tally.now number }
{
    let at = count_place(number);
    u32::from_le_bytes([tally[at], tally[at + 1], tally[at + 2], tally[at + 3]])
}

// The same four bytes anew, and no other.
pub fn put_count(tally: &mut [u8], number: u32, count: u32)
    requires { count_place number + count_bytes ≤ length tally.old }
    ensures { tally.new ≡ with_count tally.old number count }
{
    let at = count_place(number);
    tally[at..at + COUNT_BYTES].copy_from_slice(&count.to_le_bytes());
}
