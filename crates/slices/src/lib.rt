// Slices at any place: past the end there is 0 to be read, and nothing is written. Messages, books and lent tables are read and written so.
#![tactic(auto)]

ghost use Rattle.std.specs.Prelude.{◌≡◌, ◌<◌, get_or, set};
ghost use Rattle.slices.specs.method.Entries.{entry};

// The byte at an offset; 0 past the end.
// Stays: no Option: the definitions read bytes past the end as 0.
pub fn byte_at(bytes: &[u8], at: usize) -> u32
    ensures { (result ≡ get_or bytes.now at 0) × (result < 256) }
{
    bytes.get(at).map_or(0, |&byte| u32::from(byte))
}

// One value into a lent table, if it fits there.
pub fn put<T: Copy>(table: &mut [T], at: usize, value: T)
    ensures { table.new ≡ set table.old at value }
{
    if at < table.len() {
        table[at] = value;
    }
}

// A size as a table of 32-bit numbers holds it.
pub fn entry_of(size: usize) -> u32
    ensures { result ≡ entry size }
{
    (size % 0x1_0000_0000) as u32
}
