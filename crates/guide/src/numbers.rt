// Little-endian numbers of two and of four bytes, 0 past the end; one byte alone is byte_at of slices.
ghost use Rattle.std.specs.Prelude.{◌≡◌, ◌+◌, ◌*◌, ◌≤◌, ◌<◌, ◌^◌};
ghost use Rattle.guide.specs.meaning.Numbers.{u16At, u32_at};

// One test where both bytes are there, as they are in a good book: nothing is read so often.
pub fn u16_at(book: &[u8], at: usize) -> u32
    requires { at < 2 ^ 60 }
    ensures { (result ≡ u16At book.now at) × (result < 65536) }
{
    if at + 1 < book.len() {
        return u32::from(book[at]) + 256 * u32::from(book[at + 1]);
    }
    slices::byte_at(book, at)
}

pub fn u32_at(book: &[u8], at: usize) -> u32
    requires { at < 2 ^ 59 }
    ensures { (result ≡ u32_at book.now at) × (result < 2 ^ 32) }
{
    u16_at(book, at) + 65536 * u16_at(book, at + 2)
}

// The offset behind so many records of a size: where the next one begins, or the next block.
pub fn behind(from: usize, size: u32, count: usize) -> usize
    requires { (from < 2 ^ 41) × ((size < 256) × (count < 2 ^ 32)) }
    ensures { (result ≡ from + size * count) × (result ≤ from + 255 * count) }
{
    from + size as usize * count
}
