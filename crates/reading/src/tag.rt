// The tag of a segment, as the number that a guide book's line has for it.
ghost use Rattle.std.specs.Prelude.{◌≡◌, ◌<◌, ◌^◌};
ghost use Rattle.reading.specs.method.Tag.{tag_at};

// The tags of a message's first segment and its last, as numbers.
pub const UNH: u32 = 0x484e55;

pub const UNT: u32 = 0x544e55;

// The tag of the segment that starts at an offset: its three bytes as one number, the first one lowest.
// Stays: 0 past the end, and no Option, is what the definition says, and no tag.
pub fn tag_at(message: &[u8], at: usize) -> u32
    ensures { (result ≡ tag_at message.now at) × (result < 2 ^ 24) }
{
    if message.len() <= at {
        return 0;
    }
    slices::byte_at(message, at)
        + 256 * slices::byte_at(message, at + 1)
        + 65536 * slices::byte_at(message, at + 2)
}
