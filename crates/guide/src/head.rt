// The header: where its fourteen numbers stand, in every edition. 01: "Header of 14 two-byte numbers".
ghost use Rattle.std.specs.Prelude.{◌≡◌, ◌<◌};
ghost use Rattle.guide.specs.meaning.Numbers.{u16At};

use crate::numbers;

pub const EDITION: u32 = 0;

pub const LENGTH: u32 = 2;

pub const LINES: u32 = 4;

pub const LINES_OFFSET: u32 = 6;

pub const CODES: u32 = 8;

pub const CODES_OFFSET: u32 = 10;

pub const FIELDS: u32 = 12;

pub const FIELDS_OFFSET: u32 = 14;

pub const IDENTIFIERS: u32 = 16;

pub const IDENTIFIERS_OFFSET: u32 = 18;

pub const ROWS_OFFSET: u32 = 20;

pub const CONDITIONS: u32 = 22;

pub const CARRIER: u32 = 24;

pub const LAST: u32 = 26;

// The number of the header that stands at one of these places.
pub fn number(book: &[u8], at: u32) -> u32
    ensures { (result ≡ u16At book.now at) × (result < 65536) }
{
    numbers::u16_at(book, at as usize)
}
