// Every number in a book by name. Where it stands in its record is said here alone; how long a record is, in edition.rt; where the
// header's numbers stand, in head.rt. An accessor reads the header for where its block lies, and for the edition that it reads; it
// takes numbers of 32 bits, so that no offset can wrap. Past the end all is 0.
#![tactic(auto, unfolding(crate::specs::meaning::Guide::guide_of))]

ghost use Rattle.std.specs.Prelude.{◌≡◌, ◌+◌, ◌<◌, ◌*◌, ◌^◌, eqb};
ghost use Rattle.guide.specs.meaning.Numbers.{u16At};
ghost use Rattle.guide.specs.meaning.Guide.{guide_of, line_at, code_at, field_at, identifier_at, row_at};
ghost use Rattle.guide.specs.meaning.Words.{group_kind};

use crate::words::LineKind;
use crate::{edition, head, numbers};

// ---- where a record begins

// Lines count from 1, and their block lies behind the header.
fn line_at(book: &[u8], line: u32) -> usize
    ensures { (result ≡ line_at book.now line) × (result < 2 ^ 41) }
{
    let edition = edition::edition_of(book);
    let size = edition.line;
    numbers::behind(edition.header as usize, size, line as usize) - size as usize
}

// The others count from 0, each block from the offset that stands at its place in the header.
fn record_at(book: &[u8], block: u32, size: u32, number: u32) -> usize
    requires { size < 256 }
    ensures { (result ≡ u16At book.now block + size * number) × (result < 2 ^ 41) }
{
    let from = head::number(book, block) as usize;
    numbers::behind(from, size, number as usize)
}

// Stays: four of one form, each a line that says which block and which size belong together.
fn code_at(book: &[u8], code: u32) -> usize
    ensures { (result ≡ code_at book.now code) × (result < 2 ^ 41) }
{
    record_at(
        book,
        head::CODES_OFFSET,
        edition::edition_of(book).code,
        code,
    )
}

fn field_at(book: &[u8], field: u32) -> usize
    ensures { (result ≡ field_at book.now field) × (result < 2 ^ 41) }
{
    record_at(
        book,
        head::FIELDS_OFFSET,
        edition::edition_of(book).field,
        field,
    )
}

fn identifier_at(book: &[u8], identifier: u32) -> usize
    ensures { (result ≡ identifier_at book.now identifier) × (result < 2 ^ 41) }
{
    let size = edition::edition_of(book).identifier;
    record_at(book, head::IDENTIFIERS_OFFSET, size, identifier)
}

fn row_at(book: &[u8], row: u32) -> usize
    ensures { (result ≡ row_at book.now row) × (result < 2 ^ 41) }
{
    record_at(book, head::ROWS_OFFSET, edition::edition_of(book).row, row)
}

// ---- how many there are

pub fn lines(book: &[u8]) -> u32
    ensures { (result ≡ (guide_of book.now).lines) × (result < 65536) }
{
    head::number(book, head::LINES)
}

pub fn codes(book: &[u8]) -> u32
    ensures { (result ≡ (guide_of book.now).codes) × (result < 65536) }
{
    head::number(book, head::CODES)
}

pub fn fields(book: &[u8]) -> u32
    ensures { (result ≡ (guide_of book.now).fields) × (result < 65536) }
{
    head::number(book, head::FIELDS)
}

pub fn identifiers(book: &[u8]) -> u32
    ensures { (result ≡ (guide_of book.now).identifiers) × (result < 65536) }
{
    head::number(book, head::IDENTIFIERS)
}

pub fn conditions(book: &[u8]) -> u32
    ensures { (result ≡ (guide_of book.now).conditions) × (result < 65536) }
{
    head::number(book, head::CONDITIONS)
}

pub fn carrier(book: &[u8]) -> u32
    ensures { (result ≡ (guide_of book.now).carrier) × (result < 65536) }
{
    head::number(book, head::CARRIER)
}

// ---- all by name
// Stays: one accessor a name, each a line; five crates and the laws cite them by these names.

pub fn kind(book: &[u8], line: u32) -> u32
    ensures { (result ≡ (guide_of book.now).kind line) × (result < 256) }
{
    slices::byte_at(book, line_at(book, line))
}

pub fn is_group(book: &[u8], line: u32) -> bool
    ensures { result ≡ eqb ((guide_of book.now).kind line) group_kind }
{
    LineKind::try_from(kind(book, line)) == Ok(LineKind::Group)
}

pub fn depth(book: &[u8], line: u32) -> u32
    ensures { (result ≡ (guide_of book.now).depth line) × (result < 256) }
{
    slices::byte_at(book, line_at(book, line) + 1)
}

pub fn tag_byte(book: &[u8], line: u32, byte: u32) -> u32
    ensures { (result ≡ (guide_of book.now).tag_byte line byte) × (result < 256) }
{
    slices::byte_at(book, line_at(book, line) + (2 + byte as usize))
}

// The three bytes of a line's tag as one number.
pub fn tag(book: &[u8], line: u32) -> u32
    ensures { (result ≡ (guide_of book.now).tag line) × (result < 2 ^ 24) }
{
    numbers::u16_at(book, line_at(book, line) + 2)
        + 65536 * slices::byte_at(book, line_at(book, line) + 4)
}

pub fn required(book: &[u8], line: u32) -> u32
    ensures { (result ≡ (guide_of book.now).required line) × (result < 256) }
{
    slices::byte_at(book, line_at(book, line) + 5)
}

pub fn selector_element(book: &[u8], line: u32) -> u32
    ensures { (result ≡ (guide_of book.now).selector_element line) × (result < 256) }
{
    slices::byte_at(book, line_at(book, line) + 6)
}

pub fn selector_component(book: &[u8], line: u32) -> u32
    ensures { (result ≡ (guide_of book.now).selector_component line) × (result < 256) }
{
    slices::byte_at(book, line_at(book, line) + 7)
}

pub fn first_code(book: &[u8], line: u32) -> u32
    ensures { (result ≡ (guide_of book.now).first_code line) × (result < 65536) }
{
    numbers::u16_at(book, line_at(book, line) + 8)
}

pub fn code_count(book: &[u8], line: u32) -> u32
    ensures { (result ≡ (guide_of book.now).code_count line) × (result < 65536) }
{
    numbers::u16_at(book, line_at(book, line) + 10)
}

pub fn maximum(book: &[u8], line: u32) -> u32
    ensures { (result ≡ (guide_of book.now).maximum line) × (result < 2 ^ 32) }
{
    numbers::u32_at(book, line_at(book, line) + 12)
}

pub fn first_field(book: &[u8], line: u32) -> u32
    ensures { (result ≡ (guide_of book.now).first_field line) × (result < 65536) }
{
    numbers::u16_at(book, line_at(book, line) + 16)
}

pub fn field_count(book: &[u8], line: u32) -> u32
    ensures { (result ≡ (guide_of book.now).field_count line) × (result < 65536) }
{
    numbers::u16_at(book, line_at(book, line) + 18)
}

pub fn code_length(book: &[u8], code: u32) -> u32
    ensures { (result ≡ (guide_of book.now).code_length code) × (result < 256) }
{
    slices::byte_at(book, code_at(book, code))
}

pub fn code_byte(book: &[u8], code: u32, byte: u32) -> u32
    ensures { (result ≡ (guide_of book.now).code_byte code byte) × (result < 256) }
{
    slices::byte_at(book, code_at(book, code) + (1 + byte as usize))
}

pub fn code_end(book: &[u8], code: u32) -> u32
    ensures { (result ≡ (guide_of book.now).code_end code) × (result < 256) }
{
    slices::byte_at(book, code_at(book, code) + 7)
}

pub fn code_low(book: &[u8], code: u32) -> u32
    ensures { (result ≡ (guide_of book.now).code_low code) × (result < 2 ^ 32) }
{
    numbers::u32_at(book, code_at(book, code))
}

pub fn code_high(book: &[u8], code: u32) -> u32
    ensures { (result ≡ (guide_of book.now).code_high code) × (result < 2 ^ 32) }
{
    numbers::u32_at(book, code_at(book, code) + 4)
}

pub fn element(book: &[u8], field: u32) -> u32
    ensures { (result ≡ (guide_of book.now).element field) × (result < 256) }
{
    slices::byte_at(book, field_at(book, field))
}

pub fn component(book: &[u8], field: u32) -> u32
    ensures { (result ≡ (guide_of book.now).component field) × (result < 256) }
{
    slices::byte_at(book, field_at(book, field) + 1)
}

pub fn presence(book: &[u8], field: u32) -> u32
    ensures { (result ≡ (guide_of book.now).presence field) × (result < 256) }
{
    slices::byte_at(book, field_at(book, field) + 2)
}

pub fn form(book: &[u8], field: u32) -> u32
    ensures { (result ≡ (guide_of book.now).form field) × (result < 256) }
{
    slices::byte_at(book, field_at(book, field) + 3)
}

pub fn longest(book: &[u8], field: u32) -> u32
    ensures { (result ≡ (guide_of book.now).longest field) × (result < 65536) }
{
    numbers::u16_at(book, field_at(book, field) + 4)
}

pub fn first_value(book: &[u8], field: u32) -> u32
    ensures { (result ≡ (guide_of book.now).first_value field) × (result < 65536) }
{
    numbers::u16_at(book, field_at(book, field) + 6)
}

pub fn value_count(book: &[u8], field: u32) -> u32
    ensures { (result ≡ (guide_of book.now).value_count field) × (result < 65536) }
{
    numbers::u16_at(book, field_at(book, field) + 8)
}

pub fn field_end(book: &[u8], field: u32) -> u32
    ensures { (result ≡ (guide_of book.now).field_end field) × (result < 65536) }
{
    numbers::u16_at(book, field_at(book, field) + 10)
}

pub fn identifier_byte(book: &[u8], identifier: u32, byte: u32) -> u32
    ensures { (result ≡ (guide_of book.now).identifier_byte identifier byte) × (result < 256) }
{
    slices::byte_at(book, identifier_at(book, identifier) + byte as usize)
}

pub fn mode(book: &[u8], row: u32) -> u32
    ensures { (result ≡ (guide_of book.now).mode row) × (result < 256) }
{
    slices::byte_at(book, row_at(book, row))
}

pub fn joint(book: &[u8], row: u32) -> u32
    ensures { (result ≡ (guide_of book.now).joint row) × (result < 256) }
{
    slices::byte_at(book, row_at(book, row) + 1)
}

pub fn condition(book: &[u8], row: u32, byte: u32) -> u32
    ensures { (result ≡ (guide_of book.now).condition row byte) × (result < 256) }
{
    slices::byte_at(book, row_at(book, row) + (2 + byte as usize))
}

pub fn row_end(book: &[u8], row: u32, byte: u32) -> u32
    ensures { (result ≡ (guide_of book.now).row_end row byte) × (result < 256) }
{
    slices::byte_at(book, row_at(book, row) + (5 + byte as usize))
}
