// Where the blocks of a book lie by its edition and its counts: 01's length formula, part by part. What the header says of their
// offsets is held to it by the check.
ghost use Rattle.guide.specs.method.Sizes.{BlocksOf};

use crate::{edition, layout, numbers};

// Where each block but the first begins, and where the last one ends.
#[derive(Clone, Copy)]
pub struct Blocks {
    pub codes: usize,
    pub fields: usize,
    pub identifiers: usize,
    pub rows: usize,
    pub end: usize,
}

// Each block lies behind the one before it. Computed wide: the end may be far more than a book's length can say.
pub fn blocks_of(book: &[u8]) -> Blocks
    ensures { BlocksOf book.now result }
{
    let edition = edition::edition_of(book);
    let lines = layout::lines(book) as usize;
    let count = layout::identifiers(book) as usize;
    let codes = numbers::behind(edition.header as usize, edition.line, lines);
    let fields = numbers::behind(codes, edition.code, layout::codes(book) as usize);
    let identifiers = numbers::behind(fields, edition.field, layout::fields(book) as usize);
    let rows = numbers::behind(identifiers, edition.identifier, count);
    let end = numbers::behind(rows, edition.row, count * lines);
    Blocks {
        codes,
        fields,
        identifiers,
        rows,
        end,
    }
}
