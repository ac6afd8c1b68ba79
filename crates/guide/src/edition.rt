// The editions of a book: how many bytes its header and the records of its blocks have. Another edition is one more case here,
// in specs/meaning/Edition.antt, and in the proofs of the two; nothing else knows a size.
ghost use Rattle.guide.specs.meaning.Edition.{edition_numbered, edition_of};
ghost use Rattle.guide.specs.method.Sizes.{SizesOf};

use crate::head;

#[derive(Clone, Copy)]
pub struct Edition {
    // The book's first number.
    pub number: u32,
    pub header: u32,
    pub line: u32,
    pub code: u32,
    pub field: u32,
    pub identifier: u32,
    pub row: u32,
}

// Edition 1 where there is none of the number: any bytes say something.
fn edition_numbered(number: u32) -> Edition
    ensures { SizesOf (edition_numbered number) result }
{
    Edition {
        number: 1,
        header: 28,
        line: 20,
        code: 8,
        field: 12,
        identifier: 8,
        row: 8,
    }
}

// The edition that a book is read as. It inlines to its numbers: an accessor that asks for it pays nothing.
pub fn edition_of(book: &[u8]) -> Edition
    ensures { SizesOf (edition_of book.now) result }
{
    edition_numbered(head::number(book, head::EDITION))
}
