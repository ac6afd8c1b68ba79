// The header's rules: they come first, so that no later rule meets counts that the book has no room for.
ghost use Rattle.std.specs.Prelude.{◌≡◌};
ghost use Rattle.guide.specs.meaning.Numbers.{u16At};
ghost use Rattle.book.specs.meaning.Rule.{◌≐◌};
ghost use Rattle.book.specs.method.Run.{run};
ghost use Rattle.book.specs.meaning.GoodBook.{edition_rule, blocks_rule, length_rule, counts_rule};

use guide::{blocks, edition, head, layout};

#[tactic(auto, unfolding(crate::specs::meaning::GoodBook::edition_rule))]
pub fn edition_is_good(book: &[u8]) -> bool
    ensures { result ≡ run (edition_rule book.now) }
{
    let edition = edition::edition_of(book);
    head::number(book, head::EDITION) == edition.number && head::number(book, head::LAST) == 0
}

// Does the header say so, at that offset of its own?
fn says(book: &[u8], at: u32, number: usize) -> bool
    ensures { result ≡ run (u16At book.now at ≐ number) }
{
    head::number(book, at) as usize == number
}

#[tactic(auto, unfolding(crate::specs::meaning::GoodBook::blocks_rule))]
pub fn blocks_are_good(book: &[u8]) -> bool
    ensures { result ≡ run (blocks_rule book.now) }
{
    let edition = edition::edition_of(book);
    let blocks = blocks::blocks_of(book);
    says(book, head::LINES_OFFSET, edition.header as usize)
        && says(book, head::CODES_OFFSET, blocks.codes)
        && says(book, head::FIELDS_OFFSET, blocks.fields)
        && says(book, head::IDENTIFIERS_OFFSET, blocks.identifiers)
        && says(book, head::ROWS_OFFSET, blocks.rows)
}

#[tactic(auto, unfolding(crate::specs::meaning::GoodBook::length_rule))]
pub fn length_is_good(book: &[u8]) -> bool
    ensures { result ≡ run (length_rule book.now) }
{
    let length = book.len();
    length <= 65535 && says(book, head::LENGTH, length) && blocks::blocks_of(book).end == length
}

#[tactic(auto, unfolding(crate::specs::meaning::GoodBook::counts_rule, guide::specs::meaning::Guide::guide_of))]
pub fn counts_are_good(book: &[u8]) -> bool
    ensures { result ≡ run (counts_rule book.now) }
{
    layout::conditions(book) <= 64
        && (2..=256).contains(&layout::lines(book))
        && 1 <= layout::identifiers(book)
}
