// The first row that some filling breaks. 01: "14 and 15 speak of the first row, by line and then by instance, that some filling
// breaks."
ghost use Rattle.std.specs.Prelude.{◌≡◌, take};
ghost use Rattle.guide.specs.meaning.Guide.{guide_of};
ghost use Rattle.rules.specs.method.Scanning.{scanned_row};

use crate::finding::Finding;
use crate::watch::Watch;
use guide::layout;

// The first row of the message with these homes, under the book's rows for one Prüfidentifikator: line by line, and in each line
// instance by instance of its parent. As many homes count as there are segments, or as there are entries; a Prüfidentifikator that the
// book does not have has no rows.
#[tactic(auto, using(crate::proofs::Passing::rows))]
pub fn first_row(
    book: &[u8],
    identifier: u32,
    conditions: &[u8],
    segments: u32,
    homes: &[u32],
) -> Result<(), Finding>
    ensures { result ≡ scanned_row (guide_of book.now) identifier conditions.now (take segments homes.now) }
{
    if identifier >= layout::identifiers(book) {
        return Ok(());
    }
    let counted = &homes[..(segments as usize).min(homes.len())];
    for line in 1..=layout::lines(book) {
        Watch::of_line(book, identifier, conditions, line).scan(line, counted)?;
    }
    Ok(())
}
