// The Prüfidentifikator that a message names. 01, number 13.
ghost use Rattle.std.specs.Prelude.{◌≡◌};
ghost use Rattle.guide.specs.meaning.Guide.{guide_of};
ghost use Rattle.reading.specs.meaning.Component.{same_component};
ghost use Rattle.rules.specs.meaning.Identifiers.{identifier_value};
ghost use Rattle.rules.specs.method.Identifiers.{identified};

use guide::layout;

// 01: "five digits".
const DIGITS: usize = 5;

// Is this the value of the Prüfidentifikator with this number?
#[tactic(auto, using(reading::proofs::Comparing::different_lengths))]
fn is_identifier(book: &[u8], identifier: u32, value: &[u8]) -> bool
    ensures { result ≡ same_component value.now (identifier_value (guide_of book.now) identifier) }
{
    value.len() == DIGITS
        && (0..DIGITS).all(|at| u32::from(value[at])
            == layout::identifier_byte(book, identifier, at as u32))
}

// Its number in the book, counted from 0, if the book has it: the first with this value; a good book has one at most.
pub fn find_identifier(book: &[u8], value: &[u8]) -> Option<u32>
    ensures { result ≡ identified (guide_of book.now) value.now }
{
    (0..layout::identifiers(book)).find(|&identifier| is_identifier(book, identifier, value))
}
