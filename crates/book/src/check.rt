// Is a book good? The rules in an order that keeps hostile books cheap: the header, each record by itself, then the lines
// among each other.
ghost use Rattle.std.specs.Prelude.{◌≡◌, ◌<◌, ◌^◌};
ghost use Rattle.book.specs.method.Run.{run};
ghost use Rattle.guide.specs.meaning.Guide.{guide_of};
ghost use Rattle.book.specs.meaning.GoodBook.{rising_fields_rule, around_rule, carrier_group_rule, Judged};
ghost use Rattle.book.specs.method.Each.{structure_rule, structures_rule, Small, Within, header_rule, records_rule, framed_rule};
ghost use Rattle.book.specs.method.Answer.{number_of};

use crate::{codes, fields, header, homes, identifiers, lines, rows, structure};
use guide::layout;

fn fields_rise(book: &[u8], line: u32) -> bool
    ensures { result ≡ run (rising_fields_rule (guide_of book.now) line) }
{
    let first = layout::first_field(book, line);
    let steps = layout::field_count(book, line).saturating_sub(1);
    (first..first + steps).all(|field| structure::field_rises(book, field))
}

// Do all lines from the next one to the other lie deeper?
#[tactic(auto, unfolding(crate::specs::meaning::GoodBook::around_rule))]
fn is_around(book: &[u8], line: u32, other: u32) -> bool
    requires { (line < 2 ^ 16) × (other < 2 ^ 16) }
    ensures { result ≡ run (around_rule (guide_of book.now) line other) }
{
    layout::is_group(book, line)
        && line < other
        && (line + 1..other + 1).all(|inner| structure::is_deeper(book, line, inner))
}

#[tactic(auto, unfolding(crate::specs::meaning::GoodBook::carrier_group_rule))]
fn suits_carrier(book: &[u8], line: u32) -> bool
    requires { line < 2 ^ 16 }
    ensures { result ≡ run (carrier_group_rule (guide_of book.now) line) }
{
    !is_around(book, line, layout::carrier(book)) || structure::comes_once(book, line)
}

#[tactic(auto, unfolding(crate::specs::method::Each::structure_rule))]
fn structure_is_good(book: &[u8], line: u32) -> bool
    requires { line < 2 ^ 16 }
    ensures { result ≡ run (structure_rule (guide_of book.now) line) }
{
    fields_rise(book, line)
        && structure::has_trigger(book, line)
        && structure::stays_or_falls(book, line)
        && structure::is_no_other_frame(book, line)
        && suits_carrier(book, line)
}

fn structures_are_good(book: &[u8]) -> bool
    ensures { result ≡ run (structures_rule (guide_of book.now)) }
{
    (1..layout::lines(book) + 1).all(|line| structure_is_good(book, line))
}

#[tactic(auto, unfolding(crate::specs::method::Each::header_rule))]
fn header_is_good(book: &[u8]) -> bool
    ensures { result ≡ run (header_rule book.now) }
{
    header::edition_is_good(book)
        && header::blocks_are_good(book)
        && header::length_is_good(book)
        && header::counts_are_good(book)
}

#[tactic(auto, unfolding(crate::specs::method::Each::records_rule))]
fn records_are_good(book: &[u8]) -> bool
    requires { Small (guide_of book.now) }
    ensures { result ≡ run (records_rule (guide_of book.now)) }
{
    lines::lines_are_good(book)
        && codes::codes_are_good(book)
        && fields::fields_are_good(book)
        && identifiers::identifiers_are_good(book)
        && rows::rows_are_good(book)
}

#[tactic(auto, unfolding(crate::specs::method::Each::framed_rule))]
fn frame_is_good(book: &[u8]) -> bool
    requires { Within (guide_of book.now) }
    ensures { result ≡ run (framed_rule (guide_of book.now)) }
{
    structure::has_frames(book)
        && structure::has_carrier(book)
        && structures_are_good(book)
        && homes::homes_are_good(book)
}

// A book that breaks a rule.
#[derive(Clone, Copy, PartialEq, Eq, Debug)]
pub struct BadBook;

// 01, number 1: is the book good?
pub fn check_book(book: &[u8]) -> Result<(), BadBook>
    ensures { Judged book.now (number_of result) }
{
    if header_is_good(book) && records_are_good(book) && frame_is_good(book) {
        return Ok(());
    }
    Err(BadBook)
}
