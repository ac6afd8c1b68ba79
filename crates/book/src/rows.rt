// The rules of one row.
ghost use Rattle.std.specs.Prelude.{◌≡◌, ◌<◌};
ghost use Rattle.book.specs.method.Run.{run};
ghost use Rattle.guide.specs.meaning.Guide.{guide_of};
ghost use Rattle.book.specs.meaning.GoodBook.{literal_rule, next_literal_rule, expression_rule, no_expression_rule, mode_rule, required_row_rule};
ghost use Rattle.book.specs.method.Each.{Small, rows_rule, row_rule};

use guide::layout;
use guide::words::{Joint, Mode, NEGATED, NoWord};

fn is_literal(book: &[u8], byte: u32) -> bool
    ensures { result ≡ run (literal_rule (guide_of book.now) byte) }
{
    (1..=layout::conditions(book)).contains(&(byte % NEGATED))
}

#[tactic(auto, unfolding(crate::specs::meaning::GoodBook::next_literal_rule))]
fn is_next_literal(book: &[u8], before: u32, byte: u32) -> bool
    ensures { result ≡ run (next_literal_rule (guide_of book.now) before byte) }
{
    byte == 0 || (is_literal(book, byte) && before % NEGATED < byte % NEGATED)
}

#[tactic(auto, unfolding(crate::specs::meaning::GoodBook::expression_rule))]
fn expression_is_good(book: &[u8], row: u32) -> bool
    ensures { result ≡ run (expression_rule (guide_of book.now) row) }
{
    let joint = Joint::try_from(layout::joint(book, row));
    let first = layout::condition(book, row, 0);
    let second = layout::condition(book, row, 1);
    let third = layout::condition(book, row, 2);
    is_literal(book, first)
        && is_next_literal(book, first, second)
        && is_next_literal(book, second, third)
        && joint.is_ok()
        && (second != 0 || (third == 0 && joint == Ok(Joint::All)))
}

#[tactic(auto, unfolding(crate::specs::meaning::GoodBook::no_expression_rule))]
fn has_no_expression(book: &[u8], row: u32) -> bool
    ensures { result ≡ run (no_expression_rule (guide_of book.now) row) }
{
    // Stays: no record is asked so often, and with `(0..3).all(..)` here and below the book check took a tenth longer.
    layout::joint(book, row) == 0
        && layout::condition(book, row, 0) == 0
        && layout::condition(book, row, 1) == 0
        && layout::condition(book, row, 2) == 0
}

#[tactic(auto, unfolding(crate::specs::meaning::GoodBook::mode_rule))]
fn mode_is_good(book: &[u8], row: u32) -> bool
    ensures { result ≡ run (mode_rule (guide_of book.now) row) }
{
    match Mode::try_from(layout::mode(book, row)) {
        Ok(Mode::Never | Mode::Must | Mode::May) => has_no_expression(book, row),
        Ok(Mode::MustIf | Mode::MayIf) => expression_is_good(book, row),
        Err(NoWord) => false,
    }
}

// Lines run fastest.
#[tactic(auto, unfolding(crate::specs::meaning::GoodBook::required_row_rule))]
fn suits_required_line(book: &[u8], row: u32) -> bool
    requires { 0 < (guide_of book.now).lines }
    ensures { result ≡ run (required_row_rule (guide_of book.now) row) }
{
    let line = row % layout::lines(book) + 1;
    layout::required(book, line) != 1 || Mode::try_from(layout::mode(book, row)) == Ok(Mode::Must)
}

#[tactic(auto, unfolding(crate::specs::method::Each::row_rule, crate::specs::meaning::GoodBook::row_end_rule))]
pub fn row_is_good(book: &[u8], row: u32) -> bool
    requires { 0 < (guide_of book.now).lines }
    ensures { result ≡ run (row_rule (guide_of book.now) row) }
{
    mode_is_good(book, row)
        && layout::row_end(book, row, 0) == 0
        && layout::row_end(book, row, 1) == 0
        && layout::row_end(book, row, 2) == 0
        && suits_required_line(book, row)
}

pub fn rows_are_good(book: &[u8]) -> bool
    requires { Small (guide_of book.now) }
    ensures { result ≡ run (rows_rule (guide_of book.now)) }
{
    let rows = layout::identifiers(book) * layout::lines(book);
    (0..rows).all(|row| row_is_good(book, row))
}
