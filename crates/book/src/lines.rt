// The rules of one line by itself.
ghost use Rattle.std.specs.Prelude.{◌≡◌};
ghost use Rattle.book.specs.meaning.Rule.{◌and◌};
ghost use Rattle.book.specs.method.Run.{run};
ghost use Rattle.guide.specs.meaning.Guide.{guide_of};
ghost use Rattle.book.specs.meaning.GoodBook.{kind_rule, depth_rule, tag_byte_rule, tag_rule, required_rule, selector_rule, code_range_rule, maximum_rule, field_range_rule, group_rule};
ghost use Rattle.book.specs.method.Each.{lines_rule, line_rule};

use crate::ranges::is_range;
use guide::layout;
use guide::words::{LineKind, NoWord};

#[tactic(auto, unfolding(crate::specs::meaning::GoodBook::tag_byte_rule))]
fn tag_byte_is_good(book: &[u8], line: u32, byte: u8) -> bool
    ensures { result ≡ run (tag_byte_rule (guide_of book.now) line byte) }
{
    match LineKind::try_from(layout::kind(book, line)) {
        Ok(LineKind::Segment) => byte.is_ascii_uppercase() || byte.is_ascii_digit(),
        Ok(LineKind::Group) => byte == 0,
        Err(NoWord) => true,
    }
}

#[tactic(auto, unfolding(crate::specs::meaning::GoodBook::tag_rule))]
fn tag_is_good(book: &[u8], line: u32) -> bool
    ensures { result ≡ run (tag_rule (guide_of book.now) line) }
{
    (0..3).all(|byte| tag_byte_is_good(book, line, layout::tag_byte(book, line, byte) as u8))
}

#[tactic(auto, unfolding(crate::specs::meaning::GoodBook::kind_rule, crate::specs::meaning::GoodBook::depth_rule))]
fn head_is_good(book: &[u8], line: u32) -> bool
    ensures { result ≡ run (kind_rule (guide_of book.now) line and depth_rule (guide_of book.now) line and tag_rule (guide_of book.now) line) }
{
    LineKind::try_from(layout::kind(book, line)).is_ok()
        && layout::depth(book, line) <= 7
        && tag_is_good(book, line)
}

#[tactic(auto, unfolding(crate::specs::meaning::GoodBook::selector_rule))]
fn selector_is_good(book: &[u8], line: u32) -> bool
    ensures { result ≡ run (selector_rule (guide_of book.now) line) }
{
    let element = layout::selector_element(book, line);
    let component = layout::selector_component(book, line);
    let codes = layout::code_count(book, line);
    ((1..=255).contains(&element) && (1..=255).contains(&component) && 1 <= codes)
        || (element == 0 && component == 0 && codes == 0)
}

#[tactic(auto, unfolding(crate::specs::meaning::GoodBook::required_rule, crate::specs::meaning::GoodBook::code_range_rule))]
fn codes_are_good(book: &[u8], line: u32) -> bool
    ensures { result ≡ run (required_rule (guide_of book.now) line and selector_rule (guide_of book.now) line and code_range_rule (guide_of book.now) line) }
{
    let first = layout::first_code(book, line);
    let count = layout::code_count(book, line);
    layout::required(book, line) <= 1
        && selector_is_good(book, line)
        && is_range(first, count, layout::codes(book))
}

// A selector goes with codes.
#[tactic(auto, unfolding(crate::specs::meaning::GoodBook::group_rule))]
fn group_is_plain(book: &[u8], line: u32) -> bool
    ensures { result ≡ run (group_rule (guide_of book.now) line) }
{
    !layout::is_group(book, line)
        || (layout::code_count(book, line) == 0 && layout::field_count(book, line) == 0)
}

#[tactic(auto, unfolding(crate::specs::meaning::GoodBook::maximum_rule, crate::specs::meaning::GoodBook::field_range_rule))]
fn fields_are_good(book: &[u8], line: u32) -> bool
    ensures { result ≡ run (maximum_rule (guide_of book.now) line and field_range_rule (guide_of book.now) line and group_rule (guide_of book.now) line) }
{
    let first = layout::first_field(book, line);
    let count = layout::field_count(book, line);
    (1..=999_999).contains(&layout::maximum(book, line))
        && is_range(first, count, layout::fields(book))
        && group_is_plain(book, line)
}

#[tactic(auto, unfolding(crate::specs::method::Each::line_rule))]
pub fn line_is_good(book: &[u8], line: u32) -> bool
    ensures { result ≡ run (line_rule (guide_of book.now) line) }
{
    head_is_good(book, line) && codes_are_good(book, line) && fields_are_good(book, line)
}

pub fn lines_are_good(book: &[u8]) -> bool
    ensures { result ≡ run (lines_rule (guide_of book.now)) }
{
    (1..layout::lines(book) + 1).all(|line| line_is_good(book, line))
}
