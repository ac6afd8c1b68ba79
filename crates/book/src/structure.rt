// The rules of one line among the others, but for its home.
ghost use Rattle.std.specs.Prelude.{◌&&◌, ◌≡◌, ◌+◌, ◌<◌, ◌^◌};
ghost use Rattle.book.specs.meaning.Rule.{◌≐◌};
ghost use Rattle.book.specs.method.Run.{run};
ghost use Rattle.guide.specs.meaning.Guide.{guide_of};
ghost use Rattle.book.specs.meaning.GoodBook.{segment, field_place, field_rises, trigger_rule, fall_rule, frame_rule, frames_rule, only_frames_rule, carrier_rule, deeper_rule};

use guide::layout;
use guide::words::LineKind;
use reading::tag::{UNH, UNT};

pub fn is_segment(book: &[u8], line: u32) -> bool
    ensures { result ≡ run (segment (guide_of book.now) line) }
{
    LineKind::try_from(layout::kind(book, line)) == Ok(LineKind::Segment)
}

// Exactly once, wherever its group is.
pub fn comes_once(book: &[u8], line: u32) -> bool
    ensures { result ≡ (run ((guide_of book.now).required line ≐ 1) && run ((guide_of book.now).maximum line ≐ 1)) }
{
    layout::required(book, line) == 1 && layout::maximum(book, line) == 1
}

fn field_place(book: &[u8], field: u32) -> u32
    ensures { (result ≡ field_place (guide_of book.now) field) × (result < 2 ^ 16) }
{
    256 * layout::element(book, field) + layout::component(book, field)
}

#[tactic(auto, unfolding(crate::specs::meaning::GoodBook::field_rises))]
pub fn field_rises(book: &[u8], field: u32) -> bool
    requires { field < 2 ^ 17 }
    ensures { result ≡ run (field_rises (guide_of book.now) field) }
{
    field_place(book, field) < field_place(book, field + 1)
}

#[tactic(auto, unfolding(crate::specs::meaning::GoodBook::trigger_rule))]
pub fn has_trigger(book: &[u8], line: u32) -> bool
    requires { line < 2 ^ 17 }
    ensures { result ≡ run (trigger_rule (guide_of book.now) line) }
{
    let next = line + 1;
    !layout::is_group(book, line)
        || (next <= layout::lines(book)
            && is_segment(book, next)
            && layout::depth(book, next) == layout::depth(book, line) + 1
            && comes_once(book, next))
}

#[tactic(auto, unfolding(crate::specs::meaning::GoodBook::fall_rule))]
pub fn stays_or_falls(book: &[u8], line: u32) -> bool
    requires { line < 2 ^ 17 }
    ensures { result ≡ run (fall_rule (guide_of book.now) line) }
{
    let next = line + 1;
    !is_segment(book, line)
        || next > layout::lines(book)
        || layout::depth(book, next) <= layout::depth(book, line)
}

#[tactic(auto, unfolding(crate::specs::meaning::GoodBook::frame_rule))]
fn is_frame(book: &[u8], line: u32, tag: u32) -> bool
    ensures { result ≡ run (frame_rule (guide_of book.now) line tag) }
{
    is_segment(book, line)
        && layout::tag(book, line) == tag
        && layout::depth(book, line) == 0
        && comes_once(book, line)
        && layout::selector_element(book, line) == 0
}

#[tactic(auto, unfolding(crate::specs::meaning::GoodBook::frames_rule))]
pub fn has_frames(book: &[u8]) -> bool
    ensures { result ≡ run (frames_rule (guide_of book.now)) }
{
    is_frame(book, 1, UNH) && is_frame(book, layout::lines(book), UNT)
}

#[tactic(auto, unfolding(crate::specs::meaning::GoodBook::only_frames_rule))]
pub fn is_no_other_frame(book: &[u8], line: u32) -> bool
    ensures { result ≡ run (only_frames_rule (guide_of book.now) line) }
{
    let tag = layout::tag(book, line);
    (tag != UNH || line == 1) && (tag != UNT || line == layout::lines(book))
}

#[tactic(auto, unfolding(crate::specs::meaning::GoodBook::carrier_rule))]
pub fn has_carrier(book: &[u8]) -> bool
    ensures { result ≡ run (carrier_rule (guide_of book.now)) }
{
    let line = layout::carrier(book);
    (1..=layout::lines(book)).contains(&line) && is_segment(book, line) && comes_once(book, line)
}

#[tactic(auto, unfolding(crate::specs::meaning::GoodBook::deeper_rule))]
pub fn is_deeper(book: &[u8], line: u32, other: u32) -> bool
    ensures { result ≡ run (deeper_rule (guide_of book.now) line other) }
{
    layout::depth(book, line) < layout::depth(book, other)
}
