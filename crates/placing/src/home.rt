// A segment's home: the least line that it fits. Every line is tried; only this file knows that.
ghost use Rattle.std.specs.Prelude.{◌≡◌, suc, ◌-◌, ◌≤◌};
ghost use Rattle.guide.specs.meaning.Guide.{guide_of};
ghost use Rattle.placing.specs.method.Fitting.{is_selected_at, home_at};
ghost use Rattle.placing.specs.meaning.Fitting.{least};
ghost use Rattle.placing.specs.method.Kept.{Looked, selected_of, fits, home_tag, tabled_end, TagsOf, first_of_tag};
ghost use Rattle.placing.specs.method.Tables.{or_none};

use crate::segment::Segment;
use arrayvec::ArrayVec;
use guide::{code, layout};
use reading::lookup;
use reading::span::Span;

// A component that has been looked up, and where it lies.
#[derive(Clone, Copy)]
pub struct Selected {
    pub element: u32,
    pub component: u32,
    pub span: Span,
}

impl<'a> Segment<'a> {
    // The component that the line's selector names; none where it has no selector. Lines of one tag mostly name the same, so the one
    // before is kept.
    fn select(&self, book: &[u8], line: u32, before: Option<Selected>) -> Option<Selected>
        requires looked { Looked self.now before }
        ensures { result ≡ selected_of self.now (guide_of book.now) line }
    {
        let element = layout::selector_element(book, line);
        let component = layout::selector_component(book, line);
        if element == 0 {
            return None;
        }
        if let Some(selected) = before {
            if selected.element == element && selected.component == component {
                return before;
            }
        }
        let span = lookup::seek_from(
            self.service,
            self.message,
            self.at + 3,
            element as usize,
            component as usize,
        );
        Some(Selected {
            element,
            component,
            span,
        })
    }

    // Is the component's value, as it is written, among the line's codes? Every segment is selected where there is no selector.
    #[tactic(auto, using(crate::proofs::Finding::all_selected, crate::proofs::Finding::selected, crate::proofs::Finding::lies_inside))]
    fn is_selected(&self, book: &[u8], line: u32, selected: Option<Selected>) -> bool
        requires selected { selected ≡ selected_of self.now (guide_of book.now) line }
        ensures { result ≡ is_selected_at self.now.service (guide_of book.now) self.now.message.now self.now.at line }
    {
        let Some(selected) = selected else {
            return true;
        };
        let first = layout::first_code(book, line) as u16;
        let count = layout::code_count(book, line) as u16;
        let Span { start, end } = selected.span;
        code::is_any_code(book, first, count, &self.message[start..end])
    }
}

// Lines 0 to 256, which are all that a good book can have.
const TABLED: usize = 257;

// Greater than a segment's tag, which has three bytes.
// Stays: an Option would be compared with `Some(tag)`, where the line now compares two numbers.
const NO_TAG: u32 = 0x100_0000;

// The tag of the segments that a line can be home to: a group is home to none.
fn home_tag(book: &[u8], line: u32) -> u32
    ensures { result ≡ home_tag (guide_of book.now) line }
{
    if layout::is_group(book, line) {
        return NO_TAG;
    }
    layout::tag(book, line)
}

// The first line whose tag is not in the table: behind the last line, since there is room for all that a good book has.
fn tabled_end(book: &[u8]) -> u32
    ensures { result ≡ tabled_end (guide_of book.now) }
{
    let lines = layout::lines(book);
    if lines < TABLED as u32 {
        return lines + 1;
    }
    TABLED as u32
}

fn tags_of(book: &[u8]) -> ArrayVec<u32, TABLED>
    ensures { TagsOf (guide_of book.now) result.items }
{
    let mut tags = ArrayVec::new();
    for line in 0..tabled_end(book) {
        tags.push(home_tag(book, line));
    }
    tags
}

// The lines of a book, with their tags read once for a pass over a message: the lines' tags are asked for most often of all.
#[derive(Drop)]
pub struct Lines<'a> {
    pub book: &'a [u8],
    pub tags: ArrayVec<u32, TABLED>,
    ghost tabled: { TagsOf (guide_of book.now) tags.items },
}

impl<'a> Lines<'a> {
    pub fn of(book: &'a [u8]) -> Lines<'a>
        ensures { result.book.now ≡ book.now }
    {
        Lines {
            book,
            tags: tags_of(book),
        }
    }

    // The tag of any line.
    fn tag_of(&self, line: u32) -> u32
        ensures { result ≡ home_tag (guide_of self.now.book.now) line }
    {
        match self.tags.get(line as usize) {
            Some(tag) => *tag,
            None => home_tag(self.book, line),
        }
    }

    // The least line of this tag in the table. The lines of other tags are passed over here, and nothing but tags is compared.
    #[tactic(auto, using(crate::proofs::OrNone::is_none, crate::proofs::OrNone::is_some_number, crate::proofs::Finding::least_none, crate::proofs::Finding::least_here, crate::proofs::Finding::least_on))]
    fn first_of_tag(&self, tag: u32) -> Option<u32>
        ensures { result ≡ or_none (first_of_tag self.now.tags.items tag) }
    {
        for line in 1..self.tags.len() {
            if self.tags[line] == tag {
                return Some(line as u32);
            }
        }
        None
    }

    // The least line, from the first one on, that the segment fits.
    #[tactic(auto, using(crate::proofs::OrNone::is_none, crate::proofs::OrNone::is_some_number, crate::proofs::Finding::least_none, crate::proofs::Finding::least_here, crate::proofs::Finding::least_on, crate::proofs::Finding::fits_not, crate::proofs::Finding::fits_selected, crate::proofs::Finding::looked))]
    fn find_from(&self, segment: &Segment, first: u32) -> Option<u32>
        requires some_line { 1 ≤ first }
        ensures { result ≡ or_none (least (fits segment.now (guide_of self.now.book.now)) first (suc (guide_of self.now.book.now).lines - first)) }
    {
        let mut selected = None;
        for line in first..layout::lines(self.book) + 1 {
            if self.tag_of(line) == segment.tag {
                selected = segment.select(self.book, line, selected);
                if segment.is_selected(self.book, line, selected) {
                    return Some(line);
                }
            }
        }
        None
    }

    // The home of a segment. The first line of its tag is its home, where that has no selector. Else the lines from there on are
    // tried, or those that the table has no room for.
    #[tactic(auto, using(crate::proofs::OrNone::no_number, crate::proofs::OrNone::some_number, crate::proofs::Finding::home_past, crate::proofs::Finding::home_first))]
    pub fn find_home(&self, segment: &Segment) -> Option<u32>
        ensures { result ≡ or_none (home_at segment.now.service (guide_of self.now.book.now) segment.now.message.now segment.now.at) }
    {
        let Some(first) = self.first_of_tag(segment.tag) else {
            return self.find_from(segment, self.tags.len() as u32);
        };
        if layout::selector_element(self.book, first) == 0 {
            return Some(first);
        }
        self.find_from(segment, first)
    }
}
