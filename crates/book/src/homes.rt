// One home: two segment lines of the same tag are told apart by their codes. A line's codes are marked by number, and those of each
// line of its tag before it must not be marked. The lines before are told apart by then, so together they have no more codes than
// the book: each line is paid with the code count, however many lines share its tag.
ghost use Rattle.std.specs.Prelude.{◌≡◌, ◌≤◌, MatchOption, true};
ghost use Rattle.book.specs.method.Run.{run};
ghost use Rattle.guide.specs.meaning.Guide.{guide_of};
ghost use Rattle.book.specs.meaning.GoodBook.{same_tag_rule, same_place_rule, pair_rule};
ghost use Rattle.book.specs.method.Each.{CodesWithin, Within, PassedTo, no_code_rule, home_rule, homes_rule};
ghost use Rattle.book.specs.method.Tables.{Marked};

use crate::numbering::{Codes, MOST_CODES, numbers_of};
use crate::structure;
use guide::layout;

// For each number whether it is marked.
type Marks = [bool; MOST_CODES];

#[tactic(auto, unfolding(crate::specs::meaning::GoodBook::same_tag_rule))]
fn have_same_tag(book: &[u8], line: u32, other: u32) -> bool
    ensures { result ≡ run (same_tag_rule (guide_of book.now) line other) }
{
    structure::is_segment(book, line)
        && structure::is_segment(book, other)
        && layout::tag(book, line) == layout::tag(book, other)
}

#[tactic(auto, unfolding(crate::specs::meaning::GoodBook::same_place_rule))]
fn have_same_place(book: &[u8], line: u32, other: u32) -> bool
    ensures { result ≡ run (same_place_rule (guide_of book.now) line other) }
{
    let element = layout::selector_element(book, line);
    1 <= element
        && element == layout::selector_element(book, other)
        && layout::selector_component(book, line) == layout::selector_component(book, other)
}

// Which numbers the line's codes have.
fn marks_of(codes: &Codes, line: u32) -> Marks
    requires { CodesWithin (guide_of codes.now.book.now) line }
    ensures { Marked (guide_of codes.now.book.now) codes.now.numbers.now result line }
{
    let first = layout::first_code(codes.book, line);
    let count = layout::code_count(codes.book, line);
    let mut marks = [false; MOST_CODES];
    for code in first..first + count {
        marks[codes.number_of(code)] = true;
    }
    marks
}

// A line with its codes marked.
#[derive(Drop)]
struct MarkedLine<'a> {
    codes: &'a Codes<'a>,
    line: u32,
    marks: Marks,
    ghost marked: { Marked (guide_of codes.now.book.now) codes.now.numbers.now marks line },
}

impl<'a> MarkedLine<'a> {
    fn of(codes: &'a Codes<'a>, line: u32) -> MarkedLine<'a>
        requires { CodesWithin (guide_of codes.now.book.now) line }
        ensures book { result.codes.now ≡ codes.now }
        ensures line { result.line ≡ line }
    {
        MarkedLine {
            codes,
            line,
            marks: marks_of(codes, line),
        }
    }

    // None of the other line's codes is marked.
    fn has_no_code_of(&self, other: u32) -> bool
        requires { CodesWithin (guide_of self.now.codes.now.book.now) other }
        ensures { result ≡ run (no_code_rule (guide_of self.now.codes.now.book.now) other self.now.line) }
    {
        let first = layout::first_code(self.codes.book, other);
        let count = layout::code_count(self.codes.book, other);
        (first..first + count).all(|code| !self.marks[self.codes.number_of(code)])
    }

    // The codes are looked at only where the tags are the same.
    #[tactic(auto, unfolding(crate::specs::meaning::GoodBook::pair_rule, crate::specs::meaning::GoodBook::told_apart_rule))]
    fn suits(&self, earlier: u32) -> bool
        requires { CodesWithin (guide_of self.now.codes.now.book.now) earlier }
        ensures { result ≡ run (pair_rule (guide_of self.now.codes.now.book.now) earlier self.now.line) }
    {
        !have_same_tag(self.codes.book, earlier, self.line)
            || (have_same_place(self.codes.book, earlier, self.line)
                && self.has_no_code_of(earlier))
    }
}

// The first line before this one that has its tag. Few lines share a tag, and no others need marks.
fn first_of_its_tag(book: &[u8], line: u32) -> Option<u32>
    requires { 1 ≤ line }
    ensures { MatchOption result (true ≡ run (home_rule (guide_of book.now) line)) (PassedTo (guide_of book.now) line) }
{
    // What is asked of the line itself is asked once, and not in each turn.
    if !structure::is_segment(book, line) {
        return None;
    }
    let tag = layout::tag(book, line);
    (1..line).find(|earlier| {
        structure::is_segment(book, *earlier) && layout::tag(book, *earlier) == tag
    })
}

fn has_one_home(codes: &Codes, line: u32) -> bool
    requires within { Within (guide_of codes.now.book.now) }
    requires some { 1 ≤ line }
    requires last { line ≤ (guide_of codes.now.book.now).lines }
    ensures { result ≡ run (home_rule (guide_of codes.now.book.now) line) }
{
    let Some(first) = first_of_its_tag(codes.book, line) else {
        return true;
    };
    let marked = MarkedLine::of(codes, line);
    (first..line).all(|earlier| marked.suits(earlier))
}

pub fn homes_are_good(book: &[u8]) -> bool
    requires { Within (guide_of book.now) }
    ensures { result ≡ run (homes_rule (guide_of book.now)) }
{
    let numbers = numbers_of(book);
    let codes = Codes {
        book,
        numbers: &numbers,
    };
    (1..layout::lines(book) + 1).all(|line| has_one_home(&codes, line))
}
