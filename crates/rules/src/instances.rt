// The instances of a line's parent: the segments that open one, and those that show the line in it.
ghost use Rattle.std.specs.Prelude.{◌≡◌, ◌<◌, unwrap_or, IfSome};
ghost use Rattle.guide.specs.meaning.Plan.{plan_in, opening};
ghost use Rattle.guide.specs.meaning.Tree.{owner};
ghost use Rattle.rules.specs.meaning.Instances.{shown_by};

use guide::layout;

// The group that a line belongs to, none for one of the message itself: the last line before it that lies higher.
#[tactic(auto, using(crate::proofs::Owners::owners))]
fn owner_of(book: &[u8], line: u32) -> Option<u32>
    ensures owner { unwrap_or result 0 ≡ owner (plan_in book.now) line }
    ensures before { IfSome result (λ o. (0 < o) × (o < line)) }
{
    let depth = layout::depth(book, line);
    for before in (1..line).rev() {
        if layout::depth(book, before) < depth {
            return Some(before);
        }
    }
    None
}

// The home of the segments that open an instance of the line's parent; 0, which no segment has, for the message.
pub fn trigger_of(book: &[u8], line: u32) -> u32
    requires { line < 65536 }
    ensures { result ≡ opening (owner (plan_in book.now) line) }
{
    owner_of(book, line).map_or(0, |owner| owner + 1)
}

// The home of the segments that show the line: for a group, its trigger's.
pub fn sign_of(book: &[u8], line: u32) -> u32
    requires { line < 65536 }
    ensures { result ≡ shown_by (plan_in book.now) line }
{
    if layout::is_group(book, line) {
        line + 1
    } else {
        line
    }
}
