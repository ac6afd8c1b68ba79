// The rules of one field by itself.
ghost use Rattle.std.specs.Prelude.{◌≡◌};
ghost use Rattle.book.specs.method.Run.{run};
ghost use Rattle.guide.specs.meaning.Guide.{guide_of};
ghost use Rattle.book.specs.method.Each.{fields_rule};
ghost use Rattle.book.specs.meaning.GoodBook.{field_rule};

use crate::ranges::is_range;
use guide::layout;
use guide::words::{Form, Presence};

#[tactic(auto, unfolding(crate::specs::meaning::GoodBook::field_rule))]
pub fn field_is_good(book: &[u8], field: u32) -> bool
    ensures { result ≡ run (field_rule (guide_of book.now) field) }
{
    let first = layout::first_value(book, field);
    let count = layout::value_count(book, field);
    (1..=255).contains(&layout::element(book, field))
        && (1..=255).contains(&layout::component(book, field))
        && Presence::try_from(layout::presence(book, field)).is_ok()
        && Form::try_from(layout::form(book, field)).is_ok()
        && 1 <= layout::longest(book, field)
        && layout::field_end(book, field) == 0
        && is_range(first, count, layout::codes(book))
}

pub fn fields_are_good(book: &[u8]) -> bool
    ensures { result ≡ run (fields_rule (guide_of book.now)) }
{
    (0..layout::fields(book)).all(|field| field_is_good(book, field))
}
