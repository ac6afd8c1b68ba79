// The rules of one Prüfidentifikator.
ghost use Rattle.std.specs.Prelude.{◌≡◌, ◌<◌, ◌^◌};
ghost use Rattle.book.specs.meaning.Rule.{◌and◌};
ghost use Rattle.book.specs.method.Run.{run};
ghost use Rattle.guide.specs.meaning.Guide.{guide_of};
ghost use Rattle.book.specs.meaning.GoodBook.{digit, identifier_form_rule, identifier_number, identifier_rises};
ghost use Rattle.book.specs.method.Each.{identifiers_rule, identifier_rule};

use guide::layout;

#[tactic(auto, unfolding(crate::specs::meaning::GoodBook::identifier_form_rule))]
fn form_is_good(book: &[u8], identifier: u32) -> bool
    ensures { result ≡ run (identifier_form_rule (guide_of book.now) identifier) }
{
    (0..5).all(|place| (layout::identifier_byte(book, identifier, place) as u8).is_ascii_digit())
        && (5..8).all(|place| layout::identifier_byte(book, identifier, place) == 0)
}

// The five digits as one number of 40 bits.
fn number_of(book: &[u8], identifier: u32) -> usize
    ensures value { result ≡ identifier_number (guide_of book.now) identifier }
    ensures small { result < 2 ^ 40 }
{
    let mut number = 0;
    for place in 0..5 {
        number = number * 256 + layout::identifier_byte(book, identifier, place) as usize;
    }
    number
}

#[tactic(auto, unfolding(crate::specs::meaning::GoodBook::identifier_rises))]
fn rises(book: &[u8], identifier: u32) -> bool
    requires { identifier < 2 ^ 17 }
    ensures { result ≡ run (identifier_rises (guide_of book.now) identifier) }
{
    let next = identifier + 1;
    next >= layout::identifiers(book) || number_of(book, identifier) < number_of(book, next)
}

#[tactic(auto, unfolding(crate::specs::method::Each::identifier_rule))]
pub fn identifier_is_good(book: &[u8], identifier: u32) -> bool
    requires { identifier < 2 ^ 17 }
    ensures { result ≡ run (identifier_rule (guide_of book.now) identifier) }
{
    form_is_good(book, identifier) && rises(book, identifier)
}

pub fn identifiers_are_good(book: &[u8]) -> bool
    ensures { result ≡ run (identifiers_rule (guide_of book.now)) }
{
    (0..layout::identifiers(book)).all(|identifier| identifier_is_good(book, identifier))
}
