// The rules of one code.
ghost use Rattle.std.specs.Prelude.{◌≡◌, ◌<◌};
ghost use Rattle.book.specs.meaning.Rule.{◌and◌};
ghost use Rattle.book.specs.method.Run.{run};
ghost use Rattle.guide.specs.meaning.Guide.{guide_of};
ghost use Rattle.book.specs.method.Each.{codes_rule};
ghost use Rattle.book.specs.meaning.GoodBook.{code_byte_rule, code_rule};

use guide::layout;

#[tactic(auto, unfolding(crate::specs::meaning::GoodBook::code_byte_rule))]
fn byte_is_good(book: &[u8], code: u32, byte: u32) -> bool
    requires { byte < 6 }
    ensures { result ≡ run (code_byte_rule (guide_of book.now) code byte) }
{
    let x = layout::code_byte(book, code, byte) as u8;
    if byte < layout::code_length(book, code) {
        x.is_ascii_alphanumeric() || x == b'.'
    } else {
        x == 0
    }
}

#[tactic(auto, unfolding(crate::specs::meaning::GoodBook::code_rule))]
pub fn code_is_good(book: &[u8], code: u32) -> bool
    ensures { result ≡ run (code_rule (guide_of book.now) code) }
{
    (1..=6).contains(&layout::code_length(book, code))
        && layout::code_end(book, code) == 0
        && (0..6).all(|byte| byte_is_good(book, code, byte))
}

pub fn codes_are_good(book: &[u8]) -> bool
    ensures { result ≡ run (codes_rule (guide_of book.now)) }
{
    (0..layout::codes(book)).all(|code| code_is_good(book, code))
}
