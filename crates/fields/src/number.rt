// The form n of a component as it is written. 01: "`n` is an optional `-`, one or more digits, and optionally `.` and one or more
// digits."
ghost use Rattle.std.specs.Prelude.{◌≡◌, ◌≤◌, not, ◌||◌, eqb, length};
ghost use Rattle.std.specs.List.{prefix_len};
ghost use Rattle.reading.specs.meaning.Digit.{is_digit};
ghost use Rattle.fields.specs.meaning.Number.{minus, figures};
ghost use Rattle.fields.specs.method.Number.{starts_digit, after_digits, are_digits, ends_number, without_sign, is_number};

use reading::bytes;
use reading::service::Service;

const MINUS: u8 = b'-';

#[tactic(auto, using(crate::proofs::Counting::starting))]
fn starts_digit(part: &[u8]) -> bool
    ensures { result ≡ starts_digit part.now }
{
    match part {
        [first, ..] => bytes::is_digit(*first),
        [] => false,
    }
}

// How many digits stand at the front.
fn count_digits(part: &[u8]) -> usize
    ensures value { result ≡ prefix_len is_digit part.now }
    ensures within { result ≤ length part.now }
{
    part.iter()
        .take_while(|byte| bytes::is_digit(**byte))
        .count()
}

// What stands behind them.
#[tactic(auto, using(crate::proofs::Counting::digits_passed))]
fn after_digits(part: &[u8]) -> &[u8]
    ensures { result.now ≡ after_digits part.now }
{
    &part[count_digits(part)..]
}

#[tactic(auto, using(crate::proofs::Counting::none_left), unfolding(crate::specs::method::Number::are_digits))]
fn are_digits(part: &[u8]) -> bool
    ensures { result ≡ are_digits part.now }
{
    starts_digit(part) && after_digits(part).is_empty()
}

// Behind the first digits: nothing, or the mark and one or more digits.
#[tactic(auto, using(crate::proofs::Counting::ending))]
fn ends_number(service: Service, part: &[u8]) -> bool
    ensures { result ≡ ends_number service part.now }
{
    match part {
        [] => true,
        [mark, digits @ ..] => *mark == service.decimal && are_digits(digits),
    }
}

#[tactic(auto, using(crate::proofs::Counting::sign))]
fn without_sign(part: &[u8]) -> &[u8]
    ensures { result.now ≡ without_sign part.now }
{
    match part {
        [MINUS, unsigned @ ..] => unsigned,
        _ => part,
    }
}

#[tactic(auto, unfolding(crate::specs::method::Number::is_number))]
pub fn is_number(service: Service, part: &[u8]) -> bool
    ensures { result ≡ is_number service part.now }
{
    let unsigned = without_sign(part);
    starts_digit(unsigned) && ends_number(service, after_digits(unsigned))
}

// Does the byte count in a number's length? 01: "for `n` the minus and the mark do not count"
fn is_figure(service: Service, byte: u8) -> bool
    ensures { result ≡ not (eqb byte minus || eqb byte service.decimal) }
{
    byte != MINUS && byte != service.decimal
}

pub fn count_figures(service: Service, part: &[u8]) -> usize
    ensures { result ≡ figures service part.now }
{
    part.iter()
        .filter(|byte| is_figure(service, **byte))
        .count()
}
