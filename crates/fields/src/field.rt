// One field and the component that it names, as it is written.
ghost use Rattle.std.specs.Prelude.{◌≡◌, leb, length};
ghost use Rattle.guide.specs.meaning.Guide.{guide_of};
ghost use Rattle.reading.specs.meaning.Component.{value_of};
ghost use Rattle.fields.specs.meaning.Number.{figures};
ghost use Rattle.fields.specs.method.Testing.{has_code, fits_text, fits_number, fits, is_missing, is_broken};

use crate::{number, parts};
use guide::words::{Form, Presence};
use guide::{code, layout};
use reading::service::Service;

#[tactic(auto, unfolding(crate::specs::method::Testing::has_code))]
fn has_code(book: &[u8], field: u32, part: &[u8]) -> bool
    ensures { result ≡ has_code (guide_of book.now) field part.now }
{
    let count = layout::value_count(book, field) as u16;
    let first = layout::first_value(book, field) as u16;
    count == 0 || code::is_any_code(book, first, count, part)
}

// Does a text's length keep the field's? It is not above the number of bytes, so a short text need not be counted.
#[tactic(auto, using(crate::proofs::Fitting::short_text))]
fn is_short_text(service: Service, book: &[u8], field: u32, part: &[u8]) -> bool
    ensures { result ≡ leb (length (value_of service part.now)) ((guide_of book.now).longest field) }
{
    let longest = layout::longest(book, field) as usize;
    part.len() <= longest || parts::value_length(service, part) <= longest
}

// The same of a number, whose figures count.
// Stays: one function over both would take the count as a closure, and say of it what this line says.
#[tactic(auto, using(crate::proofs::Fitting::short_number))]
fn is_short_number(service: Service, book: &[u8], field: u32, part: &[u8]) -> bool
    ensures { result ≡ leb (figures service part.now) ((guide_of book.now).longest field) }
{
    let longest = layout::longest(book, field) as usize;
    part.len() <= longest || number::count_figures(service, part) <= longest
}

#[tactic(auto, unfolding(crate::specs::method::Testing::fits_text))]
fn fits_text(service: Service, book: &[u8], field: u32, part: &[u8]) -> bool
    ensures { result ≡ fits_text service (guide_of book.now) field part.now }
{
    is_short_text(service, book, field, part) && has_code(book, field, part)
}

#[tactic(auto, unfolding(crate::specs::method::Testing::fits_number))]
fn fits_number(service: Service, book: &[u8], field: u32, part: &[u8]) -> bool
    ensures { result ≡ fits_number service (guide_of book.now) field part.now }
{
    number::is_number(service, part)
        && is_short_number(service, book, field, part)
        && has_code(book, field, part)
}

#[tactic(auto, unfolding(crate::specs::method::Testing::fits))]
fn fits(service: Service, book: &[u8], field: u32, part: &[u8]) -> bool
    ensures { result ≡ fits service (guide_of book.now) field part.now }
{
    if Form::try_from(layout::form(book, field)) == Ok(Form::Number) {
        fits_number(service, book, field, part)
    } else {
        fits_text(service, book, field, part)
    }
}

// Is an empty component one that must have bytes? `some`: its element has.
#[tactic(auto, unfolding(crate::specs::method::Testing::is_missing))]
pub fn is_missing(book: &[u8], some: bool, field: u32) -> bool
    ensures { result ≡ is_missing (guide_of book.now) some field }
{
    match Presence::try_from(layout::presence(book, field)) {
        Ok(Presence::Must) => true,
        Ok(Presence::WithElement) => some,
        _ => false,
    }
}

#[tactic(auto, using(crate::proofs::Fitting::bytes), unfolding(crate::specs::method::Testing::is_broken))]
pub fn is_broken(service: Service, book: &[u8], some: bool, field: u32, part: &[u8]) -> bool
    ensures { result ≡ is_broken service (guide_of book.now) some field part.now }
{
    if part.is_empty() {
        return is_missing(book, some, field);
    }
    Presence::try_from(layout::presence(book, field)) == Ok(Presence::Empty)
        || !fits(service, book, field, part)
}
