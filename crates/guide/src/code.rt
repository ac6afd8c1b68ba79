// A component's value among codes of the book: a line's selector asks it, and a field.
ghost use Rattle.std.specs.Prelude.{◌≡◌};
ghost use Rattle.guide.specs.meaning.Guide.{guide_of};
ghost use Rattle.guide.specs.method.Codes.{is_code, is_any_code};

use crate::layout;

// Is this part of a message, as it is written, the code's value? No byte of a good code is ever released.
fn is_code(book: &[u8], code: u32, part: &[u8]) -> bool
    ensures { result ≡ is_code (guide_of book.now) code part.now }
{
    let length = layout::code_length(book, code);
    part.len() == length as usize
        && (0..length).all(|at| u32::from(part[at as usize]) == layout::code_byte(book, code, at))
}

// First and count have two bytes, as a book says them.
pub fn is_any_code(book: &[u8], first: u16, count: u16, part: &[u8]) -> bool
    ensures { result ≡ is_any_code (guide_of book.now) first count part.now }
{
    let first = u32::from(first);
    (first..first + u32::from(count)).any(|code| is_code(book, code, part))
}
