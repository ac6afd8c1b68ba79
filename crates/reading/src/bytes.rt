// What a byte is in a message.
ghost use Rattle.std.specs.Prelude.{◌≡◌, ◌<◌, get_or};
ghost use Rattle.reading.specs.meaning.Digit.{is_digit};
ghost use Rattle.reading.specs.meaning.Service.{is_data, is_tag_byte, must_release};
ghost use Rattle.reading.specs.method.Machine.{kind_of, is_text};

use crate::service::Service;

// What a byte is, under given service characters.
#[derive(Clone, Copy, PartialEq, Eq, Debug)]
pub enum Kind {
    Component,
    Element,
    Terminator,
    Release,
    Plain,
    Other,
}

#[tactic(auto, unfolding(crate::specs::meaning::Service::is_data))]
pub fn is_data(byte: u8) -> bool
    ensures { result ≡ is_data byte }
{
    matches!(byte, 0x20..=0x7e | 0xa0..=0xff)
}

#[tactic(auto, unfolding(crate::specs::meaning::Service::is_tag_byte))]
pub fn is_tag_byte(byte: u8) -> bool
    ensures { result ≡ is_tag_byte byte }
{
    matches!(byte, b'0'..=b'9' | b'A'..=b'Z')
}

#[tactic(auto, unfolding(crate::specs::meaning::Digit::is_digit))]
pub fn is_digit(byte: u8) -> bool
    ensures { result ≡ is_digit byte }
{
    matches!(byte, b'0'..=b'9')
}

#[tactic(auto, unfolding(crate::specs::method::Machine::kind_of))]
pub fn kind_of(service: Service, byte: u8) -> Kind
    ensures { result ≡ kind_of service byte }
{
    if byte == service.release {
        Kind::Release
    } else if byte == service.component {
        Kind::Component
    } else if byte == service.element {
        Kind::Element
    } else if byte == service.terminator {
        Kind::Terminator
    } else if is_data(byte) {
        Kind::Plain
    } else {
        Kind::Other
    }
}

// Is it ASCII that ends neither an element nor a segment and releases nothing? Most bytes of a message are, component marks among them.
// Bytes above 0x7E may be data too and are asked for their kind: one test less for all others.
#[tactic(auto, unfolding(crate::specs::method::Machine::is_text))]
pub fn is_text(service: Service, byte: u8) -> bool
    ensures { result ≡ is_text service byte }
{
    matches!(byte, 0x20..=0x7e)
        && byte != service.terminator
        && byte != service.element
        && byte != service.release
}

// Does the byte stand for itself only behind a release? Few bytes of a message do.
#[tactic(auto, unfolding(crate::specs::meaning::Service::must_release))]
pub fn must_release(service: Service, byte: u8) -> bool
    ensures { result ≡ must_release service byte }
{
    // Stays: by itself, so that what stands behind a release is mostly told by one comparison; four joined by `||` are all made.
    if byte == service.release {
        return true;
    }
    byte == service.component || byte == service.element || byte == service.terminator
}
