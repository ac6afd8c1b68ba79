// A segment of a message, as its home is looked for.
ghost use Rattle.std.specs.Prelude.{◌≡◌, ◌+◌, ◌≤◌, ◌<◌, ◌^◌, length};
ghost use Rattle.reading.specs.method.Tag.{tag_at};

use reading::service::Service;
use reading::tag;

// The segment that starts at an offset of a message, with three bytes at least. Its tag is read once.
#[derive(Clone, Copy)]
pub struct Segment<'a> {
    pub service: Service,
    pub message: &'a [u8],
    pub at: usize,
    pub tag: u32,
    ghost within: { at + 3 ≤ length message.now },
    ghost its_tag: { tag ≡ tag_at message.now at },
    ghost three_bytes: { tag < 2 ^ 24 },
}

impl<'a> Segment<'a> {
    pub fn at(service: Service, message: &'a [u8], at: usize) -> Segment<'a>
        requires { at + 3 ≤ length message.now }
        ensures service { result.service ≡ service }
        ensures message { result.message.now ≡ message.now }
        ensures at { result.at ≡ at }
    {
        Segment {
            service,
            message,
            at,
            tag: tag::tag_at(message, at),
        }
    }
}
