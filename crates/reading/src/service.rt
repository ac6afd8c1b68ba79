// The service characters, as a value: every reader below takes them, so that a file may name its own.
ghost use Rattle.std.specs.Prelude.{◌≡◌};
ghost use Rattle.reading.specs.meaning.Service.{standard};

// The five, in the order in which an interchange names them.
// Stays: passed beside the message, and not with it in one struct with a lifetime: each clause would have to say `text.entry.service text.entry.bytes.now`, and many functions take the five alone.
#[derive(Clone, Copy, PartialEq, Eq, Debug)]
pub struct Service {
    pub component: u8,
    pub element: u8,
    pub decimal: u8,
    pub release: u8,
    pub terminator: u8,
}

impl Service {
    // What holds where a file names no others.
    pub fn standard() -> Service
        ensures { result ≡ standard }
    {
        Service {
            component: b':',
            element: b'+',
            decimal: b'.',
            release: b'?',
            terminator: b'\'',
        }
    }
}
