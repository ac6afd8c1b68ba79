// The examples printed in documents 000 and 003, run through the reading: one a line on standard input, each written out as
// its tag and, for every component, its element, its number and its value. What comes out is compared with ../stdout.
#![tactic(auto)]

ghost use Rattle.std.specs.Prelude.{◌-◌, length};
ghost use Rattle.std.specs.Iterator.{at_most};

use reading::cursor::Cursor;
use reading::service::Service;
use reading::span::Span;
use reading::{lookup, machine};
use std::io;
use std::io::Read;

// The segments of a text, one behind the other, as far as it is made of segments.
#[derive(Drop)]
struct Segments<'a> {
    text: &'a [u8],
    cursor: Cursor,
}

impl<'a> Segments<'a> {
    fn of(text: &'a [u8]) -> Segments<'a> {
        Segments {
            text,
            cursor: Cursor::first(),
        }
    }
}

impl<'a> Iterator for Segments<'a> {
    type Item = Span;

    ghost remaining = { λ s. at_most (length s.text.now - s.cursor.at) };

    fn next(&mut self) -> Option<Span> {
        let (span, next) = self.cursor.next_segment(Service::standard(), self.text)?;
        self.cursor = next;
        Some(span)
    }
}

// A component's value: its bytes with each releasing one left out.
fn write_value(rt: &impl Print, raw: &[u8]) -> io::Result<()> {
    let mut released = false;
    for byte in raw {
        if *byte == b'?' && !released {
            released = true;
        } else {
            released = false;
            rt.write_all(&[*byte])?;
        }
    }
    Ok(())
}

// The components of the segment that starts at `at`, one behind the other. The byte behind one, at `mark`, says whether another follows
// in the element, or an element, or nothing.
#[derive(Drop)]
struct Components<'a> {
    text: &'a [u8],
    at: usize,
    mark: usize,
    element: usize,
    component: usize,
}

impl<'a> Components<'a> {
    fn of(text: &'a [u8], at: usize, mark: usize) -> Components<'a> {
        Components {
            text,
            at,
            mark,
            element: 0,
            component: 0,
        }
    }
}

impl<'a> Iterator for Components<'a> {
    type Item = (usize, usize, &'a [u8]);

    ghost remaining = { λ s. at_most (length s.text.now - s.mark) };

    fn next(&mut self) -> Option<(usize, usize, &'a [u8])> {
        let (element, component) = match self.text.get(self.mark) {
            Some(b'+') => (self.element.saturating_add(1), 1),
            Some(b':') => (self.element, self.component.saturating_add(1)),
            _ => return None,
        };
        let span = lookup::component_span(
            Service::standard(),
            self.text,
            self.at,
            element,
            component,
        );
        let value = self.text.get(span.start..span.end)?;
        if span.end <= self.mark {
            return None;
        }
        self.mark = span.end;
        self.element = element;
        self.component = component;
        Some((element, component, value))
    }
}

// A line for each, as `  2.1 ORDRSP`.
fn write_components(
    rt: &impl Print,
    text: &[u8],
    at: usize,
    from: usize,
    indent: &str,
) -> io::Result<()> {
    for (element, component, value) in Components::of(text, at, from) {
        print!(rt; "{indent}{element}.{component} ")?;
        write_value(rt, value)?;
        println!(rt;)?;
    }
    Ok(())
}

// The tag, and then a line for each component.
fn write_segment(rt: &impl Print, text: &[u8], at: usize, indent: &str) -> io::Result<()> {
    if text.len() < 3 || text.len() - 3 < at {
        return Ok(());
    }
    let from = at + 3;
    rt.write_all(&text[at..from])?;
    println!(rt;)?;
    write_components(rt, text, at, from, indent)
}

fn write_example(rt: &impl Print, number: usize, text: &[u8]) -> io::Result<()> {
    print!(rt; "{number} ")?;
    let mut segments = Segments::of(text);
    let count = segments.by_ref().count();
    let end = segments.cursor.at;
    if end < text.len() {
        let place = machine::find_bad(Service::standard(), text, end);
        println!(rt; "not a segment: place {place}")
    } else if count == 1 {
        write_segment(rt, text, 0, "  ")
    } else {
        println!(rt; "{count} segments")?;
        for span in Segments::of(text) {
            print!(rt; "  ")?;
            write_segment(rt, text, span.start, "    ")?;
        }
        Ok(())
    }
}

// A line ends at its LF, or at the end of the text.
fn write_examples(rt: &impl Print, text: &[u8]) -> io::Result<()> {
    for (number, line) in (1..).zip(text.split_inclusive(|byte| *byte == b'\n')) {
        write_example(rt, number, line.strip_suffix(b"\n").unwrap_or(line))?;
    }
    Ok(())
}

// So much of the input is read; of a longer one, the rest is left.
const MOST: usize = 65_536;

fn main(rt: HostRuntime) -> io::Result<()> {
    let mut text = [0u8; MOST];
    let length = io::copy(&mut rt.stdin().take(MOST as u64), &mut text.as_mut_slice())?;
    write_examples(&rt, &text[..MOST.min(length as usize)])
}
