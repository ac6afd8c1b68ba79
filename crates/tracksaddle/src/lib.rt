// The C door: what c/tracksaddle.h declares, and nothing else. Numbers and slices pass; the work is done below. Crate tracksaddle_c exports it.
#![tactic(auto)]

ghost use Rattle.std.specs.Prelude.{◌≡◌};
ghost use Rattle.slices.specs.meaning.Lent.{as_many_as_fit};
ghost use Rattle.tracksaddle.specs.meaning.Door.{part_numbers};
ghost use Rattle.reading.specs.method.Machine.{component_span};
ghost use Rattle.reading.specs.meaning.Service.{standard};
ghost use Rattle.book.specs.meaning.GoodBook.{Judged};
ghost use Rattle.framing.specs.meaning.Record.{numbers_of};
ghost use Rattle.judging.specs.method.Table.{judged, tables_after};
ghost use Rattle.judging.specs.meaning.Tables.{tables, room_of};
ghost use Rattle.pieces.specs.method.Calls.{answer_to_piece, numbers_after_piece, starts_after_piece, record_after_piece, answer_to_end, numbers_after_end, record_after_end};
ghost use Rattle.tally.specs.meaning.Tally.{answer_to_add, tally_after_add, answer_to_clear, tally_after_clear};

use book::BadBook;
use reading::lookup;
use reading::service::Service;

// The verdict on the message under the book, with what is known of the conditions: its number is returned, its six numbers
// go into the lent record.
pub fn tracksaddle_judge(
    message: &[u8],
    book: &[u8],
    conditions: &[u8],
    starts: &mut [u32],
    homes: &mut [u32],
    parents: &mut [u32],
    numbers: &mut [u32],
) -> u32
    ensures { (result ≡ (judged standard message.now book.now conditions.now (room_of (tables starts.old homes.old parents.old))).number)
        × (numbers.new ≡ as_many_as_fit (numbers_of (judged standard message.now book.now conditions.now (room_of (tables starts.old homes.old parents.old)))) numbers.old)
        × (tables starts.new homes.new parents.new
        ≡ tables_after standard message.now book.now conditions.now (tables starts.old homes.old parents.old)) }
{
    let service = Service::standard();
    let verdict = judging::judge(service, message, book, conditions, starts, homes, parents);
    framing::put_verdict(numbers, verdict);
    verdict.number
}

// Where the component lies in the message: its offset and its length.
pub fn tracksaddle_find_component(
    message: &[u8],
    at: usize,
    element: usize,
    component: usize,
    part: &mut [usize],
)
    ensures { part.new ≡ as_many_as_fit (part_numbers (component_span standard message.now at element component)) part.old }
{
    let span = lookup::component_span(Service::standard(), message, at, element, component);
    slices::put(part, 0, span.start);
    slices::put(part, 1, span.end - span.start);
}

// One more piece of a message. `reading` is the state that the caller keeps between calls; once the message has ended, its answer again.
pub fn tracksaddle_read_piece(
    reading: &mut [usize],
    piece: &[u8],
    starts: &mut [u32],
    numbers: &mut [u32],
) -> u32
    ensures { (result ≡ answer_to_piece reading.old)
        × (reading.new ≡ numbers_after_piece standard reading.old piece.now starts.old)
        × (starts.new ≡ starts_after_piece standard reading.old piece.now starts.old)
        × (numbers.new ≡ record_after_piece reading.old numbers.old) }
{
    pieces::piece_number(pieces::read_piece(Service::standard(), reading, piece, starts, numbers))
}

// The message that was read in pieces ends: its number is returned, its six numbers go into the lent record, and any further call gets the same.
pub fn tracksaddle_read_end(reading: &mut [usize], numbers: &mut [u32]) -> u32
    ensures { (result ≡ answer_to_end reading.old)
        × (reading.new ≡ numbers_after_end reading.old)
        × (numbers.new ≡ record_after_end reading.old numbers.old) }
{
    pieces::end_number(pieces::read_end(reading, numbers))
}

// The table's number for the book alone: 1 malformed, 0 otherwise.
pub fn tracksaddle_check_book(book: &[u8]) -> u32
    ensures { Judged book.now result }
{
    match book::check_book(book) {
        Ok(()) => 0,
        Err(BadBook) => 1,
    }
}

// Adds one to the count of a verdict's number: answers 0, or the first refusal, 1 to 3.
pub fn tracksaddle_tally_add(tally: &mut [u8], number: u32) -> u32
    ensures { (result ≡ answer_to_add tally.old number) × (tally.new ≡ tally_after_add tally.old number) }
{
    tally::answer_of(tally::add(tally, number))
}

// Makes every count 0: answers 0, or refusal 1.
pub fn tracksaddle_tally_clear(tally: &mut [u8]) -> u32
    ensures { (result ≡ answer_to_clear tally.old) × (tally.new ≡ tally_after_clear tally.old) }
{
    tally::answer_of(tally::clear(tally))
}
