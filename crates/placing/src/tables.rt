// What the tables say that a pass has written: which segment stands on a line, and where a segment starts.
ghost use Rattle.std.specs.Prelude.{◌≡◌, ◌-◌, ◌==◌, get_or, take, position};
ghost use Rattle.placing.specs.method.Tables.{place_from, or_none};

// The entry of the first of so many segments whose home is this line.
fn entry_with(homes: &[u32], segments: usize, line: u32) -> Option<usize>
    ensures { result ≡ position (λ home. home == line) (take segments homes.now) }
{
    homes.iter().take(segments).position(|home| *home == line)
}

// The same, by its place: places count from 1, entries from 0.
#[tactic(auto, using(crate::proofs::Entries::first_place))]
pub fn place_of(homes: &[u32], segments: u32, line: u32) -> Option<u32>
    ensures { result ≡ or_none (place_from line 0 (take segments homes.now)) }
{
    let entry = entry_with(homes, segments as usize, line)?;
    Some(entry as u32 + 1)
}

// Where the segment at a place starts, of so many. Place 0 is read as the first; behind the last it is 0.
// Stays: judging looks for the Prüfidentifikator there in any case, so an Option would only be unwrapped.
pub fn start_of(starts: &[u32], segments: u32, place: u32) -> u32
    ensures { result ≡ get_or (take segments starts.now) (place - 1) 0 }
{
    let entry = place.saturating_sub(1) as usize;
    starts
        .iter()
        .take(segments as usize)
        .nth(entry)
        .copied()
        .unwrap_or(0)
}
