// The stretch of a tape that holds a line's writes.
ghost use Rattle.std.specs.Prelude.{◌≡◌};
ghost use Rattle.tape.specs.Reading.{stretch_at, start_at, PartFrom};

use crate::reading::{Place, read_at};

// The part of the tape itself that holds the writes of the line at a place; empty where reading there says ended or refuses.
#[tactic(auto, using(crate::proofs::ReadingLaws::same_place), unfolding(crate::specs::Reading::stretch_at, crate::specs::Reading::start_at))]
pub fn stretch_at(tape: &[u8], place: usize) -> &[u8]
    ensures { (result.now ≡ stretch_at tape.now place) × PartFrom (start_at tape.now place) tape.entry result }
{
    let Place::Line { start, end } = read_at(tape, place) else {
        return &tape[..0];
    };
    &tape[start..end]
}
