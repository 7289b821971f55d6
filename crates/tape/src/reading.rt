// Reading a tape at a place. A tape is the version byte 1, then for each line a two-byte big-endian length and that many
// bytes of writes.
ghost use Rattle.std.specs.Prelude.{◌≡◌};
ghost use Rattle.tape.specs.Reading.{bad_version, version1, line_at, place_answer, read_answer};

use refusal::{Refusal, is_bad_length};

// The version byte.
const VERSION_BYTE: u8 = 1;

// Where the first line begins.
pub const FIRST_PLACE: usize = 1;

// The longest tape that a program takes.
pub const LONGEST_TAPE: usize = 65536;

// How many bytes a line's length has.
const LENGTH_BYTES: usize = 2;

// What stands at a place: a line, whose writes are the bytes from start up to end, which is the next place; the tape's end;
// or a refusal. An enum of its own, taken apart by `let .. else`: a rule of the project (docs/DECISIONS.md, 75 and 80).
#[derive(Clone, Copy, Debug, PartialEq, Eq)]
pub enum Place {
    Line { start: usize, end: usize },
    Ended,
    Refused(Refusal),
}

// Whether a tape is empty, or its version is not 1.
#[tactic(auto, using(crate::proofs::ReadingLaws::version_missing, crate::proofs::ReadingLaws::version_byte))]
fn is_bad_version(tape: &[u8]) -> bool
    ensures { result ≡ bad_version tape.now }
{
    let [version, ..] = tape else {
        return true;
    };
    *version != VERSION_BYTE
}

// The line at a place. Refuses a place with fewer than two bytes left (9), a length that no write list has (4), then a line that
// is cut (9).
#[tactic(auto, using(std::proofs::lemmas::Bool::Decides::nat_tests), unfolding(crate::specs::Reading::line_at))]
fn line_at(tape: &[u8], place: usize) -> Place
    ensures { result ≡ line_at version1 tape.now place }
{
    let Some([high, low, writes @ ..]) = tape.get(place..) else {
        return Place::Refused(Refusal::TapeEnd);
    };
    let bytes = usize::from(u16::from_be_bytes([*high, *low]));
    if is_bad_length(bytes) {
        return Place::Refused(Refusal::ListLength);
    }
    if writes.len() < bytes {
        return Place::Refused(Refusal::TapeEnd);
    }
    let start = place + LENGTH_BYTES;
    Place::Line {
        start,
        end: start + bytes,
    }
}

// What stands at a place, any place up to the tape's end being taken as a line's beginning. Refuses a tape that is empty or of
// another version (8), a place that is 0 or past the end and a lone length byte (9), a line's length (4), then a cut line (9).
#[tactic(auto, using(std::proofs::lemmas::Bool::Decides::nat_tests), unfolding(crate::specs::Reading::read_at, crate::specs::Reading::place_at))]
pub fn read_at(tape: &[u8], place: usize) -> Place
    ensures { place_answer result ≡ read_answer tape.now place }
{
    if is_bad_version(tape) {
        return Place::Refused(Refusal::Version);
    }
    let end = tape.len();
    if !(FIRST_PLACE..=end).contains(&place) {
        return Place::Refused(Refusal::TapeEnd);
    }
    if place == end {
        return Place::Ended;
    }
    line_at(tape, place)
}
