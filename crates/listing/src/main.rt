// Reads a tape from standard input and prints its listing.
#![tactic(auto)]

ghost use Rattle.std.specs.Prelude.{◌≡◌};
ghost use Rattle.listing_text.specs.Listing.{printed_bytes};

use listing_text::Printed;
use std::io::{self, Print};

// One byte more than the longest tape.
const ROOM: usize = tape::LONGEST_TAPE + 1;

// Writes bytes, which are those that a step printed.
fn emit(rt: &impl Print, bytes: &[u8], printed: &Printed) -> io::Result<()>
    requires { bytes.now ≡ printed_bytes printed.now }
{
    rt.write_all(bytes)
}

// Writes what a step printed.
fn show(rt: &impl Print, printed: &Printed) -> io::Result<()> {
    emit(rt, printed.text.as_bytes(), printed)
}

// Prints the listing of a tape: the first step, then each from where the one before left off. (The range is longer than any tape has
// lines; its number is that of the turn's line, so that a turn after which the loop goes on is one step.)
fn list(rt: &impl Print, tape: &[u8]) -> io::Result<()> {
    let mut printed = listing_text::opening(tape);
    show(rt, &printed)?;
    for line in 0..u32::MAX {
        let Some(place) = printed.next else {
            break;
        };
        printed = listing_text::list_line(printed.state, tape, place, line);
        show(rt, &printed)?;
    }
    Ok(())
}

// Reads the tape and lists it. What lies beyond the room is not read: the tape is too long then. (Each program's limit is its own;
// `read_full` says why it answers a count.)
fn main(rt: HostRuntime) -> io::Result<()> {
    let mut room = [0u8; ROOM];
    let count = streams::read_full(&mut rt.reader(), &mut room);
    streams::unless_closed(list(&rt, &room[..count]))
}
