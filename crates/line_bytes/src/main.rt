// Reads a tape from standard input and writes for each of its lines 160 object bytes, then 160 colour bytes, as the line call
// fills them.
#![tactic(auto)]

ghost use Rattle.std.specs.Prelude.{◌≡◌, ◌≤◌, length};
ghost use Rattle.tape.specs.Reading.{longest};
ghost use Rattle.tia.specs.Line.{buffers};
ghost use Rattle.replay.specs.Replay.{line_from};

use std::io::{self, Print};
use tia::State;

// Room for the longest tape and one byte more.
const ROOM: usize = tape::LONGEST_TAPE + 1;

// Writes object bytes and colours, which are those of the tape's line at a place, played from a state; the last three are what its callers
// promise by. (`card_bytes` writes two parts as well; what each of the two requires of them is its own.)
fn emit(
    rt: &impl Print,
    bytes: &[u8],
    colours: &[u8],
    state: State,
    tape: &[u8],
    place: usize,
) -> io::Result<()>
    requires { buffers bytes.now colours.now ≡ (line_from state tape.now place).filled }
{
    rt.write_all(bytes)?;
    rt.write_all(colours)
}

// Plays the lines of a tape from the start state and writes both of each, up to the tape's end or a line that is refused. (A loop of
// its own, as in `clock_bytes`: a function that is handed what to do with a line would require it of every line that may come. The
// range is longer than any tape has lines; its number counts the lines written, so that a turn after which the loop goes on is one line.)
fn show_lines(rt: &impl Print, tape: &[u8]) -> io::Result<()>
    requires { length tape.now ≤ longest }
{
    let mut bytes = [0u8; 160];
    let mut colours = [0u8; 160];
    let mut state = State::start();
    let mut place = tape::FIRST_PLACE;
    for line in 0..u32::MAX {
        let before = state;
        let Ok(Some(next)) = replay::play_line(&mut state, tape, place, &mut bytes, &mut colours)
        else {
            break;
        };
        emit(rt, &bytes, &colours, before, tape, place)?;
        place = next;
    }
    Ok(())
}

// Reads the tape and shows its lines; nothing is written for one that is too long. (Each program's limit is its own;
// `read_full` says why it answers a count.)
fn main(rt: HostRuntime) -> io::Result<()> {
    let mut room = [0u8; ROOM];
    let count = streams::read_full(&mut rt.reader(), &mut room);
    if count <= tape::LONGEST_TAPE {
        return streams::unless_closed(show_lines(&rt, &room[..count]));
    }
    Ok(())
}
