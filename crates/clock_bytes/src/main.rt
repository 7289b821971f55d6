// Reads from standard input a line's number in two bytes, the higher first, and a tape; writes for each of the 228 clocks of that
// line a record of 38 bytes about the state after it. Writes nothing for a line that is not run.
#![tactic(auto)]

mod lookup;
mod record;

ghost use Rattle.std.specs.Prelude.{◌≡◌, ◌+◌, ◌≤◌, length};
ghost use Rattle.tape.specs.Reading.{longest};
ghost use Rattle.clock_bytes.specs.ClockBytes.{line_records, tape_records, input_records, record_at};

use crate::lookup::write_at;
use crate::record::record_of;
use std::io::{self, Print};
use tia::{Output, State};

// The bytes of the line's number.
const NUMBER_BYTES: usize = 2;

// Room for a number, the longest tape and one byte more.
const ROOM: usize = NUMBER_BYTES + tape::LONGEST_TAPE + 1;

// The clocks of a line.
const CLOCKS: u8 = 228;

// What a refused clock is shown with.
const NOTHING: Output = Output { byte: 0, colour: 0 };

// Writes bytes, which are the record of a clock of the line that the input names.
fn emit(rt: &impl Print, bytes: &[u8], input: &[u8], h: u8) -> io::Result<()>
    requires { bytes.now ≡ record_at input.now h }
{
    rt.write_all(bytes)
}

// Runs the clocks of a line, whose records are those of the line that the input names, and writes them.
#[tactic(auto, using(crate::proofs::ShowLaws::before_first, crate::proofs::ShowLaws::clock_next, crate::proofs::ShowLaws::clock_record))]
fn show_line(rt: &impl Print, mut state: State, writes: &[u8], input: &[u8]) -> io::Result<()>
    requires { line_records state writes.now ≡ input_records input.now }
{
    for h in 0..CLOCKS {
        let before = state;
        let output = tia::colour_clock(&mut state, write_at(writes, h)).unwrap_or(NOTHING);
        emit(rt, &record_of(before, output, state), input, h)?;
    }
    Ok(())
}

// Plays the lines of the input's tape from the start state up to the one with its number, and shows its clocks.
fn show_clocks(rt: &impl Print, number: u16, tape: &[u8], input: &[u8]) -> io::Result<()>
    requires { (length tape.now ≤ longest) × (tape_records tape.now number ≡ input_records input.now) }
{
    let mut bytes = [0u8; 160];
    let mut colours = [0u8; 160];
    let mut state = State::start();
    let mut place = tape::FIRST_PLACE;
    for line in 0..number {
        let Ok(Some(next)) = replay::play_line(&mut state, tape, place, &mut bytes, &mut colours)
        else {
            return Ok(());
        };
        place = next;
    }
    let before = state;
    let Ok(Some(_)) = replay::play_line(&mut state, tape, place, &mut bytes, &mut colours) else {
        return Ok(());
    };
    show_line(rt, before, tape::stretch_at(tape, place), input)
}

// Shows the clocks of the line that an input names; nothing where its number is cut.
fn show_input(rt: &impl Print, input: &[u8]) -> io::Result<()>
    requires { length input.now ≤ 2 + longest }
{
    let [high, low, tape @ ..] = input else {
        return Ok(());
    };
    show_clocks(rt, u16::from_be_bytes([*high, *low]), tape, input)
}

// Reads the input and shows the clocks of its line; nothing is written where the tape is too long. (Each program's limit is its own;
// `read_full` says why it answers a count.)
fn main(rt: HostRuntime) -> io::Result<()> {
    let mut room = [0u8; ROOM];
    let count = streams::read_full(&mut rt.reader(), &mut room);
    if count < ROOM {
        return streams::unless_closed(show_input(&rt, &room[..count]));
    }
    Ok(())
}
