// For measuring: makes one line call a number of times and writes the 160 object bytes and 160 colour bytes of the last line.
#![tactic(auto)]

ghost use Rattle.std.specs.Prelude.{◌≡◌};
ghost use Rattle.tia.specs.State.{start_state};
ghost use Rattle.tia.specs.Line.{buffers};
ghost use Rattle.repeat_line.specs.Repeated.{repeated};

use std::io::{self, Print};
use tia::State;

// Four bytes of count, and a write list of up to one record more than a line takes.
const ROOM: usize = 691;

// Makes the line call so many times from the start state, each from the state that the one before left; a refused one leaves all as
// it was.
#[tactic(auto, using(crate::proofs::RepeatedLaws::repeated_all))]
fn repeat(count: u32, writes: &[u8], buffer: &mut [u8], colours: &mut [u8])
    ensures { buffers buffer.new colours.new ≡ repeated count start_state writes.now (buffers buffer.old colours.old) }
{
    let mut state = State::start();
    for turn in 0..count {
        let _ = tia::line(&mut state, writes, buffer, colours);
    }
}

// Makes the calls and writes the bytes and colours of the last line.
fn show(rt: &impl Print, count: u32, writes: &[u8]) -> io::Result<()> {
    let mut bytes = [0u8; 160];
    let mut colours = [0u8; 160];
    repeat(count, writes, &mut bytes, &mut colours);
    rt.write_all(&bytes)?;
    rt.write_all(&colours)
}

// Reads the count, the highest byte first, and the write list; with fewer than four bytes no call is made.
fn main(rt: HostRuntime) -> io::Result<()> {
    let mut room = [0u8; ROOM];
    let length = streams::read_full(&mut rt.reader(), &mut room);
    let Some((count, writes)) = room[..length].split_first_chunk() else {
        return streams::unless_closed(show(&rt, 0, &[]));
    };
    streams::unless_closed(show(&rt, u32::from_be_bytes(*count), writes))
}
