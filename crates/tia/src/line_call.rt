// The line call: 228 clocks with a list of writes, and the answer bytes and colours of its 160 columns.
ghost use Rattle.std.specs.Prelude.{◌≡◌, ◌≤◌, length};
ghost use Rattle.tia.specs.WriteList.{fault_numbers, records_of};
ghost use Rattle.tia.specs.Line.{line_of, buffers, pictures, rooms};
ghost use Rattle.tia.specs.Cursor.{due_at, left_by, stored};
ghost use Rattle.tia.specs.Answers.{line_fault, line_numbers, LinePromise};

use crate::clock::steps;
use crate::state::State;
use crate::timing::{BLANK, CLOCKS};
use crate::write::Write;
use crate::write_list::check_list;
use refusal::{Fault, Refusal};

// The answer bytes of a line, one a column; its colours are as many.
pub(crate) const LINE_BYTES: usize = 160;

// Refuses a bad state (1), h not 0 (2), a buffer (3) or a colour buffer (11) that is not 160 bytes long, then the list (4 to 7).
#[tactic(auto, using(std::proofs::lemmas::Bool::Decides::nat_tests), unfolding(crate::specs::Answers::line_fault))]
fn check_line(state: State, writes: &[u8], room: usize, colours: usize) -> Result<(), Fault>
    ensures { fault_numbers result ≡ line_fault state writes.now (rooms room colours) }
{
    if state.is_bad() {
        return Err(Fault::from(Refusal::BadState));
    }
    let h = state.timing.h;
    if h != 0 {
        return Err(Fault::from(Refusal::LineClock));
    }
    if room != LINE_BYTES {
        return Err(Fault::from(Refusal::BufferLength));
    }
    if colours != LINE_BYTES {
        return Err(Fault::from(Refusal::ColourLength));
    }
    check_list(writes)
}

// The write due on a clock, that of the first record left if it has this clock; and the records left after it.
#[tactic(auto, using(std::proofs::lemmas::Bool::Decides::nat_tests, crate::proofs::CursorLaws::records_at), unfolding(crate::specs::Cursor::due_at))]
fn due(rest: &[u8], h: u8) -> (Write, &[u8])
    ensures { (result.0 ≡ due_at (records_of rest.now) h) × (result.1.now ≡ left_by result.0 rest.now) }
{
    match rest {
        [clock, address, value, later @ ..] if *clock == h => {
            let write = Write::Register {
                address: *address,
                value: *value,
            };
            (write, later)
        }
        _ => (Write::Nothing, rest),
    }
}

// Stores a clock's byte in its column; in the horizontal blank nothing.
#[tactic(auto, using(std::proofs::lemmas::Bool::Decides::nat_tests), unfolding(crate::specs::Cursor::stored))]
fn store(buffer: &mut [u8], h: u8, byte: u8)
    requires { (h ≤ 227) × (length buffer.old ≡ 160) }
    ensures { buffer.new ≡ stored h byte buffer.old }
{
    if h >= BLANK {
        buffer[usize::from(h - BLANK)] = byte;
    }
}

// The 228 clocks of a line that has no fault. (It takes what the public call takes, as it takes it.)
fn scanline(mut state: State, writes: &[u8], buffer: &mut [u8], colours: &mut [u8]) -> State
    requires { (line_fault state writes.now (rooms (length buffer.old) (length colours.old))).number ≡ 0 }
    ensures { (result ≡ (line_of state writes.now).state) × (buffers buffer.new colours.new ≡ pictures (line_of state writes.now)) }
{
    let mut rest = writes;
    for h in 0..CLOCKS {
        let (write, later) = due(rest, h);
        let clocked = steps(state, write);
        store(buffer, h, clocked.byte);
        store(colours, h, clocked.colour);
        rest = later;
        state = clocked.state;
    }
    state
}

// One line: fills the buffer with the answer bytes of its 160 columns and the second one with their colours. Refuses a bad
// state (1), h not 0 (2), a buffer not 160 bytes long (3), a colour buffer not 160 bytes long (11), then the list: its length
// (4), and record by record a clock over 227 (5), one not above the one before (6), an unknown register (7); and leaves the state
// and both buffers then. (Two buffers and no struct of them: a caller lends any two slices, and one may be refused without the other.)
#[tactic(auto, using(std::proofs::lemmas::Bool::Decides::nat_tests, refusal::proofs::NumberLaws::number_not_zero), unfolding(crate::specs::Answers::line_answer, crate::specs::Answers::line_buffers))]
pub fn line(
    state: &mut State,
    writes: &[u8],
    buffer: &mut [u8],
    colours: &mut [u8],
) -> Result<(), Fault>
    ensures { LinePromise state.old writes.now (buffers buffer.old colours.old) (line_numbers result state.new) (buffers buffer.new colours.new) }
{
    check_line(*state, writes, buffer.len(), colours.len())?;
    *state = scanline(*state, writes, buffer, colours);
    Ok(())
}
