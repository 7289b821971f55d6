// The answer to a walk: 1,000 clocks from a state, with up to 64 timed writes.
use crate::case::Case;
use crate::digest::Digest;
use crate::input::Input;
use crate::numbers::{Numbers, ReadOut};
use std::io::Read;
use std::iter::{once, repeat, repeat_n};
use tia::{State, Write};

// How many clocks a walk has.
const CLOCKS: usize = 1000;

// How many timed writes follow a walk's record.
const WRITES: usize = 64;

// A walk so far: the state, and the digest of the clocks.
#[derive(Clone, Copy)]
struct Walk {
    state: State,
    digest: Digest,
}

impl Walk {
    // Takes one more clock: its numbers, the state after it, and that state's read-out go into the digest.
    fn clock(&mut self, write: Write) {
        let clock = Numbers::<4>::from(tia::colour_clock(&mut self.state, write));
        let read_out = ReadOut::from(tia::read_out(self.state));
        let clocked = self.digest.with(&clock.0).with_state(self.state);
        self.digest = clocked.with(&read_out.verdict.0).with(&read_out.bytes);
    }
}

// The digest of a walk's clocks. Its writes follow the record, three bytes each: how many clocks come before, address, value.
pub(crate) fn answer(case: &Case, input: &mut Input<impl Read>) -> Digest {
    let mut timed = [[0; 3]; WRITES];
    input.fill(timed.as_flattened_mut());
    let writes = timed.iter().flat_map(|&[wait, address, value]| {
        let write = Write::Register { address, value };
        repeat_n(Write::Nothing, wait.into()).chain(once(write))
    });
    let mut walk = Walk {
        state: case.state,
        digest: Digest::default(),
    };
    for write in writes.chain(repeat(Write::Nothing)).take(CLOCKS) {
        walk.clock(write);
    }
    walk.digest
}
