// The answer to a single clock.
use crate::case::Case;
use crate::digest::Digest;
use crate::numbers::{Numbers, ReadOut};
use std::fmt;
use tia::Write;

// What a case has after its state: whether there is a write, its address and its value.
fn write_of(case: &Case) -> Write {
    let [written, address, value, _] = case.more;
    if written == 0 {
        Write::Nothing
    } else {
        Write::Register { address, value }
    }
}

// The clock's numbers, the digest of the state after it, and that state's read-out.
#[derive(Clone, Copy)]
pub(crate) struct ClockAnswer {
    clock: Numbers<4>,
    state: Digest,
    read_out: ReadOut,
}

// The answer to a single clock.
pub(crate) fn answer(case: &Case) -> ClockAnswer {
    let mut state = case.state;
    let clock = tia::colour_clock(&mut state, write_of(case)).into();
    ClockAnswer {
        clock,
        state: Digest::default().with_state(state),
        read_out: tia::read_out(state).into(),
    }
}

impl fmt::Display for ClockAnswer {
    fn fmt<W: fmt::Write>(&self, f: &mut fmt::Formatter<W>) -> fmt::Result {
        write!(f, "{} {} {}", self.clock, self.state, self.read_out)
    }
}
