// The answer to a line call.
use crate::buffers::Buffers;
use crate::case::Case;
use crate::digest::Digest;
use crate::input::{Input, LONGEST};
use crate::numbers::Numbers;
use refusal::Refusal;
use std::fmt;
use std::io::Read;
use tia::State;

// A line call: its write list, and the buffers before it.
#[derive(Drop)]
pub(crate) struct LineCall<'a> {
    pub(crate) list: &'a [u8],
    pub(crate) buffers: Buffers,
}

impl<'a> LineCall<'a> {
    // The call of four bytes: the lengths of the two buffers and the length of the list, which follows in the input and goes into a room
    // that is lent.
    pub(crate) fn read(
        lengths: [u8; 4],
        first: u8,
        input: &mut Input<impl Read>,
        room: &'a mut [u8; LONGEST],
    ) -> LineCall<'a> {
        let [length, colours_length, high, low] = lengths;
        LineCall {
            list: input.list(u16::from_be_bytes([high, low]), room),
            buffers: Buffers::rising(first, length, colours_length),
        }
    }

    // Makes the call.
    pub(crate) fn make(&mut self, state: &mut State) -> Numbers<2> {
        let answer = tia::line(
            state,
            self.list,
            &mut self.buffers.bytes,
            &mut self.buffers.colours,
        );
        answer.into()
    }
}

// The objects whose first lit columns are asked for: the chip's six, and two that there are not.
const OBJECTS: [u8; 8] = [0, 1, 2, 3, 4, 5, 6, 255];

// The first lit column of an object: the column, `-` where there is none, or the refusal.
#[derive(Clone, Copy)]
struct Column(Result<Option<u8>, Refusal>);

impl fmt::Display for Column {
    fn fmt<W: fmt::Write>(&self, f: &mut fmt::Formatter<W>) -> fmt::Result {
        match self.0 {
            Ok(Some(column)) => write!(f, "{column}"),
            Ok(None) => f.write_str("-"),
            Err(refusal) => write!(f, "refused({},0)", u8::from(refusal)),
        }
    }
}

// The call's numbers, the digest of the state after it, and its buffers after it.
#[derive(Drop)]
pub(crate) struct LineAnswer {
    line: Numbers<2>,
    state: Digest,
    buffers: Buffers,
}

// The answer to a line call.
pub(crate) fn answer(case: &Case, input: &mut Input<impl Read>) -> LineAnswer {
    let mut state = case.state;
    let mut room = [0; LONGEST];
    let mut call = LineCall::read(case.more, case.first(), input, &mut room);
    let line = call.make(&mut state);
    LineAnswer {
        line,
        state: Digest::default().with_state(state),
        buffers: call.buffers,
    }
}

impl fmt::Display for LineAnswer {
    fn fmt<W: fmt::Write>(&self, f: &mut fmt::Formatter<W>) -> fmt::Result {
        write!(f, "{} {} {}", self.line, self.state, self.buffers)?;
        for object in OBJECTS {
            let column = tia::first_lit_column(&self.buffers.bytes, object);
            write!(f, " {}", Column(column))?;
        }
        Ok(())
    }
}
