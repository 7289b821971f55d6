// The answer to a line of a tape.
use crate::buffers::Buffers;
use crate::case::Case;
use crate::digest::Digest;
use crate::input::{Input, LONGEST};
use refusal::Fault;
use std::fmt;
use std::io::Read;
use tape::Place;

// What reading the tape answers: the refusal's number, the line's start and end.
#[derive(Clone, Copy)]
struct Reading(Place);

impl fmt::Display for Reading {
    fn fmt<W: fmt::Write>(&self, f: &mut fmt::Formatter<W>) -> fmt::Result {
        match self.0 {
            Place::Line { start, end } => write!(f, "0 {start} {end}"),
            Place::Ended => f.write_str("0 0 0"),
            Place::Refused(refusal) => write!(f, "{} 0 0", u8::from(refusal)),
        }
    }
}

// What playing a line answers: the refusal's number and index, and the next place.
#[derive(Clone, Copy)]
struct Playing(Result<Option<usize>, Fault>);

impl fmt::Display for Playing {
    fn fmt<W: fmt::Write>(&self, f: &mut fmt::Formatter<W>) -> fmt::Result {
        match self.0 {
            Ok(Some(next)) => write!(f, "0 0 {next}"),
            Ok(None) => f.write_str("0 0 0"),
            Err(fault) => write!(f, "{} {} 0", u8::from(fault.refusal), fault.index),
        }
    }
}

// The place and the tape's length: of the place's eight bytes the record has two, and six follow it, then the length's two.
fn place_and_length(case: &Case, input: &mut Input<impl Read>) -> (usize, u16) {
    let [.., a, b] = case.more;
    let [c, d, e, f, g, h, high, low] = input.padded::<8>();
    (
        usize::from_be_bytes([a, b, c, d, e, f, g, h]),
        u16::from_be_bytes([high, low]),
    )
}

// What reading at the place answers, and the digest of the stretch there; what playing the line answers, the digest of the state
// after it, and the buffers after it.
#[derive(Drop)]
pub(crate) struct TapeAnswer {
    reading: Reading,
    stretch: Digest,
    playing: Playing,
    state: Digest,
    buffers: Buffers,
}

// The answer to a line of a tape. The place's end, the tape's length and the tape follow the record.
pub(crate) fn answer(case: &Case, input: &mut Input<impl Read>) -> TapeAnswer {
    let (place, length) = place_and_length(case, input);
    let mut room = [0; LONGEST];
    let tape = input.list(length, &mut room);
    let mut state = case.state;
    let [buffer_length, colours_length, ..] = case.more;
    let mut buffers = Buffers::rising(case.first(), buffer_length, colours_length);
    let played = replay::play_line(
        &mut state,
        tape,
        place,
        &mut buffers.bytes,
        &mut buffers.colours,
    );
    TapeAnswer {
        reading: Reading(tape::read_at(tape, place)),
        stretch: Digest::default().with(tape::stretch_at(tape, place)),
        playing: Playing(played),
        state: Digest::default().with_state(state),
        buffers,
    }
}

impl fmt::Display for TapeAnswer {
    fn fmt<W: fmt::Write>(&self, f: &mut fmt::Formatter<W>) -> fmt::Result {
        write!(
            f,
            "{} {} {} {} {}",
            self.reading, self.stretch, self.playing, self.state, self.buffers
        )
    }
}
