// The answer to a run: 24 line calls in a chain, two without writes before and after the 20 of the case.
use crate::case::Case;
use crate::digest::Digest;
use crate::input::{Input, LONGEST};
use crate::line::LineCall;
use std::io::Read;

// How many calls a run has.
const CALLS: u8 = 24;

// The call without writes: buffers as long as a line, and a list of no bytes.
const QUIET: [u8; 4] = [160, 160, 0, 0];

// The digest of a run's calls. What each call has follows the record.
pub(crate) fn answer(case: &Case, input: &mut Input<impl Read>) -> Digest {
    let mut state = case.state;
    let mut digest = Digest::default();
    let mut room = [0; LONGEST];
    for index in 0..CALLS {
        let first = case.first().wrapping_add(index);
        let lengths = if (2..22).contains(&index) {
            input.padded()
        } else {
            QUIET
        };
        let mut call = LineCall::read(lengths, first, input, &mut room);
        let line = call.make(&mut state);
        digest = call
            .buffers
            .added_to(digest.with(&line.0).with_state(state));
    }
    digest
}
