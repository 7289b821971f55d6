// The listing of a tape, a printed line at a step.
ghost use Rattle.tia.specs.State.{start_state};
ghost use Rattle.listing_text.specs.Listing.{Prints, opening_text, opening_next, StepPrints};

use crate::line_text::{HEADING, TOO_LONG, latches_text, refused_text, row_text};
use crate::put::Text;
use tia::State;

// A step of the listing: the place of the tape's line that comes next, if one does, the state before it, and the printed line.
#[derive(Clone, Copy)]
pub struct Printed {
    pub next: Option<usize>,
    pub state: State,
    pub text: Text,
}

// The first step: the heading; or, for a tape over 65,536 bytes, that it is too long.
pub fn opening(tape: &[u8]) -> Printed
    ensures { Prints (opening_text tape.now) (opening_next tape.now) start_state result }
{
    let state = State::start();
    if tape.len() > tape::LONGEST_TAPE {
        return Printed {
            next: None,
            state,
            text: Text::of(TOO_LONG),
        };
    }
    Printed {
        next: Some(tape::FIRST_PLACE),
        state,
        text: Text::of(HEADING),
    }
}

// A later step: plays the tape's line at a place and prints its row, with the line's number. At the tape's end it prints the
// latch bytes, and where the line is refused the refusal, and is done.
pub fn list_line(mut state: State, tape: &[u8], place: usize, line: u32) -> Printed
    ensures { StepPrints state tape.now place line result }
{
    let mut bytes = [0u8; 160];
    let mut colours = [0u8; 160];
    let played = replay::play_line(&mut state, tape, place, &mut bytes, &mut colours);
    let (next, text) = match played {
        Ok(Some(next)) => (Some(next), row_text(line, &bytes)),
        Ok(None) => (None, latches_text(state)),
        Err(fault) => (None, refused_text(fault, line)),
    };
    Printed { next, state, text }
}
