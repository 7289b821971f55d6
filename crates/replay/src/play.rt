// Playing one line of a tape.
ghost use Rattle.tia.specs.Line.{buffers};
ghost use Rattle.replay.specs.Play.{PlayPromise};
ghost use Rattle.replay.specs.Verdict.{played_answer};

use refusal::Fault;
use tape::Place;
use tia::State;

// Plays the line at a place of a tape: the next state, the line's 160 answer bytes in the buffer, their colours in the second, and
// the next place; none at the tape's end. Refuses as reading the tape does (8, 9, 4, 9), then as the line call does (1, 2, 3, 11, 5
// to 7). At the tape's end and where it is refused, state and buffers stay as they are. (Two buffers, as the line call takes them.)
#[tactic(auto, using(std::proofs::lemmas::Bool::Decides::nat_tests, tape::proofs::ReadingLaws::same_place, refusal::proofs::NumberLaws::number_not_zero), unfolding(crate::specs::Play::play_answer, crate::specs::Play::play_buffers))]
pub fn play_line(
    state: &mut State,
    tape: &[u8],
    place: usize,
    buffer: &mut [u8],
    colours: &mut [u8],
) -> Result<Option<usize>, Fault>
    ensures { PlayPromise state.old tape.now place (buffers buffer.old colours.old) (played_answer result state.new) (buffers buffer.new colours.new) }
{
    match tape::read_at(tape, place) {
        Place::Line { end, .. } => {
            tia::line(state, tape::stretch_at(tape, place), buffer, colours)?;
            Ok(Some(end))
        }
        Place::Ended => Ok(None),
        Place::Refused(refusal) => Err(Fault::from(refusal)),
    }
}
