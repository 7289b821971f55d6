// The public call for one colour clock.
ghost use Rattle.std.specs.Prelude.{◌≡◌};
ghost use Rattle.tia.specs.Answers.{clock_numbers, clock_answer};

use crate::clock::steps;
use crate::state::State;
use crate::write::Write;
use refusal::Refusal;

// What a clock puts out: its answer byte and its colour.
#[derive(Clone, Copy, Debug, PartialEq, Eq)]
pub struct Output {
    pub byte: u8,
    pub colour: u8,
}

// One colour clock: the next state, the answer byte and the colour. Refuses a bad state (1), then an unknown register (7), and
// leaves the state then.
#[tactic(auto, using(std::proofs::lemmas::Bool::Decides::nat_tests, crate::proofs::StateLaws::good_timing), unfolding(crate::specs::Answers::clock_answer))]
pub fn colour_clock(state: &mut State, write: Write) -> Result<Output, Refusal>
    ensures { clock_numbers result state.new ≡ clock_answer state.old write }
{
    if state.is_bad() {
        return Err(Refusal::BadState);
    }
    if write.unknown() {
        return Err(Refusal::UnknownRegister);
    }
    let clocked = steps(*state, write);
    *state = clocked.state;
    Ok(Output {
        byte: clocked.byte,
        colour: clocked.colour,
    })
}
