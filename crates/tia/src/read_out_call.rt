// The public call for the collision read-out.
ghost use Rattle.std.specs.Prelude.{◌≡◌};
ghost use Rattle.tia.specs.Answers.{read_out_numbers, read_out_answer};

use crate::state::State;
use refusal::Refusal;

// The collision read-out: eight bytes. Refuses a bad state (1).
#[tactic(auto, unfolding(crate::specs::Answers::read_out_answer))]
pub fn read_out(state: State) -> Result<[u8; 8], Refusal>
    ensures { read_out_numbers result ≡ read_out_answer state }
{
    if state.is_bad() {
        return Err(Refusal::BadState);
    }
    Ok(state.latches.bytes())
}
