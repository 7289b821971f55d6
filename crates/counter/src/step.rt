// The step rule of the six-bit counter.
ghost use Rattle.std.specs.Prelude.{◌≡◌, ◌≤◌};
ghost use Rattle.counter.specs.Step.{plain_step, wrap_step};

// 111111, the largest value, which no count has.
pub(crate) const ONES: u8 = 0b111111;

// The step without a wrap.
#[tactic(auto, using(crate::proofs::StepLaws::leftmost_one, crate::proofs::StepLaws::leftmost_zero))]
fn plain_step(value: u8) -> u8
    requires { value ≤ 63 }
    ensures { result ≡ plain_step value }
{
    if value % 2 == value / 2 % 2 {
        0b100000 + value / 2
    } else {
        value / 2
    }
}

// The step with the wrap: 000000 from the wrap value and from 111111.
#[tactic(auto, using(crate::proofs::StepLaws::from_wrap, crate::proofs::StepLaws::from_ones, crate::proofs::StepLaws::from_other))]
pub(crate) fn wrap_step(wrap: u8, value: u8) -> u8
    requires { value ≤ 63 }
    ensures { result ≡ wrap_step wrap value }
{
    if value == wrap {
        return 0b000000;
    }
    if value == ONES {
        0b000000
    } else {
        plain_step(value)
    }
}
