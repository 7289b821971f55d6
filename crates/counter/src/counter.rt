// A counter of either kind, and its step.
ghost use Rattle.std.specs.Prelude.{◌≡◌};
ghost use Rattle.counter.specs.Answers.{step_answer, stepped_answer};

use crate::kind::CounterKind;
use crate::step::{ONES, wrap_step};
use refusal::Refusal;
use std::marker::PhantomData;

// A counter of a kind.
#[derive(Clone, Copy)]
pub struct Counter<K> {
    pub value: u8,
    pub of: PhantomData<K>,
}

impl<K: CounterKind> Counter<K> {
    // The counter at a value.
    pub fn at(value: u8) -> Self
        ensures { result.value ≡ value }
    {
        Counter {
            value,
            of: PhantomData,
        }
    }

    // The counter one step on; refusal 10 for a value over 63.
    #[tactic(auto, using(crate::proofs::AnswerLaws::kind_stepped, crate::proofs::AnswerLaws::step_refused))]
    pub fn step(self) -> Result<Self, Refusal>
        ensures { stepped_answer result ≡ step_answer K.kind self.value }
    {
        if self.value > ONES {
            return Err(Refusal::NoSuch);
        }
        Ok(Self::at(wrap_step(K::WRAP, self.value)))
    }
}
