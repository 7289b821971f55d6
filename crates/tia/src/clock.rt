// One colour clock: its eleven steps.
ghost use Rattle.std.specs.Prelude.{◌≡◌, ◌≤◌};
ghost use Rattle.tia.specs.Clock.{objects_after, clock_of};

use crate::colours::Paint;
use crate::lit::Lit;
use crate::object::{M0, M1, P0, P1};
use crate::registers::Registers;
use crate::state::{Objects, State};
use crate::timing::Clock;
use crate::write::Write;

// The next state, the answer byte and the colour of a clock.
#[derive(Clone, Copy)]
pub(crate) struct Clocked {
    pub(crate) state: State,
    pub(crate) byte: u8,
    pub(crate) colour: u8,
}

impl Objects {
    // Steps 2 and 4 to 7 for the five objects.
    #[tactic(auto, unfolding(crate::specs::Clock::objects_after, crate::specs::Object::missile_after))]
    fn clocked(self, clock: Clock, registers: Registers) -> Self
        ensures { result ≡ objects_after clock.tick registers clock.write self }
    {
        let copies0 = registers.nusiz0.copies;
        let copies1 = registers.nusiz1.copies;
        Self {
            p0: self.p0.clocked(clock, P0, copies0),
            p1: self.p1.clocked(clock, P1, copies1),
            m0: self.m0.clocked(clock, M0, copies0).object,
            m1: self.m1.clocked(clock, M1, copies1).object,
            bl: self.bl.ball(clock),
        }
    }
}

// Steps 1 to 11.
#[tactic(auto, unfolding(crate::specs::Clock::clock_of, crate::specs::Lit::lit_of))]
pub(crate) fn steps(state: State, write: Write) -> Clocked
    requires { (state.timing.h ≤ 227) × (state.timing.slot ≤ 16) }
    ensures { result ≡ clock_of state write }
{
    let timing = state.timing.written(write);
    let registers = state.registers.written(write);
    let colours = state.colours.written(write);
    let tick = timing.tick(write);
    let objects = state.objects.clocked(Clock { tick, write }, registers);
    let h = timing.h;
    let blank = tick.blank;
    let column = timing.column();
    let lit = Lit::at(column, registers, objects);
    let paint = Paint {
        ctrlpf: registers.playfield.ctrlpf,
        colours,
        column,
    };
    let latches = state.latches.written(write).after(blank, lit);
    Clocked {
        state: State {
            timing: timing.after(tick.comparing),
            objects,
            registers,
            colours,
            latches,
        },
        byte: lit.answer(h, blank),
        colour: paint.colour(blank, lit),
    }
}
