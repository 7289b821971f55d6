// The chip's state, its start, and its check.
ghost use Rattle.std.specs.Prelude.{◌≡◌};
ghost use Rattle.tia.specs.State.{object_in_range, player_in_range, objects_in_range, any_live, timing_in_range, nusiz_in_range, registers_in_range};
ghost use Rattle.tia.specs.State.{bad_state, start_state};

use crate::colours::Colours;
use crate::drawing::{Drawing, NO_PIXEL};
use crate::latches::Latches;
use crate::object::{LAST_COLUMN, NOT_DRAWN, Object, Player};
use crate::registers::{Nusiz, Registers};
use crate::timing::{LAST_CLOCK, NO_MOTION, Timing};

// The five movable objects.
#[derive(Clone, Copy)]
pub struct Objects {
    pub p0: Player,
    pub p1: Player,
    pub m0: Object,
    pub m1: Object,
    pub bl: Object,
}

// The whole state of the chip. Slot 16, age 64 and pixel 8, where nothing goes on, and sizes, copies and width codes are numbers in bytes
// that a caller may fill with any number: `bad_state` says which are refused.
#[derive(Clone, Copy)]
pub struct State {
    pub timing: Timing,
    pub objects: Objects,
    pub registers: Registers,
    pub colours: Colours,
    pub latches: Latches,
}

impl State {
    // The start state: no motion under way, nothing drawn, sizes 1; all else is zero or false.
    #[tactic(auto, unfolding(crate::specs::State::start_state))]
    pub fn start() -> Self
        ensures { result ≡ start_state }
    {
        let object = Object {
            age: NOT_DRAWN,
            ..Object::default()
        };
        let player = Player {
            body: object,
            size: 1,
            drawing: Drawing::none(),
        };
        Self {
            timing: Timing {
                slot: NO_MOTION,
                ..Timing::default()
            },
            objects: Objects {
                p0: player,
                p1: player,
                m0: object,
                m1: object,
                bl: object,
            },
            registers: Registers::default(),
            colours: Colours::default(),
            latches: Latches::default(),
        }
    }

    // Whether a field is outside its range, or a live flag is set with no motion under way. Every byte is a colour.
    // `&` and `|`: with `&&` and `||` here a line takes 268,344 instructions in place of 210,307, more than docs/SPEED.md allows.
    #[tactic(auto, using(crate::proofs::StateLaws::colour_bytes), unfolding(crate::specs::State::bad_state, crate::specs::State::in_range, crate::specs::State::live_at_rest))]
    pub(crate) fn is_bad(self) -> bool
        ensures { result ≡ bad_state self }
    {
        let in_range = self.timing.in_range() & self.objects.in_range() & self.registers.in_range();
        !in_range | ((self.timing.slot == NO_MOTION) & self.objects.any_live())
    }
}

impl Timing {
    // Whether h and the slot are in their ranges.
    fn in_range(self) -> bool
        ensures { result ≡ timing_in_range self }
    {
        self.h <= LAST_CLOCK && self.slot <= NO_MOTION
    }
}

impl Object {
    // Whether position, age and motion value are in their ranges.
    fn in_range(self) -> bool
        ensures { result ≡ object_in_range self }
    {
        self.position <= LAST_COLUMN && self.age <= NOT_DRAWN && self.motion <= 15
    }
}

impl Player {
    // Whether the object is in range, the size 1, 2 or 4, the pixel at most 8 and its clocks shown at most 4.
    #[tactic(auto, unfolding(crate::specs::State::player_in_range))]
    fn in_range(self) -> bool
        ensures { result ≡ player_in_range self }
    {
        let sized = matches!(self.size, 1 | 2 | 4);
        let drawn = self.drawing.pixel <= NO_PIXEL && self.drawing.shown <= 4;
        self.body.in_range() && sized && drawn
    }
}

impl Objects {
    // Whether the five objects are in range.
    #[tactic(auto, unfolding(crate::specs::State::objects_in_range))]
    fn in_range(self) -> bool
        ensures { result ≡ objects_in_range self }
    {
        self.p0.in_range()
            && self.p1.in_range()
            && self.m0.in_range()
            && self.m1.in_range()
            && self.bl.in_range()
    }

    // Whether a live flag is set.
    fn any_live(self) -> bool
        ensures { result ≡ any_live self }
    {
        self.p0.body.live || self.p1.body.live || self.m0.live || self.m1.live || self.bl.live
    }
}

impl Registers {
    // Whether copies, width codes and PF0 are in their ranges; the other numbers are bytes.
    #[tactic(auto, using(crate::proofs::StateLaws::registers_by_bytes), unfolding(crate::specs::State::registers_in_range))]
    fn in_range(self) -> bool
        ensures { result ≡ registers_in_range self }
    {
        self.nusiz0.in_range() && self.nusiz1.in_range() && self.playfield.pf0 <= 15
    }
}

impl Nusiz {
    // Whether copies and width code are in their ranges. (Timing has a test of the same shape: one function of two values and two limits
    // would be no plainer.)
    fn in_range(self) -> bool
        ensures { result ≡ nusiz_in_range self }
    {
        self.copies <= 7 && self.width <= 3
    }
}
