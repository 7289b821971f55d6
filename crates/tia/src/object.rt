// A movable object: its position, age and motion, and what a clock does to them.
ghost use Rattle.std.specs.Prelude.{cond, ◌≡◌, pos};
ghost use Rattle.tia.specs.Object.{reached, older, starts, size_of, compare_value, equal_slot, extra_pulse, object_written, slot_passed, pulsed_if};
ghost use Rattle.tia.specs.Object.{strobed_if, object_moved, object_after, player_after, ball_after};

use crate::drawing::Drawing;
use crate::timing::{Clock, Tick};
use crate::write::{
    HMBL, HMCLR, HMM0, HMM1, HMOVE, HMP0, HMP1, RESBL, RESM0, RESM1, RESP0, RESP1, Write,
};

// The columns of a line, and the last of them.
const COLUMNS: u8 = 160;

pub(crate) const LAST_COLUMN: u8 = COLUMNS - 1;

// The last of the sixteen motion slots.
const LAST_SLOT: u8 = 15;

// The age when nothing is being drawn.
pub(crate) const NOT_DRAWN: u8 = 64;

// P0, P1, M0, M1 or BL: its position, its age (pulses since its last start), its motion value and live flag.
#[derive(Clone, Copy, Default)]
pub struct Object {
    pub position: u8,
    pub age: u8,
    pub motion: u8,
    pub live: bool,
}

// A player: the object, its copy's size at the start, and the copy's drawing.
#[derive(Clone, Copy)]
pub struct Player {
    pub body: Object,
    pub size: u8,
    pub drawing: Drawing,
}

// The addresses of an object's own registers: its position strobe and its motion register.
#[derive(Clone, Copy)]
pub(crate) struct Addresses {
    pub(crate) strobe: u8,
    pub(crate) motion: u8,
}

// The addresses of the five objects.
pub(crate) const P0: Addresses = Addresses {
    strobe: RESP0,
    motion: HMP0,
};

pub(crate) const P1: Addresses = Addresses {
    strobe: RESP1,
    motion: HMP1,
};

pub(crate) const M0: Addresses = Addresses {
    strobe: RESM0,
    motion: HMM0,
};

pub(crate) const M1: Addresses = Addresses {
    strobe: RESM1,
    motion: HMM1,
};

const BL: Addresses = Addresses {
    strobe: RESBL,
    motion: HMBL,
};

// An object after a clock, whether it was pulsed, and whether a copy started.
#[derive(Clone, Copy)]
pub(crate) struct Moved {
    pub(crate) object: Object,
    pub(crate) pulsed: bool,
    pub(crate) started: bool,
}

// The position after a clock: one on at a pulse; without one it stays.
fn next_position(position: u8, pulse: bool) -> u8
    ensures { result ≡ reached pulse position }
{
    if pulse {
        (position % COLUMNS + 1) % COLUMNS
    } else {
        position
    }
}

// The age after a pulse: 0 at a start, else one on, stopping at 64.
fn next_age(age: u8, pulse: bool, start: bool) -> u8
    ensures { result ≡ cond start 0 (cond pulse (older age) age) }
{
    if start {
        0
    } else if pulse {
        age.saturating_add(1).min(NOT_DRAWN)
    } else {
        age
    }
}

// Whether a copy starts at a position.
fn start_at(copies: u8, position: u8) -> bool
    ensures { result ≡ starts copies position }
{
    matches!(
        (position, copies),
        (0, _) | (16, 1 | 3) | (32, 2 | 3 | 6) | (64, 4 | 6)
    )
}

// The size of a player's copies.
#[tactic(auto, unfolding(crate::specs::Object::size_of))]
fn size_of(copies: u8) -> u8
    ensures { result ≡ size_of copies }
{
    match copies {
        5 => 2,
        7 => 4,
        _ => 1,
    }
}

// The slot that ends an object's motion: 8 plus its signed motion value.
#[tactic(auto, using(crate::proofs::MotionLaws::compare_is_remainder))]
fn compare_value(motion: u8) -> u8
    ensures { compare_value motion ≡ pos result }
{
    (motion % 16 + 8) % 16
}

impl Object {
    // Step 2: its motion register, HMCLR and HMOVE.
    fn written(self, hm: u8, write: Write) -> Self
        ensures { result ≡ object_written hm write self }
    {
        let motion = write.at(HMCLR, 0, self.motion);
        Self {
            motion: write.at(hm, write.value() / 16 % 16, motion),
            live: write.hits(HMOVE) || self.live,
            ..self
        }
    }

    // Step 4: whether the slot compared is the one that ends its motion.
    fn equal(self, tick: Tick) -> bool
        ensures { result ≡ equal_slot tick self }
    {
        tick.slot == compare_value(self.motion)
    }

    // Step 4: whether it gets an extra pulse.
    fn extra(self, tick: Tick) -> bool
        ensures { result ≡ extra_pulse tick self }
    {
        tick.comparing && self.live && !self.equal(tick)
    }

    // Step 4: its live flag falls at the slot that ends its motion, and after the last.
    fn slot(self, tick: Tick) -> Self
        ensures { result ≡ slot_passed tick self }
    {
        let falls = tick.comparing && (self.equal(tick) || tick.slot == LAST_SLOT);
        Self {
            live: self.live && !falls,
            ..self
        }
    }

    // Steps 5 and 6: on a pulse the position and the age rise by one; at a start the age is 0.
    fn pulse(self, pulse: bool, start: bool) -> Self
        ensures { result ≡ pulsed_if pulse start self }
    {
        Self {
            position: next_position(self.position, pulse),
            age: next_age(self.age, pulse, start),
            ..self
        }
    }

    // Step 7: at a strobe the position is 0.
    fn strobe(self, strobe: bool) -> Self
        ensures { result ≡ strobed_if strobe self }
    {
        Self {
            position: if strobe { 0 } else { self.position },
            ..self
        }
    }

    // Steps 4 to 7 for an object after the write.
    #[tactic(auto, unfolding(crate::specs::Object::object_moved))]
    fn moved(self, tick: Tick, strobe: bool, copies: u8) -> Moved
        ensures { result ≡ object_moved tick strobe copies self }
    {
        let visible = !tick.blank;
        let extra = self.extra(tick);
        let pulsed = visible || extra;
        let start = start_at(copies, next_position(self.position, pulsed));
        let started = pulsed && !strobe && start;
        let object = self.slot(tick).pulse(pulsed, started).strobe(strobe);
        Moved {
            object,
            pulsed,
            started,
        }
    }

    // Steps 2 and 4 to 7: the object's part of a clock; a missile has no other.
    #[tactic(auto, unfolding(crate::specs::Object::object_after))]
    pub(crate) fn clocked(self, clock: Clock, own: Addresses, copies: u8) -> Moved
        ensures { result ≡ object_after clock.tick own.strobe own.motion copies clock.write self }
    {
        let Clock { tick, write } = clock;
        self.written(own.motion, write)
            .moved(tick, write.hits(own.strobe), copies)
    }

    // The ball's part of a clock: its strobe also makes its age 0.
    #[tactic(auto, unfolding(crate::specs::Object::ball_after))]
    pub(crate) fn ball(self, clock: Clock) -> Self
        ensures { result ≡ ball_after clock.tick clock.write self }
    {
        let object = self.clocked(clock, BL, 0).object;
        Self {
            age: clock.write.at(RESBL, 0, object.age),
            ..object
        }
    }
}

impl Player {
    // A player's part of a clock: at a start it takes its size from NUSIZ; on a pulse its drawing goes on.
    #[tactic(auto, unfolding(crate::specs::Object::player_after))]
    pub(crate) fn clocked(self, clock: Clock, own: Addresses, copies: u8) -> Self
        ensures { result ≡ player_after clock.tick own.strobe own.motion copies clock.write self }
    {
        let moved = self.body.clocked(clock, own, copies);
        let size = size_of(copies);
        Self {
            body: moved.object,
            size: if moved.started { size } else { self.size },
            drawing: self.drawing.after(moved, self.size, size),
        }
    }
}
