// What all objects share in a clock: the line clock, the motion slot and the late flag.
ghost use Rattle.std.specs.Prelude.{◌≡◌, ◌<◌};
ghost use Rattle.tia.specs.Timing.{timing_written, tick_of, timing_after};
ghost use Rattle.tia.specs.Lit.{column_of};

use crate::write::{HMOVE, Write};

// The clocks of a line and the last of them; those of its horizontal blank, and those of one that HMOVE makes longer.
pub(crate) const CLOCKS: u8 = 228;

pub(crate) const LAST_CLOCK: u8 = CLOCKS - 1;

pub(crate) const BLANK: u8 = 68;

const LATE_BLANK: u8 = 76;

// The motion slot when no motion is under way.
pub(crate) const NO_MOTION: u8 = 16;

// The line clock h, the motion slot, and the late flag: HMOVE was written in this line's horizontal blank.
#[derive(Clone, Copy, Default)]
pub struct Timing {
    pub h: u8,
    pub slot: u8,
    pub late: bool,
}

// What a clock does to every object: the motion slot, whether it is compared, and whether the clock is blank.
#[derive(Clone, Copy)]
pub(crate) struct Tick {
    pub(crate) slot: u8,
    pub(crate) comparing: bool,
    pub(crate) blank: bool,
}

// A clock for the objects: what it does to every one of them, and its write.
#[derive(Clone, Copy)]
pub(crate) struct Clock {
    pub(crate) tick: Tick,
    pub(crate) write: Write,
}

impl Timing {
    // Steps 1 and 2: the late flag falls at clock 0; HMOVE starts the slots and, in the horizontal blank, raises it.
    pub(crate) fn written(self, write: Write) -> Self
        ensures { result ≡ timing_written write self }
    {
        let hmove = write.hits(HMOVE);
        let late = self.h != 0 && self.late;
        Self {
            h: self.h,
            slot: if hmove { 0 } else { self.slot },
            late: (hmove && self.h < BLANK) || late,
        }
    }

    // Steps 3 and 4: whether the clock is blank, and whether it compares.
    pub(crate) fn tick(self, write: Write) -> Tick
        ensures { result ≡ tick_of write self }
    {
        let Timing { h, slot, late } = self;
        Tick {
            slot,
            comparing: slot < NO_MOTION && h % 4 == 0 && !write.hits(HMOVE),
            blank: h < BLANK || (h < LATE_BLANK && late),
        }
    }

    // The column; 0 in the horizontal blank.
    pub(crate) fn column(self) -> u8
        ensures { result ≡ column_of self.h }
    {
        self.h.saturating_sub(BLANK)
    }

    // Steps 4 and 11: a compared slot rises by one; h rises by one, 227 going to 0.
    pub(crate) fn after(self, comparing: bool) -> Self
        requires { (self.h < 255) × (self.slot < 255) }
        ensures { result ≡ timing_after comparing self }
    {
        Self {
            h: (self.h + 1) % CLOCKS,
            slot: self.slot + u8::from(comparing),
            ..self
        }
    }
}
