// The registers that draw the objects, and what a write does to them.
ghost use Rattle.std.specs.Prelude.{◌≡◌};
ghost use Rattle.tia.specs.Registers.{nusiz_after, graphic_after, enable_after, registers_after};

use crate::bits::bit;
use crate::playfield::Playfield;
use crate::write::{
    ENABL, ENAM0, ENAM1, GRP0, GRP1, NUSIZ0, NUSIZ1, REFP0, REFP1, VDELBL, VDELP0, VDELP1, Write,
};

// NUSIZ: the copies of a player and its missile, and the missile's width code.
#[derive(Clone, Copy, Default)]
pub struct Nusiz {
    pub copies: u8,
    pub width: u8,
}

impl Nusiz {
    // NUSIZ after a write.
    pub(crate) fn written(self, address: u8, write: Write) -> Self
        ensures { result ≡ nusiz_after address write self }
    {
        let value = write.value();
        Self {
            copies: write.at(address, value % 8, self.copies),
            width: write.at(address, value / 16 % 4, self.width),
        }
    }
}

// A player's graphic: reflected (REFP), its new and old byte (GRP), whether the old one is shown (VDELP).
#[derive(Clone, Copy, Default)]
pub struct Graphic {
    pub reflected: bool,
    pub new: u8,
    pub old: u8,
    pub delayed: bool,
}

impl Graphic {
    // The graphic after a write; `own` and `other` are the two players' GRP.
    pub(crate) fn written(self, reflect: u8, own: u8, other: u8, delay: u8, write: Write) -> Self
        ensures { result ≡ graphic_after reflect own other delay write self }
    {
        let value = write.value();
        Self {
            reflected: write.at(reflect, bit(3, value), self.reflected),
            new: write.at(own, value, self.new),
            old: write.at(other, self.new, self.old),
            delayed: write.at(delay, bit(0, value), self.delayed),
        }
    }
}

// The ball's enable: the new and the old one (ENABL), whether the old one counts (VDELBL). It is no graphic of a flag, since a
// graphic is reflected, too, and other addresses write its parts.
#[derive(Clone, Copy, Default)]
pub struct Enable {
    pub new: bool,
    pub old: bool,
    pub delayed: bool,
}

impl Enable {
    // The enable after a write.
    pub(crate) fn written(self, write: Write) -> Self
        ensures { result ≡ enable_after write self }
    {
        let value = write.value();
        Self {
            new: write.at(ENABL, bit(1, value), self.new),
            old: write.at(GRP1, self.new, self.old),
            delayed: write.at(VDELBL, bit(0, value), self.delayed),
        }
    }
}

// The registers that draw.
#[derive(Clone, Copy, Default)]
pub struct Registers {
    pub nusiz0: Nusiz,
    pub nusiz1: Nusiz,
    pub playfield: Playfield,
    pub graphic0: Graphic,
    pub graphic1: Graphic,
    pub enam0: bool,
    pub enam1: bool,
    pub enabl: Enable,
}

impl Registers {
    // The registers after a write.
    #[tactic(auto, unfolding(crate::specs::Registers::registers_after))]
    pub(crate) fn written(self, write: Write) -> Self
        ensures { result ≡ registers_after write self }
    {
        let enable = bit(1, write.value());
        Self {
            nusiz0: self.nusiz0.written(NUSIZ0, write),
            nusiz1: self.nusiz1.written(NUSIZ1, write),
            playfield: self.playfield.written(write),
            graphic0: self.graphic0.written(REFP0, GRP0, GRP1, VDELP0, write),
            graphic1: self.graphic1.written(REFP1, GRP1, GRP0, VDELP1, write),
            enam0: write.at(ENAM0, enable, self.enam0),
            enam1: write.at(ENAM1, enable, self.enam1),
            enabl: self.enabl.written(write),
        }
    }
}
