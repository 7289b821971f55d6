// The fifteen collision latches (step 10) and their read-out.
ghost use Rattle.std.specs.Prelude.{◌||◌, ◌≡◌};
ghost use Rattle.tia.specs.Latches.{pairs_of, latches_written, latches_after, each_latch, read_out_byte, read_out};

use crate::lit::Lit;
use crate::write::{CXCLR, Write};
use std::ops::BitOr;

// A latch for each pair of objects, in the order of the read-out.
#[derive(Clone, Copy, Default)]
pub struct Latches {
    pub m0p1: bool,
    pub m0p0: bool,
    pub m1p0: bool,
    pub m1p1: bool,
    pub p0pf: bool,
    pub p0bl: bool,
    pub p1pf: bool,
    pub p1bl: bool,
    pub m0pf: bool,
    pub m0bl: bool,
    pub m1pf: bool,
    pub m1bl: bool,
    pub blpf: bool,
    pub p0p1: bool,
    pub m0m1: bool,
}

impl Latches {
    // Step 2: CXCLR clears all latches.
    #[tactic(auto, unfolding(crate::specs::Latches::latches_written))]
    pub(crate) fn written(self, write: Write) -> Self
        ensures { result ≡ latches_written write self }
    {
        if write.hits(CXCLR) {
            Self::default()
        } else {
            self
        }
    }

    // Step 10: in an unblanked column every pair lit together sets its latch.
    #[tactic(auto, unfolding(crate::specs::Latches::latches_after))]
    pub(crate) fn after(self, blank: bool, lit: Lit) -> Self
        ensures { result ≡ latches_after blank lit self }
    {
        if blank { self } else { self | lit.pairs() }
    }

    // The eight bytes of the read-out.
    #[tactic(auto, unfolding(crate::specs::Latches::read_out))]
    pub(crate) fn bytes(self) -> [u8; 8]
        ensures { result ≡ read_out self }
    {
        [
            read_out_byte(self.m0p1, self.m0p0),
            read_out_byte(self.m1p0, self.m1p1),
            read_out_byte(self.p0pf, self.p0bl),
            read_out_byte(self.p1pf, self.p1bl),
            read_out_byte(self.m0pf, self.m0bl),
            read_out_byte(self.m1pf, self.m1bl),
            read_out_byte(self.blpf, false),
            read_out_byte(self.p0p1, self.m0m1),
        ]
    }
}

impl BitOr for Latches {
    type Output = Latches;

    ghost bitor_gives = { λ one other both. both ≡ each_latch ◌||◌ one other };

    // The latches set in either.
    fn bitor(self, pairs: Latches) -> Latches {
        Self {
            m0p1: self.m0p1 | pairs.m0p1,
            m0p0: self.m0p0 | pairs.m0p0,
            m1p0: self.m1p0 | pairs.m1p0,
            m1p1: self.m1p1 | pairs.m1p1,
            p0pf: self.p0pf | pairs.p0pf,
            p0bl: self.p0bl | pairs.p0bl,
            p1pf: self.p1pf | pairs.p1pf,
            p1bl: self.p1bl | pairs.p1bl,
            m0pf: self.m0pf | pairs.m0pf,
            m0bl: self.m0bl | pairs.m0bl,
            m1pf: self.m1pf | pairs.m1pf,
            m1bl: self.m1bl | pairs.m1bl,
            blpf: self.blpf | pairs.blpf,
            p0p1: self.p0p1 | pairs.p0p1,
            m0m1: self.m0m1 | pairs.m0m1,
        }
    }
}

// A byte of the read-out: two latches in bits 7 and 6.
fn read_out_byte(high: bool, low: bool) -> u8
    ensures { result ≡ read_out_byte high low }
{
    128 * u8::from(high) + 64 * u8::from(low)
}

impl Lit {
    // The pairs lit together.
    pub(crate) fn pairs(self) -> Latches
        ensures { result ≡ pairs_of self }
    {
        let Lit {
            p0,
            p1,
            m0,
            m1,
            bl,
            pf,
        } = self;
        Latches {
            m0p1: m0 & p1,
            m0p0: m0 & p0,
            m1p0: m1 & p0,
            m1p1: m1 & p1,
            p0pf: p0 & pf,
            p0bl: p0 & bl,
            p1pf: p1 & pf,
            p1bl: p1 & bl,
            m0pf: m0 & pf,
            m0bl: m0 & bl,
            m1pf: m1 & pf,
            m1bl: m1 & bl,
            blpf: bl & pf,
            p0p1: p0 & p1,
            m0m1: m0 & m1,
        }
    }
}
