// The playfield's registers, and which columns they light.
ghost use Rattle.std.specs.Prelude.{◌≡◌, ◌<◌};
ghost use Rattle.tia.specs.Registers.{playfield_after};
ghost use Rattle.tia.specs.Playfield.{playfield_index, playfield_bit, playfield_lit};

use crate::bits::bit;
use crate::write::{CTRLPF, PF0, PF1, PF2, Write};

// CTRLPF, PF0's upper half byte, PF1 and PF2.
#[derive(Clone, Copy, Default)]
pub struct Playfield {
    pub ctrlpf: u8,
    pub pf0: u8,
    pub pf1: u8,
    pub pf2: u8,
}

impl Playfield {
    // The playfield's registers after a write.
    pub(crate) fn written(self, write: Write) -> Self
        ensures { result ≡ playfield_after write self }
    {
        let value = write.value();
        Self {
            ctrlpf: write.at(CTRLPF, value, self.ctrlpf),
            pf0: write.at(PF0, value / 16 % 16, self.pf0),
            pf1: write.at(PF1, value, self.pf1),
            pf2: write.at(PF2, value, self.pf2),
        }
    }

    // Bit n of the twenty, in the order in which the left half shows them.
    #[tactic(auto, unfolding(crate::specs::Playfield::playfield_bit))]
    fn shown(self, n: u8) -> bool
        requires { n < 20 }
        ensures { result ≡ playfield_bit self n }
    {
        match n {
            0..4 => bit(n, self.pf0),
            4..12 => bit(11 - n, self.pf1),
            _ => bit(n - 12, self.pf2),
        }
    }

    // Whether the playfield is lit in a column.
    #[tactic(auto, unfolding(crate::specs::Playfield::playfield_lit))]
    pub(crate) fn lit(self, column: u8) -> bool
        requires { column < 160 }
        ensures { result ≡ playfield_lit self column }
    {
        let reflected = bit(0, self.ctrlpf);
        self.shown(index(reflected, column / 4))
    }
}

// Which of the twenty bits stands in a place of the forty.
#[tactic(auto, unfolding(crate::specs::Playfield::playfield_index))]
fn index(reflected: bool, place: u8) -> u8
    requires { place < 40 }
    ensures { (result ≡ playfield_index reflected place) × (result < 20) }
{
    if place < 20 {
        place
    } else if reflected {
        39 - place
    } else {
        place - 20
    }
}
