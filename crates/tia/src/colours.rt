// The colour registers, and the colour of a column.
ghost use Rattle.std.specs.Prelude.{◌≡◌};
ghost use Rattle.tia.specs.Registers.{colours_after};
ghost use Rattle.tia.specs.Colour.{player_layers, playfield_colour, playfield_layers, first_shown, shown_colour, colour_of};

use crate::bits::bit;
use crate::lit::Lit;
use crate::write::{COLUBK, COLUP0, COLUP1, COLUPF, Write};

// The first column of the right half of a line.
const RIGHT_HALF: u8 = 80;

// The colours of P0 and M0, of P1 and M1, of ball and playfield, and of the background.
#[derive(Clone, Copy, Default)]
pub struct Colours {
    pub colup0: u8,
    pub colup1: u8,
    pub colupf: u8,
    pub colubk: u8,
}

impl Colours {
    // The colour registers after a write.
    #[tactic(auto, unfolding(crate::specs::Registers::colours_after))]
    pub(crate) fn written(self, write: Write) -> Self
        ensures { result ≡ colours_after write self }
    {
        let value = write.value();
        Self {
            colup0: write.at(COLUP0, value, self.colup0),
            colup1: write.at(COLUP1, value, self.colup1),
            colupf: write.at(COLUPF, value, self.colupf),
            colubk: write.at(COLUBK, value, self.colubk),
        }
    }
}

// What gives a column its colour, besides what is lit: CTRLPF, the colour registers, and the column.
#[derive(Clone, Copy)]
pub(crate) struct Paint {
    pub(crate) ctrlpf: u8,
    pub(crate) colours: Colours,
    pub(crate) column: u8,
}

impl Paint {
    // The playfield's colour: with the score (CTRLPF bit 1 without bit 2) that of the player on its side.
    fn playfield(self) -> u8
        ensures { result ≡ playfield_colour self.ctrlpf self.colours self.column }
    {
        let score = bit(1, self.ctrlpf) && !bit(2, self.ctrlpf);
        if !score {
            self.colours.colupf
        } else if self.column < RIGHT_HALF {
            self.colours.colup0
        } else {
            self.colours.colup1
        }
    }

    // The colour of the first player or missile that is lit; the other colour where none is.
    fn player_over(self, lit: Lit, other: u8) -> u8
        ensures { result ≡ first_shown other (player_layers self.colours lit) }
    {
        if lit.p0 || lit.m0 {
            self.colours.colup0
        } else if lit.p1 || lit.m1 {
            self.colours.colup1
        } else {
            other
        }
    }

    // The colour of the ball, or of the playfield, if one is lit; the other colour where none is.
    fn playfield_over(self, lit: Lit, other: u8) -> u8
        ensures { result ≡ first_shown other (playfield_layers self.ctrlpf self.colours self.column lit) }
    {
        if lit.bl {
            self.colours.colupf
        } else if lit.pf {
            self.playfield()
        } else {
            other
        }
    }

    // The colour of the first that is lit, ball and playfield being first with CTRLPF bit 2; the background's where none is.
    #[tactic(auto, using(crate::proofs::ColourLaws::playfield_first_lem, crate::proofs::ColourLaws::players_first))]
    fn shown(self, lit: Lit) -> u8
        ensures { result ≡ shown_colour self.ctrlpf self.colours self.column lit }
    {
        let background = self.colours.colubk;
        if bit(2, self.ctrlpf) {
            self.playfield_over(lit, self.player_over(lit, background))
        } else {
            self.player_over(lit, self.playfield_over(lit, background))
        }
    }

    // The colour of a clock, its bit 0 read as 0; 0 where the clock is blank.
    #[tactic(auto, unfolding(crate::specs::Colour::colour_of))]
    pub(crate) fn colour(self, blank: bool, lit: Lit) -> u8
        ensures { result ≡ colour_of blank self.ctrlpf self.colours self.column lit }
    {
        if blank { 0 } else { self.shown(lit) / 2 * 2 }
    }
}
