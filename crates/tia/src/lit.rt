// Which objects a clock lights (steps 8 and 9), and its answer byte (step 10).
ghost use Rattle.std.specs.Prelude.{◌≡◌, ◌≤◌, ◌<◌};
ghost use Rattle.tia.specs.Lit.{width_of, missile_lit, ball_lit, lit_at, lit_bits, answer_byte};

use crate::object::Object;
use crate::registers::{Enable, Registers};
use crate::state::Objects;
use crate::timing::BLANK;

// The age at which a missile or the ball lights its first column.
const MISSILE_AGE: u8 = 4;

// The answer bytes of the horizontal blank and of a blank column.
const IN_BLANK: u8 = 128;

const BLANK_COLUMN: u8 = 64;

// The objects and the playfield, each lit or not.
#[derive(Clone, Copy)]
pub(crate) struct Lit {
    pub(crate) p0: bool,
    pub(crate) p1: bool,
    pub(crate) m0: bool,
    pub(crate) m1: bool,
    pub(crate) bl: bool,
    pub(crate) pf: bool,
}

impl Object {
    // Whether a missile or the ball is lit: at ages 4 to 3 + width when enabled.
    #[tactic(auto, unfolding(crate::specs::Lit::missile_lit))]
    fn lit(self, enabled: bool, code: u8) -> bool
        ensures { result ≡ missile_lit enabled code self }
    {
        enabled && (MISSILE_AGE..MISSILE_AGE + width_of(code)).contains(&self.age)
    }

    // Whether the ball is lit, by its new enable, or the old with VDELBL.
    #[tactic(auto, unfolding(crate::specs::Lit::ball_lit))]
    fn ball_lit(self, enable: Enable, ctrlpf: u8) -> bool
        ensures { result ≡ ball_lit enable ctrlpf self }
    {
        let enabled = if enable.delayed {
            enable.old
        } else {
            enable.new
        };
        self.lit(enabled, ctrlpf / 16 % 4)
    }
}

// The width of a width code.
#[tactic(auto, unfolding(crate::specs::Lit::width_of))]
fn width_of(code: u8) -> u8
    ensures { (result ≡ width_of code) × (result ≤ 8) }
{
    match code {
        0 => 1,
        1 => 2,
        2 => 4,
        _ => 8,
    }
}

impl Lit {
    // What is lit in a column.
    pub(crate) fn at(column: u8, registers: Registers, objects: Objects) -> Self
        requires { column < 160 }
        ensures { result ≡ lit_at column registers objects }
    {
        let playfield = registers.playfield;
        Self {
            p0: objects.p0.drawing.lit(registers.graphic0),
            p1: objects.p1.drawing.lit(registers.graphic1),
            m0: objects.m0.lit(registers.enam0, registers.nusiz0.width),
            m1: objects.m1.lit(registers.enam1, registers.nusiz1.width),
            bl: objects.bl.ball_lit(registers.enabl, playfield.ctrlpf),
            pf: playfield.lit(column),
        }
    }

    // Bits 0 to 5 for P0, P1, M0, M1, BL, PF.
    #[tactic(auto, unfolding(crate::specs::Lit::lit_bits))]
    fn bits(self) -> u8
        ensures { result ≡ lit_bits self }
    {
        u8::from(self.p0)
            + 2 * u8::from(self.p1)
            + 4 * u8::from(self.m0)
            + 8 * u8::from(self.m1)
            + 16 * u8::from(self.bl)
            + 32 * u8::from(self.pf)
    }

    // The answer byte of line clock h.
    #[tactic(auto, unfolding(crate::specs::Lit::answer_byte))]
    pub(crate) fn answer(self, h: u8, blank: bool) -> u8
        ensures { result ≡ answer_byte h blank self }
    {
        if h < BLANK {
            IN_BLANK
        } else if blank {
            BLANK_COLUMN
        } else {
            self.bits()
        }
    }
}
