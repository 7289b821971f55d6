// The drawing of a player's copy: its pixel, the clocks it has been shown, and what a pulse does to them.
ghost use Rattle.std.specs.Prelude.{cond, ◌≡◌, ◌<◌};
ghost use Rattle.tia.specs.Drawing.{no_drawing, drawing_age, gone_on, next_drawing, shown_bit, drawing_lit};

use crate::bits::bit;
use crate::object::Moved;
use crate::registers::Graphic;
use mirror::mirrored;

// The pixel when none is shown.
pub(crate) const NO_PIXEL: u8 = 8;

// The last of a graphic's eight pixels.
const LAST_PIXEL: u8 = NO_PIXEL - 1;

// The ages at which a copy starts drawing: at size 1, and at sizes 2 and 4.
const DRAWING_AGE: u8 = 5;

const STRETCHED_DRAWING_AGE: u8 = 6;

// The pixel shown, 0 to 7, or 8 for none, and the clocks it has been shown.
#[derive(Clone, Copy)]
pub struct Drawing {
    pub pixel: u8,
    pub shown: u8,
}

// The age at which a copy of this size at the start starts drawing.
fn drawing_age(held: u8) -> u8
    ensures { result ≡ drawing_age held }
{
    if held == 1 {
        DRAWING_AGE
    } else {
        STRETCHED_DRAWING_AGE
    }
}

impl Drawing {
    // No pixel shown. (`default` would say pixel 0.)
    pub(crate) fn none() -> Self
        ensures { result ≡ no_drawing }
    {
        Self {
            pixel: NO_PIXEL,
            shown: 0,
        }
    }

    // The drawing after a pulse within or after a copy: the next pixel, the same again, or none.
    fn gone_on(self, size: u8) -> Self
        ensures { result ≡ gone_on size self }
    {
        if self.pixel >= NO_PIXEL {
            return self;
        }
        if self.shown < size {
            return Self {
                shown: self.shown + 1,
                ..self
            };
        }
        if self.pixel == LAST_PIXEL {
            return Self::none();
        }
        Self {
            pixel: self.pixel + 1,
            shown: 1,
        }
    }

    // The drawing after a clock that moved the player so. On a pulse: none at a start, pixel 0 at the age where a copy of the held
    // size starts drawing, else by the size now.
    #[tactic(auto, unfolding(crate::specs::Drawing::next_drawing))]
    pub(crate) fn after(self, moved: Moved, held: u8, size: u8) -> Self
        ensures { result ≡ cond moved.pulsed (next_drawing moved.started moved.object.age held size self) self }
    {
        if !moved.pulsed {
            self
        } else if moved.started {
            Self::none()
        } else if moved.object.age == drawing_age(held) {
            Self { pixel: 0, shown: 1 }
        } else {
            self.gone_on(size)
        }
    }

    // Whether the drawing is lit: by its pixel's bit of the graphic.
    #[tactic(auto, unfolding(crate::specs::Drawing::drawing_lit))]
    pub(crate) fn lit(self, graphic: Graphic) -> bool
        ensures { result ≡ drawing_lit graphic self }
    {
        self.pixel < NO_PIXEL && graphic.shown(self.pixel)
    }
}

impl Graphic {
    // Whether the graphic shows pixel n, counted from the left. A reflected one is looked up in the table of mirrored bytes, then read
    // as one that is not.
    #[tactic(auto, using(crate::proofs::ReflectionLaws::looked_up_is_shown))]
    fn shown(self, n: u8) -> bool
        requires { n < 8 }
        ensures { result ≡ shown_bit self n }
    {
        let graphic = if self.delayed { self.old } else { self.new };
        if self.reflected {
            bit(7 - n, mirrored(graphic))
        } else {
            bit(7 - n, graphic)
        }
    }
}
