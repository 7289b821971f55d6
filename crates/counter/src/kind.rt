// The two kinds of counter: the horizontal one counts a scanline, a position one an object's column.
ghost use Rattle.std.specs.Prelude.{◌≡◌, ℕ};
ghost use Rattle.counter.specs.Kind.{Kind, horizontal, position, period_of, wrap_of, power_up_of, PowerUp, at_power_up};

use crate::counter::Counter;

// A kind of counter: how many counts it uses, the value that it wraps from, and its value at power-up.
pub trait CounterKind: Copy {
    const PERIOD: u8;

    const WRAP: u8;

    const POWER_UP: u8;

    ghost PERIOD: { ℕ };

    ghost WRAP: { ℕ };

    ghost POWER_UP: { ℕ };

    // The kind of the definitions.
    ghost kind: { Kind };

    // The constants are that kind's.
    ghost constants: { PowerUp kind PERIOD WRAP POWER_UP POWER_UP };

    // The kind's counter at power-up.
    final fn new() -> Counter<Self>
        ensures { PowerUp kind PERIOD WRAP POWER_UP result.value }
    {
        Counter::at(Self::POWER_UP)
    }
}

// The horizontal kind.
#[derive(Clone, Copy)]
pub struct Horizontal;

impl CounterKind for Horizontal {
    const PERIOD: u8 = 57;

    const WRAP: u8 = 0b010100;

    const POWER_UP: u8 = 0b000000;

    ghost PERIOD = { period_of horizontal };

    ghost WRAP = { wrap_of horizontal };

    ghost POWER_UP = { power_up_of horizontal };

    ghost kind = { horizontal };

    ghost constants = { at_power_up horizontal };
}

// The position kind.
#[derive(Clone, Copy)]
pub struct Position;

impl CounterKind for Position {
    const PERIOD: u8 = 40;

    const WRAP: u8 = 0b101101;

    const POWER_UP: u8 = 0b000000;

    ghost PERIOD = { period_of position };

    ghost WRAP = { wrap_of position };

    ghost POWER_UP = { power_up_of position };

    ghost kind = { position };

    ghost constants = { at_power_up position };
}
