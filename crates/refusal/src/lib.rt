// The refusals of the public calls: why a call is refused, its number in the table, and the record at fault.
#![tactic(auto)]

mod list_length;

ghost use Rattle.std.specs.Prelude.{◌≡◌};
ghost use Rattle.refusal.specs.Refusal.{number_of, fault_of};

pub use list_length::is_bad_length;

// Why a call is refused, with its number in the table.
#[derive(Clone, Copy, Debug, PartialEq, Eq)]
pub enum Refusal {
    // A bad state.
    BadState = 1,
    // A line is asked for and h is not 0.
    LineClock = 2,
    // A line buffer that is not 160 bytes long.
    BufferLength = 3,
    // A write list that is not a multiple of 3, or over 684 bytes.
    ListLength = 4,
    // A clock over 227.
    ClockOver = 5,
    // A clock not above the one before.
    ClockOrder = 6,
    // An unknown register.
    UnknownRegister = 7,
    // A tape that is empty or of another version.
    Version = 8,
    // A tape that is cut short, or a place that is 0 or past the tape's end.
    TapeEnd = 9,
    // No such count, value or object.
    NoSuch = 10,
    // A colour buffer that is not 160 bytes long.
    ColourLength = 11,
}

impl From<Refusal> for u8 {
    ghost from_gives = { λ refusal number. number ≡ number_of refusal };

    // The number of a refusal.
    fn from(refusal: Refusal) -> u8 {
        refusal as u8
    }
}

// A refusal, and the index of the record at fault; 0 where no record is.
#[derive(Clone, Copy, Debug, PartialEq, Eq)]
pub struct Fault {
    pub refusal: Refusal,
    pub index: u8,
}

impl From<Refusal> for Fault {
    ghost from_gives = { λ refusal fault. fault ≡ fault_of refusal 0 };

    // A refusal at no record.
    fn from(refusal: Refusal) -> Fault {
        Fault { refusal, index: 0 }
    }
}
