// A write to a register, and the addresses of the registers.
ghost use Rattle.std.specs.Prelude.{cond, ◌≡◌};
ghost use Rattle.tia.specs.Write.{hits, byte_of, known, unknown};

// The addresses of the registers. They are numbers, since a write may name any byte, and the call that takes it refuses the unknown.
pub(crate) const NUSIZ0: u8 = 0x04;

pub(crate) const NUSIZ1: u8 = 0x05;

pub(crate) const COLUP0: u8 = 0x06;

pub(crate) const COLUP1: u8 = 0x07;

pub(crate) const COLUPF: u8 = 0x08;

pub(crate) const COLUBK: u8 = 0x09;

pub(crate) const CTRLPF: u8 = 0x0A;

pub(crate) const REFP0: u8 = 0x0B;

pub(crate) const REFP1: u8 = 0x0C;

pub(crate) const PF0: u8 = 0x0D;

pub(crate) const PF1: u8 = 0x0E;

pub(crate) const PF2: u8 = 0x0F;

pub(crate) const RESP0: u8 = 0x10;

pub(crate) const RESP1: u8 = 0x11;

pub(crate) const RESM0: u8 = 0x12;

pub(crate) const RESM1: u8 = 0x13;

pub(crate) const RESBL: u8 = 0x14;

pub(crate) const GRP0: u8 = 0x1B;

pub(crate) const GRP1: u8 = 0x1C;

pub(crate) const ENAM0: u8 = 0x1D;

pub(crate) const ENAM1: u8 = 0x1E;

pub(crate) const ENABL: u8 = 0x1F;

pub(crate) const HMP0: u8 = 0x20;

pub(crate) const HMP1: u8 = 0x21;

pub(crate) const HMM0: u8 = 0x22;

pub(crate) const HMM1: u8 = 0x23;

pub(crate) const HMBL: u8 = 0x24;

pub(crate) const VDELP0: u8 = 0x25;

pub(crate) const VDELP1: u8 = 0x26;

pub(crate) const VDELBL: u8 = 0x27;

pub(crate) const HMOVE: u8 = 0x2A;

pub(crate) const HMCLR: u8 = 0x2B;

pub(crate) const CXCLR: u8 = 0x2C;

// What is written on a clock: nothing, or a value to a register's address. It is no `Option`: its five methods
// and the definitions `hits`, `byte_of` and `clock_answer` take it, and would be no plainer over a struct in one.
#[derive(Clone, Copy)]
pub enum Write {
    Nothing,
    Register { address: u8, value: u8 },
}

impl Write {
    // Whether this address is written.
    pub(crate) fn hits(self, register: u8) -> bool
        ensures { result ≡ hits self register }
    {
        match self {
            Write::Nothing => false,
            Write::Register { address, .. } => address == register,
        }
    }

    // The value written; 0 where nothing is.
    pub(crate) fn value(self) -> u8
        ensures { result ≡ byte_of self }
    {
        match self {
            Write::Nothing => 0,
            Write::Register { value, .. } => value,
        }
    }

    // A value after the write: the new one if this address is written.
    pub(crate) fn at<T: Copy>(self, register: u8, new: T, old: T) -> T
        ensures { result ≡ cond (hits self register) new old }
    {
        if self.hits(register) { new } else { old }
    }

    // Whether an address is written that no register has.
    #[tactic(auto, unfolding(crate::specs::Write::unknown))]
    pub(crate) fn unknown(self) -> bool
        ensures { result ≡ unknown self }
    {
        match self {
            Write::Nothing => false,
            Write::Register { address, .. } => !is_known(address),
        }
    }
}

// Whether a register has this address. (A test for each range: with one `matches!` of all three the check of a list takes a fifth more
// instructions.)
#[tactic(auto, using(crate::proofs::WriteLaws::known_where))]
pub(crate) fn is_known(address: u8) -> bool
    ensures { result ≡ known address }
{
    matches!(address, NUSIZ0..=RESBL)
        || matches!(address, GRP0..=VDELBL)
        || matches!(address, HMOVE..=CXCLR)
}
