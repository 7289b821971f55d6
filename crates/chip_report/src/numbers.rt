// The numbers that a report has for an answer of the chip.
ghost use Rattle.std.specs.Prelude.{◌≡◌};
ghost use Rattle.tia.specs.declared.state.State.{State};
ghost use Rattle.chip_report.specs.Numbers.{clock_row, line_row, read_out_row, read_out_bytes};

use refusal::{Fault, Refusal};
use std::fmt;
use tia::Output;

// Numbers, printed with a space between.
#[derive(Clone, Copy)]
pub(crate) struct Numbers<const N: usize>(pub(crate) [u8; N]);

// Of a line call: the refusal's number, 0 for none, and the index of the record at fault.
impl From<Result<(), Fault>> for Numbers<2> {
    ghost from_gives = { λ answer numbers. numbers.0 ≡ line_row answer };

    fn from(answer: Result<(), Fault>) -> Self {
        match answer {
            Ok(()) => Numbers([0, 0]),
            Err(fault) => Numbers([fault.refusal.into(), fault.index]),
        }
    }
}

// Of a colour clock: the refusal's number, 0 for none, an index that is 0, the answer byte and the colour.
impl From<Result<Output, Refusal>> for Numbers<4> {
    ghost from_gives = { λ answer numbers. (s : State) → numbers.0 ≡ clock_row answer s };

    fn from(answer: Result<Output, Refusal>) -> Self {
        match answer {
            Ok(output) => Numbers([0, 0, output.byte, output.colour]),
            Err(refusal) => Numbers([refusal.into(), 0, 0, 0]),
        }
    }
}

impl<const N: usize> fmt::Display for Numbers<N> {
    fn fmt<W: fmt::Write>(&self, f: &mut fmt::Formatter<W>) -> fmt::Result {
        let mut between = "";
        for number in &self.0 {
            write!(f, "{between}{number}")?;
            between = " ";
        }
        Ok(())
    }
}

// A read-out: the refusal's number and an index that is 0, then the eight bytes in hexadecimal.
#[derive(Clone, Copy)]
pub(crate) struct ReadOut {
    pub(crate) verdict: Numbers<2>,
    pub(crate) bytes: [u8; 8],
}

impl From<Result<[u8; 8], Refusal>> for ReadOut {
    ghost from_gives = { λ answer shown. (shown.verdict.0 ≡ read_out_row answer) × (shown.bytes ≡ read_out_bytes answer) };

    fn from(answer: Result<[u8; 8], Refusal>) -> Self {
        match answer {
            Ok(bytes) => ReadOut {
                verdict: Numbers([0, 0]),
                bytes,
            },
            Err(refusal) => ReadOut {
                verdict: Numbers([refusal.into(), 0]),
                bytes: [0; 8],
            },
        }
    }
}

impl fmt::Display for ReadOut {
    fn fmt<W: fmt::Write>(&self, f: &mut fmt::Formatter<W>) -> fmt::Result {
        write!(
            f,
            "{} {:016x}",
            self.verdict,
            u64::from_be_bytes(self.bytes)
        )
    }
}
