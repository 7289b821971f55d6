// A case of the case file: its kind and its record. What more a kind has follows the record.
use crate::fields::{FIELDS, state_from};
use crate::input::Input;
use std::fmt;
use std::io::Read;
use tia::State;

// The bytes of a record: a state's fields and four more.
const RECORD: usize = FIELDS + 4;

// What a case asks for.
#[derive(Clone, Copy)]
pub(crate) enum Kind {
    Clock,
    Walk,
    Line,
    Run,
    Tape,
}

// A byte that no kind has.
#[derive(Clone, Copy)]
pub(crate) struct UnknownKind;

impl TryFrom<u8> for Kind {
    type Error = UnknownKind;

    fn try_from(byte: u8) -> Result<Self, UnknownKind> {
        match byte {
            0 => Ok(Kind::Clock),
            1 => Ok(Kind::Walk),
            2 => Ok(Kind::Line),
            3 => Ok(Kind::Run),
            4 => Ok(Kind::Tape),
            _ => Err(UnknownKind),
        }
    }
}

impl fmt::Display for Kind {
    fn fmt<W: fmt::Write>(&self, f: &mut fmt::Formatter<W>) -> fmt::Result {
        f.write_str(match self {
            Kind::Clock => "clock",
            Kind::Walk => "walk",
            Kind::Line => "line",
            Kind::Run => "run",
            Kind::Tape => "tape",
        })
    }
}

// A case: its kind, its number among all cases, the state that it begins in, and the four bytes of the record after the state's, which
// each kind reads in its own way.
#[derive(Clone, Copy)]
pub(crate) struct Case {
    pub(crate) kind: Kind,
    pub(crate) number: u32,
    pub(crate) state: State,
    pub(crate) more: [u8; 4],
}

impl Case {
    // The next case; none at the end of the input or at an unknown kind.
    pub(crate) fn next(input: &mut Input<impl Read>, number: u32) -> Option<Case> {
        let [kind] = input.whole::<1>()?;
        let record: [u8; RECORD] = input.whole()?;
        let (fields, more) = record.split_at(FIELDS);
        Some(Case {
            kind: Kind::try_from(kind).ok()?,
            number,
            state: state_from(fields),
            more: [more[0], more[1], more[2], more[3]],
        })
    }

    // The number's lowest byte, from which a case's buffers rise.
    pub(crate) fn first(&self) -> u8 {
        let [.., first] = self.number.to_be_bytes();
        first
    }
}
