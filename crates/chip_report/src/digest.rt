// The digest of bytes: d becomes (d x 16,777,619 + byte + 1) modulo 4,294,967,291.
use crate::fields::{Visitor, visit_state};
use std::fmt;
use tia::State;

// The digest of the bytes so far.
#[derive(Clone, Copy, Default)]
pub(crate) struct Digest(u32);

impl Digest {
    // Goes on with one more byte.
    fn add(&mut self, byte: u8) {
        let next = (u64::from(self.0) * 16_777_619 + u64::from(byte) + 1) % 4_294_967_291;
        // `as`: the remainder fits, and `try_from` would have a failure that never comes.
        self.0 = next as u32;
    }

    // The digest after the bytes of a slice.
    pub(crate) fn with(mut self, bytes: &[u8]) -> Self {
        for &byte in bytes {
            self.add(byte);
        }
        self
    }

    // The digest after the fields of a state.
    pub(crate) fn with_state(mut self, mut state: State) -> Self {
        visit_state(&mut state, &mut self);
        self
    }
}

impl Visitor for Digest {
    fn byte(&mut self, field: &mut u8) {
        self.add(*field);
    }

    fn flag(&mut self, field: &mut bool) {
        self.add(u8::from(*field));
    }
}

impl fmt::Display for Digest {
    fn fmt<W: fmt::Write>(&self, f: &mut fmt::Formatter<W>) -> fmt::Result {
        write!(f, "{:08x}", self.0)
    }
}
