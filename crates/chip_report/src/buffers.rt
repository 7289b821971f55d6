// The two buffers that a case lends to a call.
use crate::digest::Digest;
use arrayvec::ArrayVec;
use std::fmt;

// A buffer of at most 255 bytes.
type Buffer = ArrayVec<u8, 255>;

// A buffer for a line's answer bytes, and one for their colours.
#[derive(Drop)]
pub(crate) struct Buffers {
    pub(crate) bytes: Buffer,
    pub(crate) colours: Buffer,
}

// A buffer of so many bytes that rise from the first one, 255 going to 0.
fn rising(first: u8, length: u8) -> Buffer {
    let mut buffer = Buffer::new();
    for index in 0..length {
        buffer.push(first.wrapping_add(index));
    }
    buffer
}

impl Buffers {
    // Buffers of these lengths: the first rises from a byte on, the colour buffer from 100 above it on.
    pub(crate) fn rising(first: u8, length: u8, colours_length: u8) -> Buffers {
        Buffers {
            bytes: rising(first, length),
            colours: rising(first.wrapping_add(100), colours_length),
        }
    }

    // The digest after both.
    pub(crate) fn added_to(&self, digest: Digest) -> Digest {
        digest.with(&self.bytes).with(&self.colours)
    }
}

// The digests of both buffers.
impl fmt::Display for Buffers {
    fn fmt<W: fmt::Write>(&self, f: &mut fmt::Formatter<W>) -> fmt::Result {
        write!(
            f,
            "{} {}",
            Digest::default().with(&self.bytes),
            Digest::default().with(&self.colours)
        )
    }
}
