// The text of a printed line as it is put together.
ghost use Rattle.std.specs.Prelude.{◌≡◌, [], ◌+◌, ◌≤◌, ◌<◌, length};
ghost use Rattle.listing_text.specs.Room.{HasRoom, Put};
ghost use Rattle.listing_text.specs.Text.{hex_digit, hex_byte};

use itoa::{Buffer, Integer};
use std::marker::Model;

// Text of at most 64 bytes: the first ones of a room that has zeros after them. A contract sees its bytes.
#[derive(Clone, Copy)]
pub struct Text {
    room: [u8; 64],
    len: usize,
}

impl Model for Text {
    ghost use Rattle.std.specs.Prelude.{ℕ, List, length, take};
    ghost use Rattle.listing_text.specs.TextRoom.{Filled, room_of, room_back, len_back};

    ghost Value = { List ℕ };

    ghost view = { λ t. take t.len t.room };

    ghost invariant = { λ t. Filled t.len t.room };

    ghost inverse = { λ text. record { room = room_of text; len = length text } };

    ghost inverse_ok = { λ t filled i. record {
      room = room_back t.len t.room filled i;
      len = len_back t.len t.room filled i;
    } };
}

impl Text {
    // No text.
    pub(crate) fn new() -> Self
        ensures { result ≡ [] }
    {
        Text {
            room: [0; 64],
            len: 0,
        }
    }

    // Some text alone.
    pub(crate) fn of(part: &str) -> Self
        requires { length part.now ≤ 64 }
        ensures text { result ≡ part.now }
        ensures fits { length result ≤ 64 }
    {
        let mut text = Self::new();
        text.put(part);
        text
    }

    // Its bytes.
    pub fn as_bytes(&self) -> &[u8]
        ensures bytes { result.now ≡ self.now }
        ensures fits { length result.now ≤ 64 }
    {
        &self.room[..self.len]
    }

    // Puts some text.
    pub(crate) fn put(&mut self, part: &str)
        requires { HasRoom (length part.now) self.old }
        ensures { Put part.now (length part.now) self.old self.new }
    {
        self.put_bytes(part.as_bytes());
    }

    // Puts some bytes.
    fn put_bytes(&mut self, part: &[u8])
        requires { HasRoom (length part.now) self.old }
        ensures { Put part.now (length part.now) self.old self.new }
    {
        let end = self.len + part.len();
        self.room[self.len..end].copy_from_slice(part);
        self.len = end;
    }

    // Puts a number in decimal.
    pub(crate) fn put_number<I: Integer>(&mut self, number: I)
        requires { HasRoom I.MAX_STR_LEN self.old }
        ensures { Put (I.text number) I.MAX_STR_LEN self.old self.new }
    {
        let mut buffer = Buffer::new();
        self.put(buffer.format(number));
    }

    // Puts a byte in two hexadecimal digits.
    pub(crate) fn put_hex(&mut self, byte: u8)
        requires { HasRoom 2 self.old }
        ensures { Put (hex_byte byte) 2 self.old self.new }
    {
        self.put_bytes(&[hex_digit(byte / 16), hex_digit(byte % 16)]);
    }
}

// An upper-case hexadecimal digit. (By hand: no contract of `write!` with `{byte:02X}` says that it fits, so it may fail, which a step
// of the listing cannot.)
fn hex_digit(n: u8) -> u8
    requires { n < 16 }
    ensures { result ≡ hex_digit n }
{
    if n < 10 { b'0' + n } else { b'A' + (n - 10) }
}
