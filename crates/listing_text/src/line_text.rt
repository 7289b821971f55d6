// The text of each kind of printed line.
ghost use Rattle.std.specs.Prelude.{◌≡◌, ◌≤◌, length};
ghost use Rattle.refusal.specs.Refusal.{number_of};
ghost use Rattle.tia.specs.FirstLit.{first_lit_of};
ghost use Rattle.listing_text.specs.Room.{HasRoom, Put};
ghost use Rattle.listing_text.specs.LineText.{column_text, columns_text, row_text, eight_text, latches_text, refused_text};

use crate::put::Text;
use refusal::Fault;
use tia::State;

// The heading.
pub(crate) const HEADING: &str = "line P0 P1 M0 M1 BL PF\n";

// What is printed for too long an input.
pub(crate) const TOO_LONG: &str = "tape too long\n";

// The first lit column of an object: the column, or `-`.
#[tactic(auto, using(crate::proofs::PutLaws::byte_digits, crate::proofs::LineTextLaws::found_text))]
fn put_column(text: &mut Text, bytes: &[u8; 160], object: u8)
    requires { HasRoom 3 text.old }
    ensures { Put (column_text (first_lit_of bytes.now object)) 3 text.old text.new }
{
    match tia::first_lit_column(bytes, object) {
        Ok(Some(column)) => text.put_number(column),
        Ok(None) => text.put("-"),
        Err(_) => (),
    }
}

// The first lit columns of the six objects.
#[tactic(auto, using(crate::proofs::PutLaws::spaced_none))]
fn put_columns(text: &mut Text, bytes: &[u8; 160])
    requires { HasRoom 24 text.old }
    ensures { Put (columns_text bytes.now) 24 text.old text.new }
{
    for object in 0..6u8 {
        text.put(" ");
        put_column(text, bytes, object);
    }
}

// The row of a line.
#[tactic(auto, using(std::proofs::Common::append_assoc, crate::proofs::PutLaws::number_digits), unfolding(crate::specs::LineText::row_text))]
pub(crate) fn row_text(line: u32, bytes: &[u8; 160]) -> Text
    ensures text { result ≡ row_text line bytes.now }
    ensures fits { length result ≤ 64 }
{
    let mut text = Text::new();
    text.put_number(line);
    put_columns(&mut text, bytes);
    text.put("\n");
    text
}

// Eight bytes in hexadecimal.
#[tactic(auto, using(crate::proofs::PutLaws::spaced_none))]
fn put_eight(text: &mut Text, bytes: [u8; 8])
    requires { HasRoom 24 text.old }
    ensures { Put (eight_text bytes) 24 text.old text.new }
{
    for byte in bytes {
        text.put(" ");
        text.put_hex(byte);
    }
}

// The latch bytes of a state; zeros for a bad one.
#[tactic(auto, unfolding(crate::specs::LineText::latches_text))]
pub(crate) fn latches_text(state: State) -> Text
    ensures text { result ≡ latches_text state }
    ensures fits { length result ≤ 64 }
{
    let bytes = tia::read_out(state).unwrap_or([0; 8]);
    let mut text = Text::of("cx");
    put_eight(&mut text, bytes);
    text.put("\n");
    text
}

// A refusal: its number, the line not run, and the record's index.
#[tactic(auto, using(std::proofs::Common::append_assoc, crate::proofs::PutLaws::byte_digits, crate::proofs::PutLaws::number_digits), unfolding(crate::specs::LineText::refused_text))]
pub(crate) fn refused_text(fault: Fault, line: u32) -> Text
    ensures text { result ≡ refused_text (number_of fault.refusal) line fault.index }
    ensures fits { length result ≤ 64 }
{
    let mut text = Text::of("refused ");
    text.put_number(u8::from(fault.refusal));
    text.put(" line ");
    text.put_number(line);
    text.put(" record ");
    text.put_number(fault.index);
    text.put("\n");
    text
}
