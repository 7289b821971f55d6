// The first lit column of an object in a line's answer bytes.
ghost use Rattle.std.specs.Prelude.{◌≡◌, ◌<◌};
ghost use Rattle.tia.specs.FirstLit.{shows, column_answer, first_lit_answer};

use crate::bits::bit;
use crate::line_call::LINE_BYTES;
use refusal::Refusal;

// How many objects a line's answer bytes show: P0, P1, M0, M1, BL, PF. They are numbers, since any byte may be asked for:
// `first_lit_of` refuses those over 5.
const OBJECTS: u8 = 6;

// Whether an answer byte shows an object.
#[tactic(auto, unfolding(crate::specs::FirstLit::shows))]
fn shows_object(object: u8, byte: u8) -> bool
    requires { object < 6 }
    ensures { result ≡ shows object byte }
{
    !bit(6, byte) && !bit(7, byte) && bit(object, byte)
}

// The smallest column whose byte shows an object, 0 to 5, or none. Refuses a buffer that is not 160 bytes long (3), then any other
// object (10).
#[tactic(auto, using(crate::proofs::FirstLitLaws::room_refused, crate::proofs::FirstLitLaws::object_refused))]
pub fn first_lit_column(buffer: &[u8], object: u8) -> Result<Option<u8>, Refusal>
    ensures { column_answer result ≡ first_lit_answer buffer.now object }
{
    if buffer.len() != LINE_BYTES {
        return Err(Refusal::BufferLength);
    }
    if object >= OBJECTS {
        return Err(Refusal::NoSuch);
    }
    // `as`: a column is below 160, and `try_from` would have a failure that never comes.
    let found = buffer.iter().position(|&byte| shows_object(object, byte));
    Ok(found.map(|column| column as u8))
}
