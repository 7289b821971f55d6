// Reading from a stream into a room that is lent, and how writing to one has ended.
#![tactic(auto)]

ghost use Rattle.std.specs.Prelude.{◌≡◌, ◌≢◌, ◌≤◌, length, take, IsOk, OnOk, IfErr};
ghost use Rattle.std.specs.Io.KnownBytes.{Consumes};
ghost use Rattle.std.specs.IoError.{error_kind};

use std::io::{self, ErrorKind, Read};

// Reads once, and answers how many bytes stand at the room's start; 0 where the read fails.
fn read_once<R: Read>(reader: &mut R, room: &mut [u8]) -> usize
    ensures within { result ≤ length room.new }
    ensures bytes { Consumes (R.remaining reader.old) (R.remaining reader.new) (take result room.new) }
{
    reader.read(room).unwrap_or(0)
}

// Reads until the room is full, the input ends or a read fails, and answers how many bytes stand at the room's start: the next ones
// of the reader, where these are known. A count and no part of the room: clause `bytes` says what the room holds afterwards, which no
// clause can say of a room that the answer borrows.
pub fn read_full<R: Read>(reader: &mut R, room: &mut [u8]) -> usize
    ensures within { result ≤ length room.new }
    ensures bytes { Consumes (R.remaining reader.old) (R.remaining reader.new) (take result room.new) }
{
    // Not a `for`: how far a turn goes is what the reader gives.
    let mut done = 0;
    while done < room.len() {
        let count = read_once(reader, &mut room[done..]);
        if count == 0 {
            break;
        }
        done += count;
    }
    done
}

// How writing has ended, a reader that has gone being no failure.
pub fn unless_closed(written: io::Result<()>) -> io::Result<()>
    ensures well { OnOk written (IsOk result) }
    ensures closed { IfErr written (λ error. error_kind error ≡ ErrorKind.BrokenPipe → IsOk result) }
    ensures failed { IfErr written (λ error. error_kind error ≢ ErrorKind.BrokenPipe → result ≡ written) }
{
    match written {
        Err(error) if error.kind() == ErrorKind::BrokenPipe => Ok(()),
        written => written,
    }
}
