// Writes the bytes of the two classroom cards: the counter's 63 values, then the 256 mirrored bytes.
#![tactic(auto)]

ghost use Rattle.std.specs.Prelude.{◌≡◌, ◌++◌};
ghost use Rattle.counter.specs.Count.{card};
ghost use Rattle.counter.specs.Answers.{value_answer};
ghost use Rattle.mirror.specs.Mirror.{mirrored_bytes};
ghost use Rattle.card_bytes.specs.CardBytes.{card_bytes};

use std::array;
use std::io::{self, Print};

// The entries of the counter's card.
const COUNTS: usize = 63;

// The entries of the card of mirrored bytes.
const BYTES: usize = 256;

// The value of a count; 0 where there is none. (`clock_bytes` asks so, too: each promises by its own definition.)
fn value_of(count: u8) -> u8
    ensures { result ≡ (value_answer count).value }
{
    counter::value_of_count(count).unwrap_or(0)
}

// The values of counts 0 to 62. (`as` here and below: an index of these tables is a byte, and `try_from` would have a failure that
// never comes.)
fn counter_card() -> [u8; COUNTS]
    ensures { result ≡ card }
{
    array::from_fn(|count| value_of(count as u8))
}

// The mirrored bytes of 0 to 255.
fn mirror_card() -> [u8; BYTES]
    ensures { result ≡ mirrored_bytes }
{
    array::from_fn(|byte| mirror::mirrored(byte as u8))
}

// Writes both cards, one after the other. (`line_bytes` writes two parts as well; what each of the two requires of them is its own.)
fn emit(rt: &impl Print, values: &[u8], bytes: &[u8]) -> io::Result<()>
    requires { values.now ++ bytes.now ≡ card_bytes }
{
    rt.write_all(values)?;
    rt.write_all(bytes)
}

// Fills both cards and writes them.
fn main(rt: HostRuntime) -> io::Result<()> {
    streams::unless_closed(emit(&rt, &counter_card(), &mirror_card()))
}
