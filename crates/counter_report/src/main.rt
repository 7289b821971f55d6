// Prints the counter's answers for every byte: its step as a horizontal and as a position counter, its value as a count,
// and its count as a value.
#![tactic(auto)]

use counter::{Counter, CounterKind, Horizontal, Position};
use refusal::Refusal;
use std::fmt;
use std::io::{self, Print};

// A value, printed as its six bits, leftmost first. (`chip_report` prints a digest in the same way, in its own format.)
#[derive(Drop)]
struct Bits(u8);

impl fmt::Display for Bits {
    fn fmt<W: fmt::Write>(&self, f: &mut fmt::Formatter<W>) -> fmt::Result {
        write!(f, "{:06b}", self.0)
    }
}

// An answer, printed as what is found or as the refusal's number and record 0. (`chip_report` prints the refusal of a column so: two
// formats of two programs.)
#[derive(Drop)]
struct Answer<T>(Result<T, Refusal>);

impl<T: fmt::Display> fmt::Display for Answer<T> {
    fn fmt<W: fmt::Write>(&self, f: &mut fmt::Formatter<W>) -> fmt::Result {
        match &self.0 {
            Ok(found) => write!(f, "{found}"),
            Err(refusal) => write!(f, "refused({},0)", u8::from(*refusal)),
        }
    }
}

// The value after a step of a kind.
fn stepped<K: CounterKind>(value: u8) -> Answer<Bits> {
    Answer(Counter::<K>::at(value).step().map(|next| Bits(next.value)))
}

// One row of the report: the input and its four answers.
fn row(rt: &impl Print, input: u8) -> io::Result<()> {
    let horizontal = stepped::<Horizontal>(input);
    let position = stepped::<Position>(input);
    let value = Answer(counter::value_of_count(input).map(Bits));
    let count = Answer(counter::count_of_value(input));
    println!(rt; "{input} {horizontal} {position} {value} {count}")
}

// The heading, then a row for each byte.
fn report(rt: &impl Print) -> io::Result<()> {
    println!(rt; "input horizontal position value count")?;
    for input in 0..=255 {
        row(rt, input)?;
    }
    Ok(())
}

// Writes the report.
fn main(rt: HostRuntime) -> io::Result<()> {
    streams::unless_closed(report(&rt))
}
