// Prints the chip's answers to the cases on standard input: single clocks, walks of clocks, line calls, runs of line
// calls, and lines of tapes.
#![tactic(auto)]

mod buffers;
mod case;
mod clock;
mod digest;
mod fields;
mod input;
mod line;
mod numbers;
mod run;
mod tape_line;
mod walk;

use case::{Case, Kind};
use input::Input;
use std::fmt::Display;
use std::io::{self, Print, Read};

// The most cases that are answered.
const MOST: u32 = 1_000_000;

// Prints the row of a case: its kind, its number and its answer.
fn print_row(rt: &impl Print, case: &Case, answer: impl Display + Drop) -> io::Result<()> {
    println!(rt; "{} {} {answer}", case.kind, case.number)
}

// Answers a case.
fn answer(rt: &impl Print, case: &Case, input: &mut Input<impl Read>) -> io::Result<()> {
    match case.kind {
        Kind::Clock => print_row(rt, case, clock::answer(case)),
        Kind::Walk => print_row(rt, case, walk::answer(case, input)),
        Kind::Line => print_row(rt, case, line::answer(case, input)),
        Kind::Run => print_row(rt, case, run::answer(case, input)),
        Kind::Tape => print_row(rt, case, tape_line::answer(case, input)),
    }
}

// Answers each case of the input.
fn report(rt: &impl Print, input: &mut Input<impl Read>) -> io::Result<()> {
    for number in 0..MOST {
        let Some(case) = Case::next(input, number) else {
            break;
        };
        answer(rt, &case, input)?;
    }
    Ok(())
}

// Answers the cases on standard input.
fn main(rt: HostRuntime) -> io::Result<()> {
    let mut input = Input::new(rt.reader());
    streams::unless_closed(report(&rt, &mut input))
}
