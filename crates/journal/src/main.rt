// The journal over standard input and output. The library has the work; this file moves bytes, so its contracts say little: it is safe, and it ends.
#![tactic(auto)]

ghost use Rattle.std.specs.Prelude.{◌≤◌, length};
ghost use Rattle.frames.specs.Steps.{answer_limit};

use frames::Journal;
use std::io::Read;
use std::{fmt, io};

// What ends a run before its input does.
#[derive(Drop)]
enum Failure {
    Input(io::Error),
    Output(io::Error),
}

impl fmt::Display for Failure {
    fn fmt<W: fmt::Write>(&self, f: &mut fmt::Formatter<W>) -> fmt::Result {
        match self {
            Failure::Input(e) => write!(f, "standard input: {e}"),
            Failure::Output(e) => write!(f, "standard output: {e}"),
        }
    }
}

// Answers all of the input, and writes the answers.
fn answered(rt: &impl Print, journal: Journal, input: &[u8], out: &mut [u8]) -> io::Result<Journal>
    requires { answer_limit ≤ length out.old }
{
    let mut behind = journal;
    let mut rest = input;
    while !rest.is_empty() {
        let step = behind.step(rest, out);
        behind = step.journal;
        rest = &rest[step.taken..];
        rt.write_all(&out[..step.put])?;
    }
    Ok(behind)
}

// All reads, up to the end of the input or to a first line that ends the run. At the end a last line without its newline is answered. Nothing says that
// the input ends, so the reads are counted, up to a number that no run uses up.
fn run(rt: &(impl Print + Input), input: &mut [u8], out: &mut [u8]) -> Result<(), Failure>
    requires { answer_limit ≤ length out.old }
{
    let mut reader = rt.reader();
    let mut journal = Journal::new();
    for _ in 0..u64::MAX {
        let n = reader.read(input).map_err(Failure::Input)?;
        if n == 0 {
            let last = journal.finish(out);
            return rt.write_all(&out[..last.put]).map_err(Failure::Output);
        }
        journal = answered(rt, journal, &input[..n], out).map_err(Failure::Output)?;
        if journal.ended() {
            break;
        }
    }
    Ok(())
}

fn main(rt: HostRuntime) {
    let mut input = [0u8; 65536];
    let mut out = [0u8; 65536];
    if let Err(failure) = run(&rt, &mut input, &mut out) {
        let _ = eprintln!(rt; "journal: {failure}");
    }
}
