// Each journal that an argument names is read from its file and answered by the library twice: in large pieces with room for many answers, then in
// pieces of 7 bytes with room for one answer only. The crate's stdout has what an independent program, vectors/journal_cases.py, computed.
#![tactic(auto)]

use frames::Journal;
use std::env::FillError;
use std::fs::File;
use std::io;
use std::io::Read;
use std::rt::{Env, Files};

// Answers all of the input. Where there was no room for an answer it stops.
fn answered(rt: &impl Print, journal: Journal, input: &[u8], out: &mut [u8]) -> Journal {
    let mut behind = journal;
    let mut rest = input;
    while !rest.is_empty() {
        let step = behind.step(rest, out);
        behind = step.journal;
        rest = &rest[step.taken..];
        let _ = rt.write_all(&out[..step.put]);
        if step.taken == 0 {
            break;
        }
    }
    behind
}

// All of the file, also behind a first line that ends the run: the library has to leave it unanswered. A read that fails counts as the end.
fn answer(rt: &impl Print, file: &mut impl Read, input: &mut [u8], out: &mut [u8]) {
    let mut journal = Journal::new();
    for _ in 0..u64::MAX {
        let n = file.read(input).unwrap_or(0);
        if n == 0 {
            break;
        }
        journal = answered(rt, journal, &input[..n], out);
    }
    let last = journal.finish(out);
    let _ = rt.write_all(&out[..last.put]);
}

// The answers under a heading, the name and what ends it.
fn show(
    rt: &(impl Files + Print),
    name: &str,
    ending: &str,
    input: &mut [u8],
    out: &mut [u8],
) -> io::Result<()> {
    let mut file = File::open(rt, name)?;
    let _ = print!(rt; "{name}{ending}");
    answer(rt, &mut file, input, out);
    Ok(())
}

// In large pieces; then few lines come in one piece, and no answer finds room beside another.
fn show_both(rt: &(impl Files + Print), name: &str) -> io::Result<()> {
    show(rt, name, "\n", &mut [0u8; 65536], &mut [0u8; 65536])?;
    show(
        rt,
        name,
        ", cut\n",
        &mut [0u8; 7],
        &mut [0u8; Journal::ANSWER_LIMIT],
    )
}

// An argument, if there is one. One that is too long for the buffer is empty.
fn argument<'a>(rt: &impl Env, i: usize, buffer: &'a mut [u8]) -> Option<&'a [u8]> {
    match rt.arg(i, buffer) {
        Ok(n) => Some(&buffer[..n]),
        Err(FillError::TooLong) => Some(&[]),
        Err(FillError::NotPresent) => None,
    }
}

// std opens a file by a name that is text. One that can't be opened has no answers, only a line on standard error.
fn main(rt: HostRuntime) {
    let mut buffer = [0u8; 64];
    for i in 1..usize::MAX {
        let Some(name) = argument(&rt, i, &mut buffer) else {
            break;
        };
        match str::from_utf8(name) {
            Ok(name) => {
                if let Err(e) = show_both(&rt, name) {
                    let _ = eprintln!(rt; "{name}: {e}");
                }
            }
            Err(e) => {
                let _ = eprintln!(rt; "argument {i}: {e}");
            }
        }
    }
}
