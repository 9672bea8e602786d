// Runs STROBE sessions and writes what each call leaves. The crate's stdout has what an independent
// program, vectors/strobe_vectors.py, computed for the same calls.
#![tactic(auto)]

mod data;
mod editions;
mod ends;
mod forms;
mod line;
mod merlin;
mod numbered;
mod pieces;
mod refusals;
mod sequence;
mod steps;
mod trials;
mod turns;
mod version;

use std::io;
use strobe::Level;

fn main(rt: HostRuntime) -> io::Result<()> {
    version::write(&rt, Level::B128)?;
    version::write(&rt, Level::B256)?;
    sequence::write(&rt, Level::B128)?;
    ends::write(&rt, 128)?;
    sequence::write(&rt, Level::B256)?;
    ends::write(&rt, 256)?;
    numbered::write(&rt)?;
    pieces::write(&rt)?;
    refusals::write(&rt)?;
    merlin::write(&rt)?;
    forms::write(&rt)?;
    turns::write(&rt)
}
