// Two ends of one channel do 200 operations at each level, each in its own cuts, with saves and loads between the operations and between the cuts, and
// with refused calls. What both have after each operation is written. The crate's stdout has what an independent program, vectors/replay_ends.py,
// computed for the same operations done whole.
#![tactic(auto)]

mod before;
mod ends;
mod flags;
mod line;
mod meaning;
mod pieces;
mod plan;
mod reload;

use ends::Ends;
use plan::Step;
use std::io;
use strobe::{Level, Session};

// With the number behind its name the plan has all that vectors/replay_plan.py asks of it.
fn replay(rt: &impl Print, level: Level) -> io::Result<()> {
    let mut plan = Session::new(b"a plan for two ends, 2713", level).session;
    let mut ends = Ends::new(level);
    rt.write_all(&plan.version_str())?;
    println!(rt;)?;
    for number in 0..200 {
        let step = Step::drawn(plan, number == 0);
        ends = ends.play(&step);
        line::write(rt, number, &step, &ends)?;
        plan = step.plan;
    }
    line::write_states(rt, &ends)
}

fn main(rt: HostRuntime) -> io::Result<()> {
    replay(&rt, Level::B128)?;
    replay(&rt, Level::B256)
}
