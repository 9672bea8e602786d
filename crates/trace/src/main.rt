// Cases on standard input, a line for each of their lines on standard output. This file moves the bytes.
#![tactic(auto)]

mod calls;
mod digits;
mod frame;
mod line;
mod output;
mod record;
mod reply;

use frame::LENT_LIMIT;
use line::Line;
use output::Out;
use std::io::Read;
use strobe::Session;

#[derive(Drop)]
struct Trace<'a, P> {
    // the session of a case, or none where its first line is to come
    case: Option<Session>,
    // as much of the next line as has come
    line: Line,
    // where the bytes stand that a call is lent
    buffer: [u8; LENT_LIMIT],
    out: Out<'a, P>,
}

impl<P: Print> Trace<'_, P> {
    fn reply(&mut self) {
        let text = self.line.text();
        self.case = reply::reply(self.case, text, &mut self.buffer, &mut self.out);
        self.line.clear();
    }

    // Replies to all lines that end in the input. Nothing of the replies is held back.
    fn take(&mut self, input: &[u8]) {
        for part in input.split_inclusive(|character| *character == b'\n') {
            match part {
                [text @ .., b'\n'] => {
                    self.line.push(text);
                    self.reply();
                }
                text => self.line.push(text),
            }
        }
        self.out.flush();
    }

    // At the input's end a last line without its newline is replied to.
    fn finish(&mut self) {
        if !self.line.is_empty() {
            self.take(b"\n");
        }
    }
}

// Nothing says that the input ends, so the reads are counted, up to a number that no run uses up. A read that fails counts as the end.
fn main(rt: HostRuntime) {
    let mut input = [0u8; 65536];
    let mut reader = rt.reader();
    let mut trace = Trace {
        case: None,
        line: Line::new(),
        buffer: [0u8; LENT_LIMIT],
        out: Out::new(&rt),
    };
    for _ in 0..u64::MAX {
        let n = reader.read(&mut input).unwrap_or(0);
        if n == 0 {
            trace.finish();
            return;
        }
        trace.take(&input[..n]);
    }
}
