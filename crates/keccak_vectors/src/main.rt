// Permutes states: reads them one a line, in hexadecimal, and writes each one permuted in the same
// form. It stops at the first line that is no state's.
#![tactic(auto)]

mod line;

use std::io::Read;

// Fills the line, or as much of it as there is input for, and gives how many bytes came. A read
// that fails counts as the end of the input.
fn read_line(input: &mut impl Read, line: &mut [u8; 401]) -> usize {
    let mut done: usize = 0;
    while done < line.len() {
        let n = input.read(&mut line[done..]).unwrap_or(0);
        if n == 0 {
            break;
        }
        done += n;
    }
    done
}

// Answers one line, and says whether to go on.
fn answer_line(rt: &impl Print, input: &mut impl Read) -> bool {
    let mut line = [0u8; 401];
    if read_line(input, &mut line) == 0 {
        return false;
    }
    // A cut line needs no test of its own: the zeros after it are neither digits nor a newline.
    let Some(state) = line::parse(&line) else {
        let _ = println!(rt; "not a state: 400 lower-case hexadecimal digits and a newline");
        return false;
    };
    let answer = line::spelled(&keccak::permute(state));
    rt.write_all(&answer).is_ok()
}

// Nothing says that the input ends, so the lines are counted, up to a number that no run uses up.
fn main(rt: HostRuntime) {
    let mut input = rt.reader();
    for _ in 0..u64::MAX {
        if !answer_line(&rt, &mut input) {
            break;
        }
    }
}
