// Calls, each with its line.
use crate::{data, line};
use std::io;
use strobe::{Flags, Outcome, Session};

// A call on so many bytes that count up from its flag byte.
pub fn step<F: FnOnce(&mut [u8]) -> Outcome>(
    rt: &impl Print,
    flags: Flags,
    count: u8,
    operation: F,
) -> io::Result<Session>
    requires { F.IsAlwaysCallable operation }
{
    let mut bytes: [u8; 256] = data::counting(flags.0);
    let buf = &mut bytes[..usize::from(count)];
    line::write(rt, operation(buf), buf)
}
