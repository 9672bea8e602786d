// The version text of a level.
use crate::data;
use std::io;
use strobe::{Level, Session};

pub fn write(rt: &impl Print, level: Level) -> io::Result<()> {
    let session = Session::new(&data::NAME, level).session;
    rt.write_all(&session.version_str())?;
    println!(rt;)
}
