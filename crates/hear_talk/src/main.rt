//! Hears a recorded talk with a mail server, or spells the commands of one, for `tools/check-talks`.
//!
//! `hear_talk write` reads commands, one a line, and writes the pieces of each. `hear_talk SIZE` reads a recording, hears it in
//! pieces of at most `SIZE` bytes, and writes what was told. `recording.rt` has the form of a recording.
#![tactic(auto)]

mod commands;
mod recording;
mod report;

use std::io::{Read, Write};
use std::process::ExitCode;
use std::{env, io};

const USAGE: &str = "usage: hear_talk write|SIZE";

fn main(rt: HostRuntime) -> io::Result<ExitCode> {
    let words = env::args(&rt)?.skip(1).collect::<Vec<String>>(rt.alloc())?;
    let mut input = Vec::new(rt.alloc());
    rt.stdin().read_to_end(&mut input)?;
    let mode = words.first().map_or("", |word| word.as_str());
    let output = match mode.parse::<usize>() {
        Ok(size) => recording::hear(rt.alloc(), &input, size)?,
        Err(_) if mode == "write" => commands::spell_all(rt.alloc(), &input)?,
        Err(_) => {
            eprintln!(rt; "{USAGE}")?;
            return Ok(ExitCode::from(2));
        }
    };
    rt.stdout().write_all(&output)?;
    Ok(ExitCode::SUCCESS)
}
