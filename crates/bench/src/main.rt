//! Drives the libraries on standard input, for the benchmarks and tools of this repository.
//!
//! `bench WORK [TIMES]` runs the work `TIMES` times, writes the microseconds of each run to standard error, and then writes
//! its result to standard output. `bench stream-base64` encodes the input as it comes. `bench check` writes the results of
//! all kinds of work on fixed inputs.
#![tactic(auto)]

mod asks;
mod check;
mod codings;
mod drafts;
mod flowed;
mod hearing;
mod parts;
mod references;
mod responses;
mod threads;
mod tokens;
mod washing;
mod work;

use std::io::{Read, Write};
use std::process::ExitCode;
use std::time::Instant;
use std::{env, io};
use work::{Input, Work, perform, result_of, work_named};

const USAGE: &str = "usage: bench WORK [TIMES]
       bench stream-base64|check
works: decode-base64 decode-quoted encode-base64 encode-quoted tree refer[-below]
       responses[-1|-64|-4096] hear[-1|-64|-65536] read-flowed[-del-sp] write-flowed[-quoted] build asks[-1] spans tags tokens print-tokens
       wash[-images|-below] print-wash read-facts threads list-threads add[-all]-threads print-threads";

/// Writes the microseconds of each run to standard error, and then the result.
fn run(rt: &HostRuntime, work: Work, times: u32) -> io::Result<()> {
    let mut bytes = Vec::new(rt.alloc());
    rt.stdin().read_to_end(&mut bytes)?;
    let input = Input::new(&bytes);
    for _ in 0..times {
        let start = Instant::now(rt)?;
        let count = perform(rt.alloc(), work, &input)?;
        let microseconds = start.elapsed(rt)?.as_micros();
        eprintln!(rt; "{microseconds} {count}")?;
    }
    let result = result_of(rt.alloc(), work, &input)?;
    rt.stdout().write_all(result.as_slice())
}

fn main(rt: HostRuntime) -> io::Result<ExitCode> {
    let words = env::args(&rt)?.skip(1).collect::<Vec<String>>(rt.alloc())?;
    let name = words.first().map_or("", |word| word.as_str());
    if name == "stream-base64" {
        codings::stream_base64(&rt)?;
        return Ok(ExitCode::SUCCESS);
    }
    if name == "check" {
        check::write_results(&rt)?;
        return Ok(ExitCode::SUCCESS);
    }
    let times = words
        .get(1)
        .map_or(Some(0), |word| word.as_str().parse::<u32>().ok());
    match (work_named(name), times) {
        (Some(work), Some(times)) => {
            run(&rt, work, times)?;
            Ok(ExitCode::SUCCESS)
        }
        _ => {
            eprintln!(rt; "{USAGE}")?;
            Ok(ExitCode::from(2))
        }
    }
}
