//! Makes the calls of a script on a keeper of records in files, for `tools/check-records`.
//!
//! `keep_records FOLDER` reads calls, one a line, and writes what each gave. `calls.rt` has their form.
#![tactic(auto)]

mod calls;

use std::io::{Read, Write};
use std::process::ExitCode;
use std::{env, io};

const USAGE: &str = "usage: keep_records FOLDER";

fn main(rt: HostRuntime) -> io::Result<ExitCode> {
    let words = env::args(&rt)?.skip(1).collect::<Vec<String>>(rt.alloc())?;
    let mut input = String::new(rt.alloc());
    rt.stdin().read_to_string(&mut input)?;
    let [folder] = words.as_slice() else {
        eprintln!(rt; "{USAGE}")?;
        return Ok(ExitCode::from(2));
    };
    let output = calls::run(&rt, rt.alloc(), folder.as_str(), &input)?;
    rt.stdout().write_all(output.as_bytes())?;
    Ok(ExitCode::SUCCESS)
}
