//! Hollpaten's one program.
//!
//! `webmail show` reads a message from standard input and writes its page to standard output. The runs are functions over
//! sources and sinks in `webmail_runs`, so that their contracts can say what was read and written; `main` makes the real ones.
#![tactic(auto)]

use mail_io::{ReaderSource, WriterSink};
use std::env;
use std::process::ExitCode;
use webmail_runs::{OUT_OF_MEMORY, Status, WRONG_WORDS, run_show, status_line};

fn main(rt: HostRuntime) -> ExitCode {
    let status = run(&rt);
    let line = status_line(status);
    if !line.is_empty() {
        let _ = eprintln!(rt; "{line}");
    }
    ExitCode::from(status)
}

fn run(rt: &HostRuntime) -> Status {
    let Ok(args) = env::args(rt) else {
        return WRONG_WORDS;
    };
    let Ok(words) = args.skip(1).collect::<Vec<String>>(rt.alloc()) else {
        return OUT_OF_MEMORY;
    };
    let mut source = ReaderSource::new(rt.stdin());
    let mut sink = WriterSink::new(rt.stdout());
    run_show(rt.alloc(), &words, &mut source, &mut sink)
}
