//! Calls as lines: `adopt NAME`, `put NUMBER ADDRESS NAME`, `list`, `state FORM`, `set FORM STATE`, and `again` for a new keeper.
//! A form is a decimal number, a state `started`, `done`, `doubt` or `none`.
use mail_values::{Memory, Text};
use record_io::{Identity, KeepFault, Keeper, SendState};
use sqlite_keeper::SqliteKeeper;
use std::alloc::Global;

/// Makes the calls of a script, and returns a line for each.
pub fn run(rt: &HostRuntime, alloc: Global, folder: &str, script: &str) -> Result<String, Memory> {
    let mut output = String::new(alloc);
    let mut keeper = new_keeper(rt, alloc, folder)?;
    for line in script.lines() {
        if line == "again" {
            keeper = new_keeper(rt, alloc, folder)?;
        } else {
            let (name, rest) = split(line);
            push_answer(&mut output, call(alloc, &mut keeper, name, rest))?;
        }
    }
    Ok(output)
}

fn new_keeper(rt: &HostRuntime, alloc: Global, folder: &str) -> Result<SqliteKeeper, Memory> {
    SqliteKeeper::new(rt, Text::from_text(alloc, folder)?)
}

/// Splits a line at its first space.
fn split(line: &str) -> (&str, &str) {
    line.split_once(' ').unwrap_or((line, ""))
}

fn push_answer(output: &mut String, answer: Result<String, KeepFault>) -> Result<(), Memory> {
    match answer {
        Ok(text) => output.push_str(text.as_str())?,
        Err(KeepFault::Failed) => output.push_str("failed")?,
        Err(KeepFault::Memory) => output.push_str("memory")?,
    }
    output.push('\n')
}

/// Makes one call. A line that is none gives `?`.
fn call(
    alloc: Global,
    keeper: &mut SqliteKeeper,
    name: &str,
    rest: &str,
) -> Result<String, KeepFault> {
    match name {
        "adopt" => {
            keeper.adopt(alloc, rest)?;
            text(alloc, "adopted")
        }
        "put" => put(alloc, keeper, rest),
        "list" => list(alloc, keeper),
        "state" => {
            let state = keeper.send_state(alloc, number(rest))?;
            text(alloc, state_name(&state))
        }
        "set" => {
            let (form, state) = split(rest);
            keeper.set_send(alloc, number(form), state_of(state))?;
            text(alloc, "set")
        }
        _ => text(alloc, "?"),
    }
}

fn text(alloc: Global, text: &str) -> Result<String, KeepFault> {
    Ok(String::from_str(alloc, text)?)
}

/// The number of a word, 0 if it is none.
fn number(word: &str) -> u64 {
    word.parse::<u64>().unwrap_or(0)
}

fn put(alloc: Global, keeper: &mut SqliteKeeper, rest: &str) -> Result<String, KeepFault> {
    let (number, rest) = split(rest);
    let (address, name) = split(rest);
    let identity = Identity {
        name: Text::from_text(alloc, name)?,
        address: Text::from_text(alloc, address)?,
    };
    let number = number.parse::<u8>().unwrap_or(0);
    if number < 1 || number > 16 {
        return text(alloc, "?");
    }
    keeper.put_identity(alloc, number, &identity)?;
    text(alloc, "put")
}

fn list(alloc: Global, keeper: &mut SqliteKeeper) -> Result<String, KeepFault> {
    let mut line = text(alloc, "listed")?;
    for (number, identity) in keeper.identities(alloc)? {
        let entry = format!(in alloc;
            " {number} {} {};",
            identity.address.as_str(),
            identity.name.as_str()
        )?;
        line.push_str(&entry)?;
    }
    Ok(line)
}

fn state_name(state: &Option<SendState>) -> &'static str {
    match state {
        Some(SendState::Started) => "started",
        Some(SendState::Done) => "done",
        Some(SendState::Doubt) => "doubt",
        None => "none",
    }
}

fn state_of(name: &str) -> Option<SendState> {
    match name {
        "started" => Some(SendState::Started),
        "done" => Some(SendState::Done),
        "doubt" => Some(SendState::Doubt),
        _ => None,
    }
}
