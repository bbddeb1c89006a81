//! Writes one page of the site, made from a made-up mailbox or from the message on standard input.
//!
//! `mailbox.rt` has the mailbox, `lists.rt` the pages that list it, `forms.rt` the pages with forms, and `repeated.rt` pages of a long mailbox.
#![tactic(auto)]

mod forms;
mod lists;
mod mailbox;
mod message;
mod repeated;

use mail_io::WriterSink;
use mail_pages::{PageBytes, WRITE_ROOM, write_page};
use mailbox_rows::ViewFault;
use site_asks::How;
use std::alloc::Global;
use std::io::Read;
use std::process::ExitCode;
use std::{env, io};

const USAGE: &str =
    "usage: draw_pages folders|list|search|threads|show|show-images|reply|forward|compose|identities|login|fault [SECTION]
       draw_pages repeat-list|repeat-threads ROWS TIMES PAGE";

fn main(rt: HostRuntime) -> io::Result<ExitCode> {
    let words = env::args(&rt)?.skip(1).collect::<Vec<String>>(rt.alloc())?;
    let mut input = Vec::new(rt.alloc());
    rt.stdin().read_to_end(&mut input)?;
    let page = match draw(rt.alloc(), &words, &input) {
        Ok(Some(page)) => page,
        Ok(None) => {
            eprintln!(rt; "{USAGE}")?;
            return Ok(ExitCode::from(2));
        }
        Err(_) => return Ok(ExitCode::FAILURE),
    };
    let mut room = Vec::with_capacity(rt.alloc(), WRITE_ROOM)?;
    match write_page(&mut WriterSink::new(rt.stdout()), &page, &mut room) {
        Ok(()) => Ok(ExitCode::SUCCESS),
        Err(_) => Ok(ExitCode::FAILURE),
    }
}

/// The page that the words name, if there is one.
fn draw(alloc: Global, words: &[String], input: &[u8]) -> Result<Option<PageBytes>, ViewFault> {
    let kind = words.first().map_or("", |word| word.as_str());
    let section = words.get(1).map_or("", |word| word.as_str());
    match kind {
        "repeat-list" => repeated::list(
            alloc,
            number(words, 1),
            number(words, 2),
            number(words, 3),
        ),
        "repeat-threads" => {
            repeated::threads(alloc, number(words, 1), number(words, 2), number(words, 3))
        }
        "show" => Ok(message::show(alloc, input, section, false)?),
        "show-images" => Ok(message::show(alloc, input, section, true)?),
        "reply" => Ok(Some(forms::made_from(alloc, input, How::Reply)?)),
        "forward" => Ok(Some(forms::made_from(alloc, input, How::Forward)?)),
        _ => draw_fixed(alloc, kind),
    }
}

/// The number that a word is, or 0.
fn number(words: &[String], place: usize) -> u32 {
    match words.get(place) {
        Some(word) => word.parse::<u32>().unwrap_or(0),
        None => 0,
    }
}

/// The page of a kind that is made without a message.
fn draw_fixed(alloc: Global, kind: &str) -> Result<Option<PageBytes>, ViewFault> {
    let page = match kind {
        "folders" => lists::folders(alloc)?,
        "list" => lists::list(alloc)?,
        "search" => lists::search(alloc)?,
        "threads" => lists::threads(alloc)?,
        "compose" => forms::compose(alloc)?,
        "identities" => forms::identities(alloc)?,
        "login" => forms::login(alloc)?,
        "fault" => forms::fault(alloc)?,
        _ => return Ok(None),
    };
    Ok(Some(page))
}
