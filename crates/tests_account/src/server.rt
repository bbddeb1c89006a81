//! A link to a mail server in memory.
ghost use Rattle.std.specs.Prelude.{◌≡◌, IsErr, None};
ghost use Rattle.mail_io.specs.Causes.{HasCause};

use crate::replies::Replies;
use mail_io::{Failed, Link, Memory};
use std::alloc::Global;
use std::str;

/// A link to a server that answers each command. It tells no talk.
#[derive(Drop)]
pub struct Server {
    replies: Replies,
    /// What is still to be said, if the server insists on it.
    script: Option<&'static str>,
    calls: u64,
    /// The number of the call that fails, from 1. If it is 0, none does.
    failing: u64,
    faults: u64,
}

impl Server {
    /// A server whose answers are those of `change`, and else those of `MAIL`.
    pub fn new(alloc: Global, change: &'static str, failing: u64) -> Result<Self, Memory> {
        Ok(Server {
            replies: Replies::new(alloc, change)?,
            script: None,
            calls: 0,
            failing,
            faults: 0,
        })
    }

    /// Makes the server fail if anything else than `script` is said.
    pub fn insist(&mut self, script: &'static str) {
        self.script = Some(script);
    }

    /// Counts a call, and returns whether it fails whatever it is.
    fn begin(&mut self) -> bool
        ensures { self.new.faults ≡ self.old.faults }
    {
        self.calls = self.calls.saturating_add(1);
        self.calls == self.failing
    }

    fn fail<T>(&mut self) -> Result<T, Failed>
        ensures cause { HasCause self.old.faults self.new.faults result }
        ensures err { IsErr result }
    {
        self.faults = self.faults.saturating_add(1);
        Err(Failed)
    }

    /// Whether `text` may be said now.
    fn expects(&mut self, text: &str) -> bool
        ensures { self.new.faults ≡ self.old.faults }
    {
        match self.script {
            Some(script) => match script.strip_prefix(text) {
                Some(rest) => {
                    self.script = Some(rest);
                    true
                }
                None => false,
            },
            None => true,
        }
    }
}

impl Link for Server {
    ghost talk = { λ _. None };

    ghost faults = { λ s. s.faults };

    fn redial(&mut self, _fresh: bool) -> Result<(), Failed> {
        if self.begin() || self.replies.answer("", "GREETING").is_err() {
            return self.fail();
        }
        Ok(())
    }

    fn send(&mut self, bytes: &[u8]) -> Result<(), Failed> {
        let text = str::from_utf8(bytes).unwrap_or("");
        let (tag, command) = text.split_once(' ').unwrap_or(("", ""));
        if self.begin() || !self.expects(text) || self.replies.answer(tag, command).is_err() {
            return self.fail();
        }
        Ok(())
    }

    fn receive(&mut self, room: &mut [u8]) -> Result<usize, Failed> {
        if self.begin() {
            return self.fail();
        }
        match self.replies.take(room) {
            0 => self.fail(),
            count => Ok(count),
        }
    }
}
