//! The bytes that a link in memory gives.
ghost use Rattle.std.specs.Prelude.{◌≡◌, ◌≤◌, [], length};
ghost use Rattle.mail_io.specs.Scripts.{front_chunk, chunks_after, script_of};

use crate::{Bytes, Words};
use std::alloc::Global;
use std::collections::VecDeque;
use std::marker::Model;

/// What a server sends after each dial, in chunks.
#[derive(Drop)]
pub struct Script {
    alloc: Global,
    chunks: VecDeque<Bytes>,
    at: usize,
    dials: VecDeque<Words>,
}

impl Model for Script {
    ghost use Rattle.std.specs.Prelude.{◌≤◌, length};
    ghost use Rattle.mail_io.specs.Scripts.{ScriptState, drop_front, front_chunk};

    ghost Value = { ScriptState };

    ghost view = { λ s. record { chunks = drop_front s.at s.chunks.items; dials = s.dials.items } };

    ghost invariant = { λ s. s.at ≤ length (front_chunk s.chunks.items) };
}

impl Script {
    /// The script of the dials, before the first of them.
    pub fn new(alloc: Global, dials: Vec<Words>) -> Self
        ensures { result ≡ record { chunks = []; dials = dials.items } }
    {
        Script {
            alloc,
            chunks: VecDeque::new(alloc),
            at: 0,
            dials: VecDeque::from_vec(dials),
        }
    }

    /// Begins the next dial. What is left of this one is lost.
    pub fn redial(&mut self)
        ensures { self.new ≡ script_of self.old.dials }
    {
        self.at = 0;
        self.chunks = match self.dials.pop_front() {
            Some(dial) => VecDeque::from_vec(dial.into_vec()),
            None => VecDeque::new(self.alloc),
        };
    }

    /// The bytes that are left of the first chunk.
    pub fn front(&self) -> &[u8]
        ensures { result.now ≡ front_chunk self.now.chunks }
    {
        match self.chunks.front() {
            Some(chunk) => &chunk.as_slice()[self.at..],
            None => &[],
        }
    }

    /// Passes over the first `count` bytes of the first chunk.
    pub fn advance(&mut self, count: usize)
        requires { count ≤ length (front_chunk self.old.chunks) }
        ensures { self.new ≡ record { chunks = chunks_after count self.old.chunks; dials = self.old.dials } }
    {
        if count < first_len(&self.chunks) - self.at {
            self.at += count;
        } else {
            self.chunks.pop_front();
            self.at = 0;
        }
    }
}

/// The length of the first chunk, 0 if there is none.
fn first_len(chunks: &VecDeque<Bytes>) -> usize
    ensures { result ≡ length (front_chunk chunks.now.items) }
{
    match chunks.front() {
        Some(chunk) => chunk.as_slice().len(),
        None => 0,
    }
}
