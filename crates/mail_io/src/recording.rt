//! A talk as a link in memory records it.
ghost use Rattle.std.specs.Prelude.{◌≡◌, ◌<◌, ◌≤◌, nat_lt, Bool, true, false, [], ℕ, List, length, Some, IfOk};
ghost use Rattle.account_pictures.specs.declared.talk.Piece.TheVariants as pieces;
ghost use Rattle.mail_io.specs.Recordings.{entry_len, piece_of, pieces_of, entries_len, with_piece, with_nothing_said};
ghost use Rattle.mail_io.specs.Talks.{SaysPrefix};

use crate::{Bytes, Piece};
use std::alloc::{AllocError, Global};
use std::marker::Model;

/// A recorded piece, whose bytes are in a buffer that the entries share.
#[derive(Clone, Copy, Debug, PartialEq, Eq)]
pub enum Entry {
    Dialled { fresh: bool },
    Said { len: usize },
    Heard { len: usize },
}

impl Entry {
    /// The number of bytes that the entry has in the buffer.
    fn len(&self) -> usize
        ensures { result ≡ entry_len self.now }
    {
        match self {
            Entry::Dialled { .. } => 0,
            Entry::Said { len } | Entry::Heard { len } => *len,
        }
    }

    /// The piece of the entry, whose bytes are these.
    fn piece(&self, alloc: Global, bytes: &[u8]) -> Result<Piece, AllocError>
        requires { entry_len self.now ≡ length bytes.now }
        ensures { IfOk result (λ piece. piece ≡ piece_of self.now bytes.now) }
    {
        match self {
            Entry::Dialled { fresh } => Ok(Piece::Dialled { fresh: *fresh }),
            Entry::Said { .. } => Ok(Piece::Said(Bytes::from_slice(alloc, bytes)?)),
            Entry::Heard { .. } => Ok(Piece::Heard(Bytes::from_slice(alloc, bytes)?)),
        }
    }
}

/// A talk, in room that is made beforehand.
#[derive(Drop)]
pub struct Recording {
    entries: Vec<Entry>,
    bytes: Vec<u8>,
    byte_room: usize,
    entry_room: usize,
}

impl Model for Recording {
    ghost use Rattle.std.specs.Prelude.{◌≤◌, ◌<◌, vec_capacity};
    ghost use Rattle.mail_io.specs.Recordings.{RecordingState, IsRecording, view_of};

    ghost Value = { RecordingState };

    ghost view = { λ r. view_of r.byte_room r.entry_room r.entries.items r.bytes.items };

    ghost invariant = { λ r. IsRecording r.byte_room r.entry_room r.entries.items r.bytes.items × (r.byte_room ≤ vec_capacity r.bytes) × (r.entry_room < vec_capacity r.entries) };
}

impl Recording {
    /// An empty recording with room for `bytes` bytes and `entries` entries, and one entry more.
    pub fn new(alloc: Global, bytes: usize, entries: usize) -> Result<Self, AllocError>
        ensures { IfOk result (λ r. r ≡ record { talk = []; byte_room = bytes; entry_room = entries; is_closed = false }) }
    {
        let Some(all) = entries.checked_add(1) else {
            return Err(AllocError);
        };
        Ok(Recording {
            entries: Vec::with_capacity(alloc, all)?,
            bytes: Vec::with_capacity(alloc, bytes)?,
            byte_room: bytes,
            entry_room: entries,
        })
    }

    /// The number of bytes that there is still room for.
    pub fn byte_room(&self) -> usize
        ensures { result ≡ self.now.byte_room }
    {
        self.byte_room - self.bytes.len()
    }

    /// The number of entries that there is still room for, without the one more.
    pub fn entry_room(&self) -> usize
        ensures { result ≡ self.now.entry_room }
    {
        self.entry_room.saturating_sub(self.entries.len())
    }

    /// The pieces so far.
    pub fn pieces(&self, alloc: Global) -> Result<Vec<Piece>, AllocError>
        ensures { IfOk result (λ pieces. pieces.items ≡ self.now.talk) }
    {
        read_pieces(alloc, &self.entries, &self.bytes)
    }

    /// Records that the link was dialled.
    pub fn dial(&mut self, fresh: bool)
        requires room { 0 < self.old.entry_room }
        ensures { self.new ≡ with_piece self.old (pieces.Dialled fresh) 0 }
    {
        self.record(Entry::Dialled { fresh }, &[]);
    }

    /// Records that bytes were said.
    pub fn say(&mut self, bytes: &[u8])
        requires room { 0 < self.old.entry_room }
        requires byte_room { length bytes.now ≤ self.old.byte_room }
        ensures { self.new ≡ with_piece self.old (pieces.Said bytes.now) (length bytes.now) }
    {
        self.record(Entry::Said { len: bytes.len() }, bytes);
    }

    /// Records that bytes were heard.
    pub fn hear(&mut self, bytes: &[u8])
        requires room { 0 < self.old.entry_room }
        requires byte_room { length bytes.now ≤ self.old.byte_room }
        ensures { self.new ≡ with_piece self.old (pieces.Heard bytes.now) (length bytes.now) }
    {
        self.record(Entry::Heard { len: bytes.len() }, bytes);
    }

    fn record(&mut self, entry: Entry, bytes: &[u8])
        requires len { entry_len entry ≡ length bytes.now }
        requires room { 0 < self.old.entry_room }
        requires byte_room { length bytes.now ≤ self.old.byte_room }
        ensures { self.new ≡ with_piece self.old (piece_of entry bytes.now) (length bytes.now) }
    {
        self.bytes.extend_from_slice(bytes).unwrap();
        self.entries.push(entry).unwrap();
    }

    /// Records that no bytes were said, for which there is one entry more. With that taken too, nothing is recorded.
    pub fn say_nothing(&mut self)
        ensures says { self.old.is_closed ≡ false → self.new ≡ with_nothing_said self.old }
        ensures stays { self.old.is_closed ≡ true → self.new ≡ self.old }
        ensures says_prefix { (bytes : List ℕ) → 0 < length bytes → SaysPrefix (Some self.old.talk) (Some self.new.talk) bytes }
    {
        if self.entries.len() <= self.entry_room {
            self.entries.push(Entry::Said { len: 0 }).unwrap();
        }
    }
}

/// The pieces of entries whose bytes follow each other.
#[tactic(auto, unfolding(crate::specs::Recordings::pieces_of, crate::specs::Recordings::entries_len))]
fn read_pieces(alloc: Global, entries: &[Entry], bytes: &[u8]) -> Result<Vec<Piece>, AllocError>
    requires { entries_len entries.now ≡ length bytes.now }
    ensures { IfOk result (λ read. read.items ≡ pieces_of entries.now bytes.now) }
{
    let mut read = Vec::new(alloc);
    let mut rest = entries;
    let mut left = bytes;
    while let [entry, more @ ..] = rest {
        let (front, after) = left.split_at(entry.len());
        read.push(entry.piece(alloc, front)?)?;
        rest = more;
        left = after;
    }
    Ok(read)
}
