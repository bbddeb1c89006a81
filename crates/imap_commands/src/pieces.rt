//! Writes the pieces of a command, part by part.
ghost use Rattle.std.specs.Prelude.{◌≡◌, ◌++◌, ◌∷◌, [], List, ℕ, map, IfOk, OnOk, decimal};
ghost use Rattle.std.specs.List.{list_all, flat_map};
ghost use Rattle.imap_commands.specs.Pieces.{Part, pieces_of, is_plain, is_quotable, quoted, quoted_byte, literal_size};
ghost use Rattle.imap_commands.specs.Pieces.Part.{Words, Text as Str, Literal};
ghost use Rattle.imap_commands.specs.Written.{bytes_of_vecs, pieces_with, AppendsPart};

use itoa::Buffer;
use std::alloc::{AllocError as Memory, Global};

/// The maximum length of a quoted string in bytes.
const QUOTED: usize = 1_000;

/// The pieces so far: the complete ones, and the last, which is being written.
#[derive(Drop)]
pub struct Pieces {
    whole: Vec<Vec<u8>>,
    last: Vec<u8>,
}

impl Pieces {
    #[tactic(auto, using(crate::proofs::PieceLemmas::nothing_before))]
    pub fn new(alloc: Global) -> Self
        ensures { (more : List Part) → pieces_with result more ≡ pieces_of more }
    {
        Pieces {
            whole: Vec::new(alloc),
            last: Vec::new(alloc),
        }
    }

    /// Appends words as they are.
    #[tactic(auto, using(crate::proofs::PieceLemmas::words_go))]
    pub fn push_words(&mut self, words: &str) -> Result<(), Memory>
        ensures { OnOk result (AppendsPart self.old self.new (Words words.now)) }
    {
        self.last.extend_from_slice(words.as_bytes())
    }

    /// Appends a number in decimal.
    pub fn push_number(&mut self, number: u64) -> Result<(), Memory>
        ensures { OnOk result (AppendsPart self.old self.new (Words (decimal number))) }
    {
        self.push_words(Buffer::new().format(number))
    }

    /// Appends a number of 32 bits in decimal.
    pub fn push_u32(&mut self, number: u32) -> Result<(), Memory>
        ensures { OnOk result (AppendsPart self.old self.new (Words (decimal number))) }
    {
        self.push_number(u64::from(number))
    }

    /// Appends a string: quoted if possible, and else as a literal.
    #[tactic(auto, unfolding(crate::specs::Pieces::pieces_of))]
    pub fn push_string(&mut self, alloc: Global, text: &str) -> Result<(), Memory>
        ensures { OnOk result (AppendsPart self.old self.new (Str text.now)) }
    {
        if is_quotable(text.as_bytes()) {
            self.push_quoted(text.as_bytes())
        } else {
            self.push_literal(alloc, text.as_bytes())
        }
    }

    #[tactic(auto, using(crate::proofs::PieceLemmas::words_go))]
    fn push_quoted(&mut self, text: &[u8]) -> Result<(), Memory>
        ensures { OnOk result (AppendsPart self.old self.new (Words (quoted text.now))) }
    {
        append_quoted(&mut self.last, text)
    }

    /// Appends a literal: its size ends the piece, and its bytes begin the next.
    #[tactic(auto, using(crate::proofs::PieceLemmas::literal_goes))]
    pub fn push_literal(&mut self, alloc: Global, bytes: &[u8]) -> Result<(), Memory>
        ensures { OnOk result (AppendsPart self.old self.new (Literal bytes.now)) }
    {
        append_size(&mut self.last, bytes.len())?;
        let next = Vec::from_slice(alloc, bytes)?;
        self.whole.push(std::mem::replace(&mut self.last, next))?;
        Ok(())
    }

    /// Ends the last piece, and returns all pieces.
    #[tactic(auto, using(crate::proofs::PieceLemmas::ends))]
    pub fn finish(self) -> Result<Vec<Vec<u8>>, Memory>
        ensures { IfOk result (λ pieces. bytes_of_vecs pieces.items ≡ pieces_with self []) }
    {
        let mut last = self.last;
        last.extend_from_slice(b"\r\n")?;
        let mut whole = self.whole;
        whole.push(last)?;
        Ok(whole)
    }
}

/// Appends the size of a literal.
fn append_size(piece: &mut Vec<u8>, size: usize) -> Result<(), Memory>
    ensures { OnOk result (piece.new.items ≡ piece.old.items ++ literal_size size) }
{
    piece.push(b'{')?;
    piece.extend_from_slice(Buffer::new().format(size).as_bytes())?;
    piece.extend_from_slice(b"}\r\n")
}

fn is_quotable(text: &[u8]) -> bool
    ensures { result ≡ is_quotable text.now }
{
    text.len() <= QUOTED && is_plain(text)
}

fn is_plain(text: &[u8]) -> bool
    ensures { result ≡ list_all is_plain text.now }
{
    text.iter().all(|b| *b >= 32 && *b <= 126)
}

fn append_quoted(bytes: &mut Vec<u8>, text: &[u8]) -> Result<(), Memory>
    ensures { OnOk result (bytes.new.items ≡ bytes.old.items ++ quoted text.now) }
{
    bytes.push(b'"')?;
    append_escaped(bytes, text)?;
    bytes.push(b'"')?;
    Ok(())
}

fn append_escaped(bytes: &mut Vec<u8>, text: &[u8]) -> Result<(), Memory>
    ensures { OnOk result (bytes.new.items ≡ bytes.old.items ++ flat_map quoted_byte text.now) }
{
    for byte in text {
        append_quoted_byte(bytes, *byte)?;
    }
    Ok(())
}

fn append_quoted_byte(bytes: &mut Vec<u8>, byte: u8) -> Result<(), Memory>
    ensures { OnOk result (bytes.new.items ≡ bytes.old.items ++ quoted_byte byte) }
{
    if byte == b'"' || byte == b'\\' {
        bytes.push(b'\\')?;
    }
    bytes.push(byte)?;
    Ok(())
}
