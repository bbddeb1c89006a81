//! Writes commands.
ghost use Rattle.std.specs.Prelude.{◌≡◌, ◌++◌, ◌∷◌, [], map, codes, decimal, IfOk, OnOk, List, ℕ};
ghost use Rattle.std.specs.List.{concat};
ghost use Rattle.imap_commands.specs.Pieces.Part.{Words, Text as Str, Literal};
ghost use Rattle.imap_commands.specs.Written.{bytes_of_vecs, AppendsPart, AppendsParts};
ghost use Rattle.imap_commands.specs.Commands.{command_pieces, command_parts, tag_parts, label_word, label_words, known_parts, mark_parts, resync_parts, sign};
ghost use Rattle.imap_commands.specs.CommandGrammar.{command_of};
ghost use Rattle.imap_commands.specs.ReadBack.{written_form, FitsFieldTypes, KnownFitsFieldTypes, HasNoCommandPrefix};

use crate::command::{Command, Known, Label};
use crate::pieces::Pieces;
use std::alloc::{AllocError as Memory, Global};

/// Encodes a command with the tag `A` and a number into the pieces to send. The client awaits the server's `+` between two pieces.
#[tactic(auto, unfolding(crate::specs::Commands::command_pieces))]
pub fn write(alloc: Global, command: &Command, tag: u32) -> Result<Vec<Vec<u8>>, Memory>
    ensures equals { IfOk result (λ pieces. bytes_of_vecs pieces.items ≡ command_pieces tag command.now) }
    ensures parses { IfOk result (λ pieces. command_of (concat (bytes_of_vecs pieces.items)) ≡ Some (tag, written_form command.now)) }
    ensures no_prefix_parses { IfOk result (λ pieces. HasNoCommandPrefix (concat (bytes_of_vecs pieces.items))) }
{
    let mut pieces = Pieces::new(alloc);
    write_tag(&mut pieces, tag)?;
    write_parts(alloc, &mut pieces, command)?;
    pieces.finish()
}

#[tactic(auto, using(crate::proofs::PieceLemmas::goes_three))]
fn write_tag(pieces: &mut Pieces, tag: u32) -> Result<(), Memory>
    ensures { OnOk result (AppendsParts pieces.old pieces.new (tag_parts tag)) }
{
    pieces.push_words("A")?;
    pieces.push_u32(tag)?;
    pieces.push_words(" ")?;
    Ok(())
}

#[tactic(auto, unfolding(crate::specs::Commands::command_parts))]
fn write_parts(alloc: Global, pieces: &mut Pieces, command: &Command) -> Result<(), Memory>
    ensures parts { OnOk result (AppendsParts pieces.old pieces.new (command_parts command.now)) }
    ensures fits { OnOk result (FitsFieldTypes command.now) }
{
    match command {
        Command::Login { user, password } => {
            write_login(alloc, pieces, user.as_str(), password.as_str())
        }
        Command::Capability => pieces.push_words("CAPABILITY"),
        Command::Enable => pieces.push_words("ENABLE IMAP4rev2 QRESYNC"),
        Command::List => pieces.push_words("LIST \"\" \"*\""),
        Command::Select { folder, known } => write_select(alloc, pieces, folder.as_str(), known),
        Command::Noop => pieces.push_words("NOOP"),
        Command::FetchNew { from } => write_fetch(
            pieces,
            *from,
            ":* (UID FLAGS MODSEQ INTERNALDATE RFC822.SIZE BODY.PEEK[HEADER.FIELDS (DATE FROM TO CC SUBJECT MESSAGE-ID IN-REPLY-TO REFERENCES)])",
        ),
        Command::FetchChanged { mark } => write_changed(pieces, *mark),
        Command::FetchBody { uid } => write_fetch(pieces, *uid, " (UID BODY.PEEK[])"),
        Command::Search { words } => write_search(alloc, pieces, words.as_str()),
        Command::Store { uid, label, on } => write_store(pieces, *uid, *label, *on),
        Command::Move { uid, to } => write_move(alloc, pieces, *uid, to.as_str()),
        Command::Expunge { uid } => write_expunge(pieces, *uid),
        Command::Append {
            folder,
            label,
            message,
        } => write_append(alloc, pieces, folder.as_str(), label, message.as_slice()),
    }
}

fn write_login(alloc: Global, pieces: &mut Pieces, user: &str, password: &str) -> Result<(), Memory>
    ensures { OnOk result (AppendsParts pieces.old pieces.new (Words (codes "LOGIN ") ∷ Str user.now ∷ Words (codes " ") ∷ Str password.now ∷ [])) }
{
    pieces.push_words("LOGIN ")?;
    pieces.push_string(alloc, user)?;
    pieces.push_words(" ")?;
    pieces.push_string(alloc, password)?;
    Ok(())
}

fn write_select(
    alloc: Global,
    pieces: &mut Pieces,
    folder: &str,
    known: &Option<Known>,
) -> Result<(), Memory>
    ensures parts { OnOk result (AppendsParts pieces.old pieces.new (Words (codes "SELECT ") ∷ Str folder.now ∷ known_parts known.now)) }
    ensures fits { OnOk result (KnownFitsFieldTypes known.now) }
{
    pieces.push_words("SELECT ")?;
    pieces.push_string(alloc, folder)?;
    write_known(pieces, known)?;
    Ok(())
}

/// Writes the QRESYNC parameters of a SELECT, if there are any.
fn write_known(pieces: &mut Pieces, known: &Option<Known>) -> Result<(), Memory>
    ensures parts { OnOk result (AppendsParts pieces.old pieces.new (known_parts known.now)) }
    ensures fits { OnOk result (KnownFitsFieldTypes known.now) }
{
    match known {
        Some(known) => write_mark(pieces, *known),
        None => Ok(()),
    }
}

fn write_mark(pieces: &mut Pieces, known: Known) -> Result<(), Memory>
    ensures parts { OnOk result (AppendsParts pieces.old pieces.new (mark_parts known)) }
    ensures fits { KnownFitsFieldTypes (Some known) }
{
    if known.mark == 0 {
        Ok(())
    } else {
        write_resync(pieces, known)
    }
}

fn write_resync(pieces: &mut Pieces, known: Known) -> Result<(), Memory>
    ensures { OnOk result (AppendsParts pieces.old pieces.new (resync_parts known)) }
{
    pieces.push_words(" (QRESYNC (")?;
    pieces.push_u32(known.validity)?;
    pieces.push_words(" ")?;
    pieces.push_number(known.mark)?;
    pieces.push_words("))")?;
    Ok(())
}

fn write_fetch(pieces: &mut Pieces, from: u32, items: &str) -> Result<(), Memory>
    ensures { OnOk result (AppendsParts pieces.old pieces.new (Words (codes "UID FETCH ") ∷ Words (decimal from) ∷ Words items.now ∷ [])) }
{
    pieces.push_words("UID FETCH ")?;
    pieces.push_u32(from)?;
    pieces.push_words(items)?;
    Ok(())
}

fn write_changed(pieces: &mut Pieces, mark: u64) -> Result<(), Memory>
    ensures { OnOk result (AppendsParts pieces.old pieces.new (Words (codes "UID FETCH 1:* (UID FLAGS MODSEQ) (CHANGEDSINCE ") ∷ Words (decimal mark) ∷ Words (codes " VANISHED)") ∷ [])) }
{
    pieces.push_words("UID FETCH 1:* (UID FLAGS MODSEQ) (CHANGEDSINCE ")?;
    pieces.push_number(mark)?;
    pieces.push_words(" VANISHED)")?;
    Ok(())
}

fn write_search(alloc: Global, pieces: &mut Pieces, words: &str) -> Result<(), Memory>
    ensures { OnOk result (AppendsParts pieces.old pieces.new (Words (codes "UID SEARCH RETURN (ALL) TEXT ") ∷ Str words.now ∷ [])) }
{
    pieces.push_words("UID SEARCH RETURN (ALL) TEXT ")?;
    pieces.push_string(alloc, words)?;
    Ok(())
}

fn write_store(pieces: &mut Pieces, uid: u32, label: Label, on: bool) -> Result<(), Memory>
    ensures { OnOk result (AppendsParts pieces.old pieces.new (Words (codes "UID STORE ") ∷ Words (decimal uid) ∷ Words (sign on) ∷ Words (label_word label) ∷ Words (codes ")") ∷ [])) }
{
    pieces.push_words("UID STORE ")?;
    pieces.push_u32(uid)?;
    write_sign(pieces, on)?;
    write_label(pieces, label)?;
    pieces.push_words(")")?;
    Ok(())
}

fn write_sign(pieces: &mut Pieces, on: bool) -> Result<(), Memory>
    ensures { OnOk result (AppendsPart pieces.old pieces.new (Words (sign on))) }
{
    if on {
        pieces.push_words(" +FLAGS (")
    } else {
        pieces.push_words(" -FLAGS (")
    }
}

fn write_label(pieces: &mut Pieces, label: Label) -> Result<(), Memory>
    ensures { OnOk result (AppendsPart pieces.old pieces.new (Words (label_word label))) }
{
    pieces.push_words(label_word(label))
}

fn write_labels(pieces: &mut Pieces, label: &Option<Label>) -> Result<(), Memory>
    ensures { OnOk result (AppendsPart pieces.old pieces.new (Words (label_words label.now))) }
{
    pieces.push_words(label_words(label))
}

fn label_word(label: Label) -> &'static str
    ensures { result.now ≡ label_word label }
{
    match label {
        Label::Seen => "\\Seen",
        Label::Flagged => "\\Flagged",
        Label::Answered => "\\Answered",
        Label::Deleted => "\\Deleted",
        Label::Draft => "\\Draft",
    }
}

fn label_words(label: &Option<Label>) -> &'static str
    ensures { result.now ≡ label_words label.now }
{
    match label {
        Some(label) => label_word(*label),
        None => "",
    }
}

fn write_move(alloc: Global, pieces: &mut Pieces, uid: u32, to: &str) -> Result<(), Memory>
    ensures { OnOk result (AppendsParts pieces.old pieces.new (Words (codes "UID MOVE ") ∷ Words (decimal uid) ∷ Words (codes " ") ∷ Str to.now ∷ [])) }
{
    pieces.push_words("UID MOVE ")?;
    pieces.push_u32(uid)?;
    pieces.push_words(" ")?;
    pieces.push_string(alloc, to)?;
    Ok(())
}

fn write_expunge(pieces: &mut Pieces, uid: u32) -> Result<(), Memory>
    ensures { OnOk result (AppendsParts pieces.old pieces.new (Words (codes "UID EXPUNGE ") ∷ Words (decimal uid) ∷ [])) }
{
    pieces.push_words("UID EXPUNGE ")?;
    pieces.push_u32(uid)?;
    Ok(())
}

fn write_append(
    alloc: Global,
    pieces: &mut Pieces,
    folder: &str,
    label: &Option<Label>,
    message: &[u8],
) -> Result<(), Memory>
    ensures { OnOk result (AppendsParts pieces.old pieces.new (Words (codes "APPEND ") ∷ Str folder.now ∷ Words (codes " (") ∷ Words (label_words label.now) ∷ Words (codes ") ") ∷ Literal message.now ∷ [])) }
{
    pieces.push_words("APPEND ")?;
    pieces.push_string(alloc, folder)?;
    pieces.push_words(" (")?;
    write_labels(pieces, label)?;
    pieces.push_words(") ")?;
    pieces.push_literal(alloc, message)?;
    Ok(())
}
