//! The drafts that a member begins with.
ghost use Rattle.std.specs.Prelude.{◌≡◌, [], IfOk};
ghost use Rattle.mime_tree.specs.Opening.{tree_of};
ghost use Rattle.draft_sources.specs.Drafts.{draft_of, edit_of, first_identity, forward_of, marked_subject, new_draft, reply_of, value_of};

use crate::lines::shown_text;
use crate::references::{field_refs, reply_refs};
use account_pictures::{Address, Identity};
use header_words::{Fields, base_subject, decoded};
use mail_values::Text;
use mime_tree::{Tree, tree};
use site_asks::{Draft, How};
use std::alloc::{AllocError, Global};

fn empty(alloc: Global) -> Text
    ensures { result ≡ [] }
{
    Text::from_string(String::new(alloc))
}

/// Returns a draft with nothing in it. `form` is the number of its form, `identity` that of its sender.
pub fn new_draft(alloc: Global, form: u64, identity: u8) -> Draft
    ensures { result ≡ new_draft form identity }
{
    Draft {
        form,
        identity,
        to: empty(alloc),
        cc: empty(alloc),
        subject: empty(alloc),
        text: empty(alloc),
        refs: empty(alloc),
        old: None,
    }
}

/// Returns the draft that is made from a message: a reply to its sender with the shown text quoted, a forward of that text, or
/// the saved draft at the address `at`, which it replaces. `form` is the number of its form, `identity` that of its sender.
pub fn draft_of(
    alloc: Global,
    message: &[u8],
    how: How,
    at: &Address,
    form: u64,
    identity: u8,
) -> Result<Draft, AllocError>
    ensures { IfOk result (λ draft. draft ≡ draft_of (tree_of message.now) how at.now form identity) }
{
    let tree = tree(alloc, message)?;
    match how {
        How::Reply => reply(alloc, &tree, form, identity),
        How::Forward => forward(alloc, &tree, form, identity),
        How::Edit => edit(alloc, &tree, at, form, identity),
    }
}

/// Returns the lowest number of the kept identities, or 1 if none is kept.
pub fn first_identity(kept: &[(u8, Identity)]) -> u8
    ensures { result ≡ first_identity kept.now }
{
    let [first, more @ ..] = kept else {
        return 1;
    };
    let mut lowest = first.0;
    for other in more {
        lowest = lowest.min(other.0);
    }
    lowest
}

/// Returns the decoded value of the first field of a name, or an empty text.
#[tactic(auto, unfolding(crate::specs::Drafts::value_of))]
fn value_of(alloc: Global, fields: &Fields<'_>, name: &str) -> Result<Text, AllocError>
    ensures { IfOk result (λ text. text ≡ value_of name.now fields.now) }
{
    match fields.first(name) {
        Some(field) => Ok(Text::from_string(decoded(alloc, &field)?)),
        None => Ok(empty(alloc)),
    }
}

/// Returns the base subject after a mark.
fn marked_subject(alloc: Global, fields: &Fields<'_>, mark: &str) -> Result<Text, AllocError>
    ensures { IfOk result (λ text. text ≡ marked_subject mark.now fields.now) }
{
    let subject = value_of(alloc, fields, "Subject")?;
    let base = base_subject(alloc, subject.as_str())?;
    let mut marked = String::from_str(alloc, mark)?;
    marked.push_str(base.text.as_str())?;
    Ok(Text::from_string(marked))
}

#[tactic(auto, unfolding(crate::specs::Drafts::reply_of))]
fn reply(alloc: Global, tree: &Tree<'_>, form: u64, identity: u8) -> Result<Draft, AllocError>
    ensures { IfOk result (λ draft. draft ≡ reply_of tree.now form identity) }
{
    let fields = tree.fields();
    Ok(Draft {
        form,
        identity,
        to: value_of(alloc, fields, "From")?,
        cc: empty(alloc),
        subject: marked_subject(alloc, fields, "Re: ")?,
        text: shown_text(alloc, tree, true)?,
        refs: reply_refs(alloc, fields)?,
        old: None,
    })
}

#[tactic(auto, unfolding(crate::specs::Drafts::forward_of))]
fn forward(alloc: Global, tree: &Tree<'_>, form: u64, identity: u8) -> Result<Draft, AllocError>
    ensures { IfOk result (λ draft. draft ≡ forward_of tree.now form identity) }
{
    Ok(Draft {
        form,
        identity,
        to: empty(alloc),
        cc: empty(alloc),
        subject: marked_subject(alloc, tree.fields(), "Fwd: ")?,
        text: shown_text(alloc, tree, false)?,
        refs: empty(alloc),
        old: None,
    })
}

#[tactic(auto, unfolding(crate::specs::Drafts::edit_of))]
fn edit(
    alloc: Global,
    tree: &Tree<'_>,
    at: &Address,
    form: u64,
    identity: u8,
) -> Result<Draft, AllocError>
    ensures { IfOk result (λ draft. draft ≡ edit_of tree.now at.now form identity) }
{
    let fields = tree.fields();
    Ok(Draft {
        form,
        identity,
        to: value_of(alloc, fields, "To")?,
        cc: value_of(alloc, fields, "Cc")?,
        subject: value_of(alloc, fields, "Subject")?,
        text: shown_text(alloc, tree, false)?,
        refs: field_refs(alloc, fields)?,
        old: Some(copy_address(alloc, at)?),
    })
}

fn copy_address(alloc: Global, at: &Address) -> Result<Address, AllocError>
    ensures { IfOk result (λ copied. copied ≡ at.now) }
{
    Ok(Address {
        folder: Text::from_text(alloc, at.folder.as_str())?,
        validity: at.validity,
        uid: at.uid,
    })
}
