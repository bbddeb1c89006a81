//! The forms after a shown message.
ghost use Rattle.std.specs.Prelude.{◌≡◌, OnOk, IsTrue};
ghost use Rattle.page_writer.specs.Page.{takes_tags};
ghost use Rattle.page_frames.specs.Elements.{with_tokens};
ghost use Rattle.mail_pages.specs.Actions.{message_inputs, seen_inputs, seen_form, delete_form, move_form, message_forms, actions};

use crate::frame::Frame;
use account_pictures::Address;
use itoa::Buffer;
use page_frames::{close_form, open_form, write_hidden, write_visible};
use page_writer::{Memory, PageOut};
use std::alloc::Global;

/// Writes the forms that a page of a session has after the list of parts.
pub fn write_actions(alloc: Global, out: &mut PageOut, frame: &Frame) -> Result<(), Memory>
    requires { IsTrue (takes_tags out.old.opened) }
    ensures { OnOk result (out.new ≡ with_tokens out.old (actions frame.now) out.old.opened) }
{
    match frame {
        Frame::Plain => Ok(()),
        Frame::Session { at, key } => write_forms(alloc, out, at, key.as_str()),
    }
}

#[tactic(auto, unfolding(page_writer::specs::Writing::literals, crate::specs::Actions::message_forms))]
fn write_forms(alloc: Global, out: &mut PageOut, at: &Address, key: &str) -> Result<(), Memory>
    requires { IsTrue (takes_tags out.old.opened) }
    ensures { OnOk result (out.new ≡ with_tokens out.old (message_forms at.now key.now) out.old.opened) }
{
    out.chars("\n")?;
    write_seen_form(alloc, out, at, key, "1", "Mark as read")?;
    write_seen_form(alloc, out, at, key, "0", "Mark as unread")?;
    write_delete_form(alloc, out, at, key)?;
    write_move_form(alloc, out, at, key)
}

/// Writes the inputs of each form: the session's key, and the message.
#[tactic(auto, unfolding(crate::specs::Actions::message_inputs))]
fn write_message_inputs(
    alloc: Global,
    out: &mut PageOut,
    at: &Address,
    key: &str,
) -> Result<(), Memory>
    requires { IsTrue (takes_tags out.old.opened) }
    ensures { OnOk result (out.new ≡ with_tokens out.old (message_inputs at.now key.now) out.old.opened) }
{
    write_hidden(alloc, out, "key", key)?;
    write_hidden(alloc, out, "f", at.folder.as_str())?;
    write_hidden(alloc, out, "v", Buffer::new().format(at.validity))?;
    write_hidden(alloc, out, "u", Buffer::new().format(at.uid))
}

#[tactic(auto, unfolding(crate::specs::Actions::seen_inputs))]
fn write_seen_inputs(alloc: Global, out: &mut PageOut, on: &str) -> Result<(), Memory>
    requires { IsTrue (takes_tags out.old.opened) }
    ensures { OnOk result (out.new ≡ with_tokens out.old (seen_inputs on.now) out.old.opened) }
{
    write_hidden(alloc, out, "flag", "Seen")?;
    write_hidden(alloc, out, "on", on)
}

/// Writes the form that marks the message as read or as unread.
#[tactic(auto, unfolding(page_writer::specs::Writing::literals, crate::specs::Actions::seen_form))]
fn write_seen_form(
    alloc: Global,
    out: &mut PageOut,
    at: &Address,
    key: &str,
    on: &str,
    label: &str,
) -> Result<(), Memory>
    requires { IsTrue (takes_tags out.old.opened) }
    ensures { OnOk result (out.new ≡ with_tokens out.old (seen_form at.now key.now on.now label.now) out.old.opened) }
{
    open_form(alloc, out, "/flag")?;
    write_message_inputs(alloc, out, at, key)?;
    write_seen_inputs(alloc, out, on)?;
    close_form(alloc, out, label)
}

#[tactic(auto, unfolding(page_writer::specs::Writing::literals, crate::specs::Actions::delete_form))]
fn write_delete_form(
    alloc: Global,
    out: &mut PageOut,
    at: &Address,
    key: &str,
) -> Result<(), Memory>
    requires { IsTrue (takes_tags out.old.opened) }
    ensures { OnOk result (out.new ≡ with_tokens out.old (delete_form at.now key.now) out.old.opened) }
{
    open_form(alloc, out, "/delete")?;
    write_message_inputs(alloc, out, at, key)?;
    close_form(alloc, out, "Delete")
}

#[tactic(auto, unfolding(page_writer::specs::Writing::literals, crate::specs::Actions::move_form))]
fn write_move_form(alloc: Global, out: &mut PageOut, at: &Address, key: &str) -> Result<(), Memory>
    requires { IsTrue (takes_tags out.old.opened) }
    ensures { OnOk result (out.new ≡ with_tokens out.old (move_form at.now key.now) out.old.opened) }
{
    open_form(alloc, out, "/move")?;
    write_message_inputs(alloc, out, at, key)?;
    write_visible(alloc, out, "to", "")?;
    close_form(alloc, out, "Move")
}
