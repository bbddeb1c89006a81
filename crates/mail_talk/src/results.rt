//! The body that was fetched last, and what the last search found.
ghost use Rattle.std.specs.Prelude.{◌≡◌, ◌==◌, IfOk, OnOk, IfSome, IfNone, Some, None};
ghost use Rattle.std.specs.List.{list_any};
ghost use Rattle.imap_grammar.specs.ItemData.{item_data_of};
ghost use Rattle.imap_values.specs.Sets.{membership, membership_or_none};
ghost use Rattle.mail_talk.specs.Results.{nothing_found, message_in, asking_body, asking_search, asking_other, results_said, results_begun, later_body, last_body, is_uid, with_body, body_heard, items_heard, set_heard, results_dialled, uids_of};
ghost use Rattle.mailbox_view.specs.Fetched.{fields_of};
ghost use Rattle.mailbox_view.specs.Selections.{concerned_box};

use command_pieces::Verb;
use imap_commands::{Command, UidSet};
use imap_grammar::{Item, Items};
use mail_values::{Bytes, Memory};
use mailbox_view::View;
use mailbox_view::fetched::read_fields;
use std::alloc::Global;
use std::marker::Model;

/// What the last command asks for, beside what a view shows.
#[derive(Clone, Copy)]
pub enum Asked {
    Body,
    Search,
    Other,
}

/// A message whose body was asked for.
#[derive(Drop)]
pub struct FetchedBody {
    pub folder: Bytes,
    pub validity: Option<u32>,
    pub uid: u32,
    /// `None` if the server told none, or NIL.
    pub body: Option<Bytes>,
}

/// What the last command for a body and the last search found.
#[derive(Drop)]
pub struct Results {
    message: Option<FetchedBody>,
    found: Option<UidSet>,
    asked: Asked,
}

impl Model for Results {
    ghost use Rattle.imap_values.specs.Sets.{membership_or_none};
    ghost use Rattle.mail_talk.specs.Results.{ResultsState, uids_of};

    ghost Value = { ResultsState };

    ghost view = { λ r. record { message = r.message; found = uids_of (membership_or_none r.found); asked = r.asked } };
}

/// The message with a UID in the folder that responses concern, of which no body was told.
fn message_in(alloc: Global, view: &View, uid: u32) -> Result<FetchedBody, Memory>
    ensures { IfOk result (λ m. m ≡ message_in (concerned_box view.now.selection.concerned view.now.boxes) uid) }
{
    match view.concerned() {
        Some(folder) => Ok(FetchedBody {
            folder: Bytes::from_slice(alloc, folder.name())?,
            validity: folder.validity(),
            uid,
            body: None,
        }),
        None => Ok(FetchedBody {
            folder: Bytes::from_vec(Vec::new(alloc)),
            validity: None,
            uid,
            body: None,
        }),
    }
}

/// The body of an item, or else the one before. NIL is none.
fn later_body(alloc: Global, before: Option<Bytes>, item: &Item) -> Result<Option<Bytes>, Memory>
    ensures { IfOk result (λ body. body ≡ later_body before (item_data_of item.now)) }
{
    match item {
        Item::Body(Some(text)) => Ok(Some(Bytes::from_slice(alloc, text.as_slice())?)),
        _ => Ok(before),
    }
}

/// The last body among some items.
fn last_body(alloc: Global, items: &Items) -> Result<Option<Bytes>, Memory>
    ensures { IfOk result (λ body. body ≡ last_body items.now) }
{
    let mut body = None;
    let mut rest = items.as_slice();
    while let [item, more @ ..] = rest {
        body = later_body(alloc, body, item)?;
        rest = more;
    }
    Ok(body)
}

/// Whether the last UID among some items is that of a message.
fn has_uid(alloc: Global, items: &Items, uid: u32) -> Result<bool, Memory>
    ensures { IfOk result (λ has. has ≡ is_uid (fields_of items.now).uid uid) }
{
    let fields = read_fields(alloc, items)?;
    Ok(fields.uid == Some(uid))
}

#[tactic(auto, using(crate::proofs::UidLemmas::same_uids))]
fn copy_set(alloc: Global, set: &UidSet) -> Result<UidSet, Memory>
    ensures { IfOk result (λ copy. uids_of (Some (membership copy)) ≡ uids_of (Some (membership set.now))) }
{
    UidSet::of(alloc, Vec::from_slice(alloc, set.ranges())?)
}

impl FetchedBody {
    /// Takes note of the items of a FETCH.
    fn hear(&mut self, alloc: Global, items: &Items) -> Result<(), Memory>
        ensures { OnOk result (Some self.new ≡ body_heard items.now (Some self.old)) }
    {
        if has_uid(alloc, items, self.uid)? {
            if let Some(text) = last_body(alloc, items)? {
                self.body = Some(text);
            }
        }
        Ok(())
    }
}

impl Results {
    /// Nothing was asked for.
    pub fn nothing() -> Self
        ensures { result ≡ nothing_found }
    {
        Results {
            message: None,
            found: None,
            asked: Asked::Other,
        }
    }

    /// The message that the last command for a body named, with its body if one was told.
    pub fn message(&self) -> Option<&FetchedBody>
        ensures some { IfSome result (λ message. self.now.message ≡ Some message.now) }
        ensures none { IfNone result (self.now.message ≡ None) }
    {
        self.message.as_ref()
    }

    /// Whether the last search found a UID.
    #[tactic(auto, using(crate::proofs::UidLemmas::finds_uid))]
    pub fn has_found(&self, uid: u32) -> bool
        ensures { result ≡ list_any (λ one. one == uid) self.now.found }
    {
        match &self.found {
            Some(set) => set.contains(uid),
            None => false,
        }
    }

    /// Takes note of a dial. Only a fresh one forgets what was found.
    pub fn dialled(&mut self, fresh: bool)
        ensures { self.new ≡ results_dialled fresh self.old }
    {
        if fresh {
            *self = Results::nothing();
        } else {
            self.asked = Asked::Other;
        }
    }

    /// Takes note of the first of several pieces of a command.
    pub fn begun(&mut self, verb: Verb)
        ensures { self.new ≡ results_begun verb self.old }
    {
        match verb {
            Verb::Search => self.begin_search(),
            _ => self.asked = Asked::Other,
        }
    }

    fn begin_search(&mut self)
        ensures { self.new ≡ asking_search self.old }
    {
        self.found = None;
        self.asked = Asked::Search;
    }

    fn begin_body(&mut self, alloc: Global, view: &View, uid: u32) -> Result<(), Memory>
        ensures { OnOk result (self.new ≡ asking_body (concerned_box view.now.selection.concerned view.now.boxes) uid self.old) }
    {
        self.message = Some(message_in(alloc, view, uid)?);
        self.asked = Asked::Body;
        Ok(())
    }

    /// Takes note of a command that was said in one piece, with the view before it.
    pub fn said(&mut self, alloc: Global, command: &Command, view: &View) -> Result<(), Memory>
        ensures { OnOk result (self.new ≡ results_said command.now (concerned_box view.now.selection.concerned view.now.boxes) self.old) }
    {
        match command {
            Command::FetchBody { uid } => self.begin_body(alloc, view, *uid)?,
            Command::Search { .. } => self.begin_search(),
            _ => self.asked = Asked::Other,
        }
        Ok(())
    }

    /// Takes note of the items of a FETCH.
    pub fn hear_items(&mut self, alloc: Global, items: &Items) -> Result<(), Memory>
        ensures { OnOk result (self.new ≡ items_heard self.old.asked items.now self.old) }
    {
        match self.asked {
            Asked::Body => self.hear_body(alloc, items),
            _ => Ok(()),
        }
    }

    fn hear_body(&mut self, alloc: Global, items: &Items) -> Result<(), Memory>
        ensures { OnOk result (self.new ≡ record { message = body_heard items.now self.old.message; found = self.old.found; asked = self.old.asked }) }
    {
        if let Some(message) = &mut self.message {
            message.hear(alloc, items)?;
        }
        Ok(())
    }

    /// Takes note of the set of an ESEARCH, which may have the command's tag.
    pub fn hear_set(&mut self, alloc: Global, own: bool, set: &Option<UidSet>) -> Result<(), Memory>
        ensures { OnOk result (self.new ≡ set_heard self.old.asked own (membership_or_none set.now) self.old) }
    {
        match self.asked {
            Asked::Search if own => self.keep_set(alloc, set),
            _ => Ok(()),
        }
    }

    fn keep_set(&mut self, alloc: Global, set: &Option<UidSet>) -> Result<(), Memory>
        ensures { OnOk result (self.new ≡ record self.old { found = uids_of (membership_or_none set.now) }) }
    {
        self.found = match set {
            Some(set) => Some(copy_set(alloc, set)?),
            None => None,
        };
        Ok(())
    }
}
