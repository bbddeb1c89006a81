//! What a server told, by the dials, commands and responses so far.
ghost use Rattle.std.specs.Prelude.{◌≡◌, OnOk, IfSome, IfNone, Some, None, false, []};
ghost use Rattle.imap_commands.specs.Pieces.{is_quotable};
ghost use Rattle.imap_values.specs.Lents.{bytes_of};
ghost use Rattle.imap_grammar.specs.Response.{data_of};
ghost use Rattle.mailbox_view.specs.Applied.{AppliesAs};
ghost use Rattle.mailbox_view.specs.Fetched.{fields_of};
ghost use Rattle.mailbox_view.specs.View.{empty_view, after_dial, begun, with_select, with_select_soon, with_quotable, with_command, after_said, after_plus, after_code, after_ok, after_no, after_answer, after_tagged, after_capability, after_enabled, after_list, after_fetch, after_fetched, told, after_response, awaited_of_new, after_closed, is_tag, is_awaiting, selected_box, lacking_capability, lacking_enabled, lacking_selected, excess_fetched, excess_told, excess};
ghost use Rattle.mailbox_view.specs.Selections.{box_named, concerned_box};

use crate::fetched::{copy_words, read_fields};
use crate::recent::{
    apply_fetch_at, concerned, find, first, forget_at, is_first, move_to_front, raise_mark_at,
    set_validity_at, vanish_at,
};
use crate::tags::{is_quotable, is_tag};
use crate::{Abilities, Awaited, Fields, Folder, Mailbox, Selection, ViewFault};
use imap_commands::Command;
use imap_grammar::{Code, Items, Response, Word};
use imap_values::{Lent, Slices};
use mail_values::{Bytes, Memory};
use std::alloc::Global;
use std::marker::Model;
use std::mem;

/// What a server told. It is given each dial, each command and each response, in order.
#[derive(Drop)]
pub struct View {
    alloc: Global,
    number: u32,
    awaited: Awaited,
    soon: Bytes,
    modseq: u64,
    folders: Vec<Folder>,
    listed: Vec<Folder>,
    recent: Vec<Mailbox>,
    selection: Selection,
    abilities: Abilities,
}

impl Model for View {
    ghost use Rattle.mailbox_view.specs.View.{ViewState};

    ghost Value = { ViewState };

    ghost view = { λ v. record { number = v.number; awaited = v.awaited; soon = v.soon; modseq = v.modseq; folders = v.folders.items; listed = v.listed.items; boxes = v.recent.items; selection = v.selection; abilities = v.abilities } };
}

fn no_bytes(alloc: Global) -> Bytes
    ensures { result ≡ [] }
{
    Bytes::from_vec(Vec::new(alloc))
}

impl View {
    /// The view after nothing was told.
    pub fn new(alloc: Global) -> Self
        ensures { result ≡ empty_view }
    {
        View {
            alloc,
            number: 0,
            awaited: Awaited::Nothing,
            soon: no_bytes(alloc),
            modseq: 0,
            folders: Vec::new(alloc),
            listed: Vec::new(alloc),
            recent: Vec::new(alloc),
            selection: Selection::nothing(),
            abilities: Abilities::nothing(),
        }
    }

    /// The folders of the last LIST that was answered OK.
    pub fn folders(&self) -> &[Folder]
        ensures { result.now ≡ self.now.folders }
    {
        &self.folders
    }

    /// The selected folder.
    pub fn selected(&self) -> Option<&Mailbox>
        ensures some { IfSome result (λ folder. selected_box self.now ≡ Some folder.now) }
        ensures none { IfNone result (selected_box self.now ≡ None) }
    {
        if self.selection.is_selected {
            first(&self.recent)
        } else {
            None
        }
    }

    /// What is kept of a folder, if it is among the four that were selected last.
    pub fn mailbox<'a, 'b>(&'a self, name: &'b [u8]) -> Option<&'a Mailbox>
        ensures some { IfSome result (λ folder. box_named name.now self.now.boxes ≡ Some folder.now) }
        ensures none { IfNone result (box_named name.now self.now.boxes ≡ None) }
    {
        find(&self.recent, name)
    }

    /// The number of the last command of this dial.
    pub fn number(&self) -> u32
        ensures { result ≡ self.now.number }
    {
        self.number
    }

    /// The folder that responses concern: within a SELECT that leaves a folder the old one up to CLOSED.
    pub fn concerned(&self) -> Option<&Mailbox>
        ensures some { IfSome result (λ folder. concerned_box self.now.selection.concerned self.now.boxes ≡ Some folder.now) }
        ensures none { IfNone result (concerned_box self.now.selection.concerned self.now.boxes ≡ None) }
    {
        concerned(&self.recent, self.selection.concerned)
    }

    /// Whether a tag is that of the last command.
    pub fn has_tag(&self, tag: &[u8]) -> bool
        ensures { result ≡ is_tag tag.now self.now.number }
    {
        is_tag(tag, self.number)
    }

    /// Whether a command awaits its answer.
    pub fn is_awaiting(&self) -> bool
        ensures { result ≡ is_awaiting self.now.awaited }
    {
        self.awaited.is_awaiting()
    }

    /// What the server lacks by its answer to CAPABILITY.
    pub fn lacking_capability(&self) -> Option<&'static str>
        ensures some { IfSome result (λ name. lacking_capability self.now ≡ Some name.now) }
        ensures none { IfNone result (lacking_capability self.now ≡ None) }
    {
        if !self.abilities.names_rev2 {
            Some("IMAP4rev2")
        } else if !self.abilities.names_qresync {
            Some("QRESYNC")
        } else {
            None
        }
    }

    /// What the server lacks by its answer to ENABLE.
    pub fn lacking_enabled(&self) -> Option<&'static str>
        ensures some { IfSome result (λ name. lacking_enabled self.now ≡ Some name.now) }
        ensures none { IfNone result (lacking_enabled self.now ≡ None) }
    {
        if self.abilities.enables_qresync {
            None
        } else {
            Some("QRESYNC")
        }
    }

    /// What the server lacks by its answer to the last SELECT.
    pub fn lacking_selected(&self) -> Option<&'static str>
        ensures some { IfSome result (λ name. lacking_selected self.now ≡ Some name.now) }
        ensures none { IfNone result (lacking_selected self.now ≡ None) }
    {
        if self.selection.has_no_modseq {
            Some("MODSEQ")
        } else if self.selection.has_validity {
            None
        } else {
            Some("UIDVALIDITY")
        }
    }

    /// Takes note of a dial. A fresh one forgets all.
    pub fn dialled(&mut self, fresh: bool)
        ensures { self.new ≡ after_dial fresh self.old }
    {
        if fresh {
            *self = View::new(self.alloc);
        } else {
            self.select_nothing();
        }
    }

    fn select_nothing(&mut self)
        ensures { self.new ≡ after_dial false self.old }
    {
        self.number = 0;
        self.awaited = Awaited::Nothing;
        self.soon = no_bytes(self.alloc);
        self.modseq = 0;
        self.listed.clear();
        self.selection = Selection::nothing();
    }

    /// Takes note that a command was said, with the next number in its tag.
    /// A dial has fewer than 2^32 commands; more are refused as out of memory.
    pub fn said(&mut self, command: &Command) -> Result<(), Memory>
        ensures { OnOk result (self.new ≡ after_said command.now self.old) }
    {
        self.begin()?;
        self.await_answer(command)
    }

    /// Takes note that the first piece of a command was said, with the next number in its tag, whatever it is.
    pub fn begin(&mut self) -> Result<(), Memory>
        ensures { OnOk result (self.new ≡ begun self.old) }
    {
        if self.number == u32::MAX {
            return Err(Memory);
        }
        self.number += 1;
        self.awaited = Awaited::Other;
        self.soon = no_bytes(self.alloc);
        self.modseq = 0;
        self.listed.clear();
        Ok(())
    }

    /// Takes note of what the answer to the command that began last will mean.
    pub fn await_answer(&mut self, command: &Command) -> Result<(), Memory>
        ensures { OnOk result (self.new ≡ with_command command.now self.old) }
    {
        match command {
            Command::Capability => {
                self.awaited = Awaited::Capability;
                self.abilities.forget_names();
            }
            Command::Enable => {
                self.awaited = Awaited::Enable;
                self.abilities.enables_qresync = false;
            }
            Command::List => self.awaited = Awaited::List,
            Command::Select { folder, .. } => self.begin_select(folder.as_str().as_bytes())?,
            Command::FetchNew { from } => self.awaited = awaited_of_new(*from),
            Command::FetchChanged { .. } => self.awaited = Awaited::Changes,
            _ => {}
        }
        Ok(())
    }

    fn begin_select(&mut self, name: &[u8]) -> Result<(), Memory>
        ensures { OnOk result (self.new ≡ with_quotable (is_quotable name.now) name.now self.old) }
    {
        if is_quotable(name) {
            self.select(name)
        } else {
            self.select_soon(name)
        }
    }

    /// Begins the selection of a folder, whatever the answer will be.
    pub fn select(&mut self, name: &[u8]) -> Result<(), Memory>
        ensures { OnOk result (self.new ≡ with_select name.now self.old) }
    {
        self.selection.select(is_first(&self.recent, name));
        move_to_front(self.alloc, &mut self.recent, name)?;
        self.awaited = Awaited::Select;
        self.soon = no_bytes(self.alloc);
        Ok(())
    }

    /// Takes note that a SELECT waits for the server's `+`. If it ends before, no folder is selected.
    pub fn select_soon(&mut self, name: &[u8]) -> Result<(), Memory>
        ensures { OnOk result (self.new ≡ with_select_soon name.now self.old) }
    {
        self.soon = Bytes::from_slice(self.alloc, name)?;
        self.awaited = Awaited::SelectSoon;
        Ok(())
    }

    /// Applies a response. Out of memory, a fresh dial is needed.
    pub fn apply(&mut self, response: &Response) -> Result<(), ViewFault>
        ensures { AppliesAs (excess (data_of response.now) self.old) (after_response (data_of response.now) self.old) result self.new }
    {
        if self.awaited.is_awaiting() {
            self.hear(response)
        } else {
            Ok(())
        }
    }

    fn hear(&mut self, response: &Response) -> Result<(), ViewFault>
        ensures { AppliesAs (excess_told (data_of response.now) self.old) (told (data_of response.now) self.old) result self.new }
    {
        match response {
            Response::Continue { .. } => self.hear_plus()?,
            Response::Tagged {
                tag,
                word,
                code,
                ..
            } => self.hear_tagged(tag, *word, *code),
            Response::State { code, .. } => self.hear_code(*code),
            Response::Capability(names) => self.hear_capability(names),
            Response::Enabled(names) => self.hear_enabled(names),
            Response::List { attributes, name } => self.hear_list(attributes, name)?,
            Response::Expunge(_) => forget_at(&mut self.recent, self.selection.concerned),
            Response::Fetch { items, .. } => return self.hear_fetch(items),
            Response::Vanished { set, .. } => {
                vanish_at(&mut self.recent, self.selection.concerned, set)
            }
            Response::Exists(_) | Response::Esearch { .. } | Response::Other => {}
        }
        Ok(())
    }

    fn hear_plus(&mut self) -> Result<(), Memory>
        ensures { OnOk result (self.new ≡ after_plus self.old.awaited self.old) }
    {
        match self.awaited {
            Awaited::SelectSoon => {
                let name = mem::replace(&mut self.soon, no_bytes(self.alloc));
                self.select(name.as_slice())
            }
            _ => Ok(()),
        }
    }

    fn hear_code(&mut self, code: Option<Code>)
        ensures { self.new ≡ after_code code self.old }
    {
        match code {
            Some(Code::Uidvalidity(validity)) => {
                self.selection.note_validity();
                set_validity_at(&mut self.recent, self.selection.concerned, validity);
            }
            Some(Code::Highestmodseq(modseq)) => self.selection.note_highest(modseq),
            Some(Code::Nomodseq) => self.selection.note_no_modseq(),
            Some(Code::Closed) => self.hear_closed(),
            Some(Code::Unread) | None => {}
        }
    }

    fn hear_closed(&mut self)
        ensures { self.new ≡ after_closed self.old.selection.is_leaving self.old }
    {
        if self.selection.is_leaving {
            self.selection.enter();
        }
    }

    fn hear_tagged(&mut self, tag: &[u8], word: Word, code: Option<Code>)
        ensures { self.new ≡ after_tagged (is_tag tag.now self.old.number) word code self.old }
    {
        if is_tag(tag, self.number) {
            self.hear_code(code);
            self.hear_answer(word);
        }
    }

    fn hear_answer(&mut self, word: Word)
        ensures { self.new ≡ after_answer word self.old }
    {
        match word {
            Word::Ok => self.hear_ok(),
            _ => self.hear_no(),
        }
        self.awaited = Awaited::Nothing;
    }

    fn hear_ok(&mut self)
        ensures { self.new ≡ after_ok self.old.awaited self.old }
    {
        match self.awaited {
            Awaited::List => self.folders = mem::replace(&mut self.listed, Vec::new(self.alloc)),
            Awaited::Select => self.selection.open(),
            Awaited::SelectSoon => self.selection = Selection::nothing(),
            Awaited::Changes => {
                let mark = self.modseq.max(self.selection.highest);
                raise_mark_at(&mut self.recent, self.selection.concerned, mark);
            }
            _ => {}
        }
    }

    fn hear_no(&mut self)
        ensures { self.new ≡ after_no self.old.awaited self.old }
    {
        match self.awaited {
            Awaited::Select | Awaited::SelectSoon => self.selection = Selection::nothing(),
            _ => {}
        }
    }

    fn hear_capability(&mut self, names: &Slices)
        ensures { self.new ≡ after_capability self.old.awaited names.now self.old }
    {
        match self.awaited {
            Awaited::Capability => self.abilities.note_names(names),
            _ => {}
        }
    }

    fn hear_enabled(&mut self, names: &Slices)
        ensures { self.new ≡ after_enabled self.old.awaited names.now self.old }
    {
        match self.awaited {
            Awaited::Enable => self.abilities.note_enabled(names),
            _ => {}
        }
    }

    fn hear_list(&mut self, attributes: &Slices, name: &Lent) -> Result<(), Memory>
        ensures { OnOk result (self.new ≡ after_list self.old.awaited (record { name = bytes_of name.now; attributes = attributes.now }) self.old) }
    {
        match self.awaited {
            Awaited::List => {
                let name = Bytes::from_slice(self.alloc, name.as_slice())?;
                let attributes = copy_words(self.alloc, attributes)?;
                self.listed.push(Folder { name, attributes })?;
            }
            _ => {}
        }
        Ok(())
    }

    fn hear_fetch(&mut self, items: &Items) -> Result<(), ViewFault>
        ensures { AppliesAs (excess_fetched (fields_of items.now).uid (fields_of items.now) self.old) (after_fetch (fields_of items.now).uid (fields_of items.now) self.old) result self.new }
    {
        let fields = read_fields(self.alloc, items)?;
        self.hear_fields(fields)
    }

    fn hear_fields(&mut self, fields: Fields) -> Result<(), ViewFault>
        ensures { AppliesAs (excess_fetched fields.uid fields self.old) (after_fetch fields.uid fields self.old) result self.new }
    {
        match fields.uid {
            Some(uid) => {
                self.modseq = self.modseq.max(fields.modseq.unwrap_or(0));
                self.put_fields(uid, fields)
            }
            None => Ok(()),
        }
    }

    #[tactic(auto, using(crate::proofs::ViewLemmas::fetched_in, crate::proofs::ViewLemmas::fetched_past))]
    fn put_fields(&mut self, uid: u32, fields: Fields) -> Result<(), ViewFault>
        ensures { AppliesAs (excess_fetched (Some uid) fields self.old) (after_fetched uid fields self.old) result self.new }
    {
        match apply_fetch_at(&mut self.recent, self.selection.concerned, uid, fields) {
            Err(ViewFault::TooMany { rows, bytes }) => {
                self.selection.mute();
                Err(ViewFault::TooMany { rows, bytes })
            }
            Err(ViewFault::Memory) => Err(ViewFault::Memory),
            Ok(()) => Ok(()),
        }
    }
}

/// What the answer to a FETCH of new messages means. Only a fetch of all raises the mark.
fn awaited_of_new(from: u32) -> Awaited
    ensures { result ≡ awaited_of_new from }
{
    if from == 1 {
        Awaited::Changes
    } else {
        Awaited::Other
    }
}
