//! What dials, commands and responses told of a talk with a mail server.
ghost use Rattle.std.specs.Prelude.{◌≡◌, IfSome, IfNone, OnOk, Some, None};
ghost use Rattle.imap_grammar.specs.Response.{data_of};
ghost use Rattle.mailbox_view.specs.View.{after_response, excess};
ghost use Rattle.mail_talk.specs.Results.{results_heard};
ghost use Rattle.mail_talk.specs.States.{nothing_told, first_excess, after_greeting, after_request, after_answer, answer_heard, phase_heard, is_request, told, heard, with_phase};
ghost use Rattle.mail_talk.specs.Talks.{dialled, opened, first_piece, only_piece, last_piece, view_begun, view_said};
ghost use Rattle.mail_talk.specs.declared.phase.Phase.TheVariants as phases;

use crate::{Answer, Excess, Phase, Results};
use command_pieces::Verb;
use imap_commands::Command;
use imap_grammar::{Code, Response, Word};
use mail_values::{Bytes, Memory};
use mailbox_view::{View, ViewFault};
use std::alloc::Global;
use std::marker::Model;

/// What was told of a talk with a mail server, and what is awaited.
#[derive(Drop)]
pub struct Told {
    alloc: Global,
    view: View,
    results: Results,
    phase: Phase,
    answer: Option<Answer>,
    excess: Option<Excess>,
}

impl Model for Told {
    ghost use Rattle.mail_talk.specs.States.{ToldState};

    ghost Value = { ToldState };

    ghost view = { λ t. record { view = t.view; results = t.results; phase = t.phase; answer = t.answer; excess = t.excess } };
}

impl Told {
    /// Nothing was told yet.
    pub fn nothing(alloc: Global) -> Self
        ensures { result ≡ nothing_told }
    {
        Told {
            alloc,
            view: View::new(alloc),
            results: Results::nothing(),
            phase: Phase::NotDialled,
            answer: None,
            excess: None,
        }
    }

    pub fn view(&self) -> &View
        ensures { result.now ≡ self.now.view }
    {
        &self.view
    }

    pub fn results(&self) -> &Results
        ensures { result.now ≡ self.now.results }
    {
        &self.results
    }

    pub fn phase(&self) -> Phase
        ensures { result ≡ self.now.phase }
    {
        self.phase
    }

    /// The tagged answer to the last command, if it came.
    pub fn answer(&self) -> Option<&Answer>
        ensures some { IfSome result (λ answer. self.now.answer ≡ Some answer.now) }
        ensures none { IfNone result (self.now.answer ≡ None) }
    {
        self.answer.as_ref()
    }

    /// The first numbers of rows and header bytes that were too many since the last command was said.
    pub fn excess(&self) -> Option<Excess>
        ensures { result ≡ self.now.excess }
    {
        self.excess
    }

    /// Takes note of a dial.
    pub fn dialled(&mut self, fresh: bool)
        ensures { self.new ≡ dialled fresh self.old }
    {
        self.view.dialled(fresh);
        self.results.dialled(fresh);
        self.phase = Phase::Greeting;
        self.answer = None;
        self.excess = None;
    }

    /// Takes note that a command begins.
    fn open(&mut self) -> Result<(), Memory>
        ensures { OnOk result (self.new ≡ opened self.old) }
    {
        self.view.begin()?;
        self.answer = None;
        self.excess = None;
        Ok(())
    }

    fn begin_view(&mut self, verb: Verb) -> Result<(), Memory>
        ensures { OnOk result (self.new ≡ record self.old { view = view_begun verb self.old.view }) }
    {
        match verb {
            Verb::Select => self.view.select_soon(&[]),
            _ => Ok(()),
        }
    }

    fn say_to_view(&mut self, command: &Command) -> Result<(), Memory>
        ensures { OnOk result (self.new ≡ record self.old { view = view_said command.now self.old.view }) }
    {
        match command {
            Command::Select { folder, .. } => self.view.select(folder.as_str().as_bytes()),
            _ => self.view.await_answer(command),
        }
    }

    /// Takes note of the first of several pieces of a command.
    pub fn begin(&mut self, verb: Verb) -> Result<(), Memory>
        ensures { OnOk result (self.new ≡ first_piece verb (opened self.old)) }
    {
        self.open()?;
        self.begin_view(verb)?;
        self.results.begun(verb);
        self.phase = Phase::Request;
        Ok(())
    }

    /// Takes note of a piece that is neither the first nor the last.
    pub fn go_on(&mut self)
        ensures { self.new ≡ with_phase phases.Request self.old }
    {
        self.phase = Phase::Request;
    }

    /// Takes note of a command in one piece.
    pub fn say(&mut self, command: &Command) -> Result<(), Memory>
        ensures { OnOk result (self.new ≡ only_piece command.now (opened self.old)) }
    {
        self.open()?;
        self.results.said(self.alloc, command, &self.view)?;
        self.say_to_view(command)?;
        self.phase = Phase::Answer;
        Ok(())
    }

    /// Takes note of the last of several pieces of a command.
    pub fn complete(&mut self, command: &Command) -> Result<(), Memory>
        ensures { OnOk result (self.new ≡ last_piece command.now self.old) }
    {
        self.say_to_view(command)?;
        self.phase = Phase::Answer;
        Ok(())
    }

    /// Takes note that bytes were no response.
    pub fn damage(&mut self)
        ensures { self.new ≡ with_phase phases.Damaged self.old }
    {
        self.phase = Phase::Damaged;
    }

    /// Applies a response at an offset. Out of memory, a fresh dial is needed.
    pub fn hear(&mut self, response: &Response, at: u64) -> Result<(), Memory>
        ensures { OnOk result (self.new ≡ heard (data_of response.now) at self.old) }
    {
        match self.phase {
            Phase::Greeting => self.hear_greeting(response),
            Phase::Request => return self.hear_request(response, at),
            Phase::Answer => return self.hear_answer(response, at),
            _ => {}
        }
        Ok(())
    }

    fn hear_greeting(&mut self, response: &Response)
        ensures { self.new ≡ after_greeting (data_of response.now) self.old }
    {
        match response {
            Response::Continue { .. } | Response::Tagged { .. } => {}
            _ => self.phase = Phase::Idle,
        }
    }

    fn hear_request(&mut self, response: &Response, at: u64) -> Result<(), Memory>
        ensures { OnOk result (self.new ≡ after_request (data_of response.now) at self.old) }
    {
        match response {
            Response::Continue { .. } => {
                self.phase = Phase::Piece;
                Ok(())
            }
            _ => self.tell(response, at),
        }
    }

    fn hear_answer(&mut self, response: &Response, at: u64) -> Result<(), Memory>
        ensures { OnOk result (self.new ≡ after_answer (data_of response.now) at self.old) }
    {
        match response {
            Response::Continue { .. } => Ok(()),
            _ => self.tell(response, at),
        }
    }

    /// Applies a response that belongs to the command.
    fn tell(&mut self, response: &Response, at: u64) -> Result<(), Memory>
        ensures { OnOk result (self.new ≡ told (data_of response.now) at self.old) }
    {
        self.tell_results(response)?;
        self.tell_answer(response, at)?;
        self.tell_view(response)
    }

    /// Applies a response to the results.
    fn tell_results(&mut self, response: &Response) -> Result<(), Memory>
        ensures { OnOk result (self.new ≡ record self.old { results = results_heard (data_of response.now) self.old.view.number self.old.results }) }
    {
        match response {
            Response::Fetch { items, .. } => self.results.hear_items(self.alloc, items),
            Response::Esearch { tag, set } => {
                let own = self.view.has_tag(tag.as_slice());
                self.results.hear_set(self.alloc, own, set)
            }
            _ => Ok(()),
        }
    }

    /// Keeps the tagged answer to the command, and ends it.
    fn tell_answer(&mut self, response: &Response, at: u64) -> Result<(), Memory>
        ensures { OnOk result (self.new ≡ record self.old { phase = phase_heard (data_of response.now) self.old; answer = answer_heard (data_of response.now) at self.old }) }
    {
        match response {
            Response::Tagged {
                tag,
                word,
                code,
                text,
            } if self.view.has_tag(tag) => self.end(*word, *code, text, at),
            _ => Ok(()),
        }
    }

    fn end(&mut self, word: Word, code: Option<Code>, text: &[u8], at: u64) -> Result<(), Memory>
        ensures { OnOk result (self.new ≡ record self.old { phase = phases.Idle; answer = Some (record { word = word; code = code; text = text.now; at = at; is_early = is_request self.old.phase }) }) }
    {
        self.answer = Some(Answer {
            word,
            code,
            text: Bytes::from_slice(self.alloc, text)?,
            at,
            is_early: self.phase.is_request(),
        });
        self.phase = Phase::Idle;
        Ok(())
    }

    /// Applies a response to the view.
    fn tell_view(&mut self, response: &Response) -> Result<(), Memory>
        ensures { OnOk result (self.new ≡ record self.old { view = after_response (data_of response.now) self.old.view; excess = first_excess self.old.excess (excess (data_of response.now) self.old.view) }) }
    {
        match self.view.apply(response) {
            Ok(()) => Ok(()),
            Err(ViewFault::TooMany { rows, bytes }) => {
                self.note_excess(Excess { rows, bytes });
                Ok(())
            }
            Err(ViewFault::Memory) => Err(Memory),
        }
    }

    fn note_excess(&mut self, excess: Excess)
        ensures { self.new ≡ record self.old { excess = first_excess self.old.excess (Some (excess.rows, excess.bytes)) } }
    {
        if self.excess.is_none() {
            self.excess = Some(excess);
        }
    }
}
