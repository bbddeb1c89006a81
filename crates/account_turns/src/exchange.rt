//! One command and its answer, and one dial and its greeting.
ghost use Rattle.std.specs.Prelude.{◌≡◌, ◌+◌, ◌<◌, ◌^◌, ◌++◌, [], List, ℕ, false, true, IfOk, OnOk};
ghost use Rattle.imap_commands.specs.Commands.{command_pieces};
ghost use Rattle.imap_commands.specs.ReadBack.{FitsFieldTypes};
ghost use Rattle.imap_commands.specs.Written.{bytes_of_vecs};
ghost use Rattle.mail_talk.specs.declared.phase.Phase.TheVariants as phases;
ghost use Rattle.account_script.specs.declared.steps.Progress.{Progress as ProgressValue};
ghost use Rattle.account_script.specs.declared.steps.Step.{Step as StepValue};
ghost use Rattle.account_turns.specs.Causes.{last_of};
ghost use Rattle.account_turns.specs.Exchanges.{IsCausedBy, IsIdleAfter, IsUnheard, Seen, Speaks, Spoken, Hearing, with_uttered};
ghost use Rattle.account_turns.specs.Turns.{Continues, Turn, due, down};
ghost use Rattle.account_turns.specs.Turns.Due.{Dials, Says};

use crate::endings::{Ending, Last, how_ended, last_of};
use crate::listening::listen;
use imap_commands::{Command, write};
use mail_io::Link;
use mail_talk::Listener;
use mail_values::Memory;
use std::alloc::Global;

/// Says a command piece by piece, each when it is asked for, and hears its answer.
pub fn exchange<L: Link>(
    alloc: Global,
    link: &mut L,
    listener: &mut Listener,
    command: &Command,
) -> Result<Ending, Memory>
    requires fits { FitsFieldTypes command.now }
    requires idle { listener.old.told.phase ≡ phases.Idle }
    ensures turn { (t : Turn) (more : List StepValue) (p : ProgressValue) → t.talk.state ≡ listener.old → due t ≡ Says (last_of command.now) (command_pieces (listener.old.told.view.number + 1) command.now) more p →
        Continues (L.talk link.old) (L.talk link.new) t (λ u. IfOk result (λ ending. Spoken t.errand ending more t.fresh p listener.new u)) }
    ensures fault { IfOk result (λ ending. IsCausedBy ending (L.faults link.old) (L.faults link.new)) }
    ensures idle { IfOk result (λ ending. IsIdleAfter ending listener.new) }
{
    let Some(number) = listener.told().view().number().checked_add(1) else {
        return Err(Memory);
    };
    let pieces = write(alloc, command, number)?;
    speak(alloc, link, listener, command, number, &pieces)
}

/// Says the pieces of a command, each when it is asked for.
fn speak<L: Link>(
    alloc: Global,
    link: &mut L,
    listener: &mut Listener,
    command: &Command,
    number: u32,
    pieces: &[Vec<u8>],
) -> Result<Ending, Memory>
    requires fits { FitsFieldTypes command.now }
    requires idle { listener.old.told.phase ≡ phases.Idle }
    requires number { number ≡ listener.old.told.view.number + 1 }
    requires pieces { bytes_of_vecs pieces.now ≡ command_pieces number command.now }
    ensures turn { (t : Turn) (more : List StepValue) (p : ProgressValue) → Speaks t.errand [] (bytes_of_vecs pieces.now) (last_of command.now) more t.fresh p listener.old t →
        Continues (L.talk link.old) (L.talk link.new) t (λ u. IfOk result (λ ending. Spoken t.errand ending more t.fresh p listener.new u)) }
    ensures fault { IfOk result (λ ending. IsCausedBy ending (L.faults link.old) (L.faults link.new)) }
    ensures idle { IfOk result (λ ending. IsIdleAfter ending listener.new) }
{
    let mut i = 0;
    while i < pieces.len() {
        match link.send(&pieces[i]) {
            Ok(()) => {
                utter(listener, command, i == 0, i + 1 >= pieces.len())?;
                i += 1;
                if !listen(link, listener)? {
                    return Ok(Ending::Failed);
                }
                if !listener.told().phase().is_piece() {
                    return how_ended(alloc, last_of(command), listener);
                }
            }
            Err(_) => return Ok(Ending::Failed),
        }
    }
    how_ended(alloc, last_of(command), listener)
}

/// Takes note of a piece of a command that was said.
fn utter(
    listener: &mut Listener,
    command: &Command,
    is_first: bool,
    is_last: bool,
) -> Result<(), Memory>
    ensures { OnOk result (listener.new ≡ with_uttered is_first is_last command.now listener.old) }
{
    if is_first {
        utter_first(listener, command, is_last)
    } else if is_last {
        listener.completed(command)
    } else {
        listener.went_on()
    }
}

fn utter_first(listener: &mut Listener, command: &Command, is_last: bool) -> Result<(), Memory>
    ensures { OnOk result (listener.new ≡ with_uttered true is_last command.now listener.old) }
{
    if is_last {
        listener.said(command)
    } else {
        listener.began(command)
    }
}

/// Dials, and hears the greeting.
pub fn dial<L: Link>(
    alloc: Global,
    link: &mut L,
    listener: &mut Listener,
    fresh: &mut bool,
) -> Result<Ending, Memory>
    ensures turn { (t : Turn) (more : List StepValue) → Seen fresh.old listener.old t → due t ≡ Dials fresh.old more →
        Continues (L.talk link.old) (L.talk link.new) t (λ u. IfOk result (λ ending. Spoken t.errand ending more fresh.new down listener.new u)) }
    ensures fresh { IfOk result (λ ending. fresh.new ≡ true → ending ≡ Ending.Failed) }
    ensures unheard { IfOk result (λ ending. fresh.new ≡ true → IsUnheard fresh.old listener.old listener.new) }
    ensures fault { IfOk result (λ ending. IsCausedBy ending (L.faults link.old) (L.faults link.new)) }
    ensures idle { IfOk result (λ ending. IsIdleAfter ending listener.new) }
{
    match link.redial(*fresh) {
        Ok(()) => {
            listener.dialled(*fresh);
            *fresh = false;
            hear_greeting(alloc, link, listener)
        }
        Err(_) => Ok(Ending::Failed),
    }
}

/// Hears the greeting.
fn hear_greeting<L: Link>(
    alloc: Global,
    link: &mut L,
    listener: &mut Listener,
) -> Result<Ending, Memory>
    ensures turn { (t : Turn) → Hearing t listener.old t → t.last ≡ Last.Dial → t.left ≡ [] →
        Continues (L.talk link.old) (L.talk link.new) t (λ u. IfOk result (λ ending. Spoken t.errand ending t.steps t.fresh t.progress listener.new u)) }
    ensures fault { IfOk result (λ ending. IsCausedBy ending (L.faults link.old) (L.faults link.new)) }
    ensures idle { IfOk result (λ ending. IsIdleAfter ending listener.new) }
{
    if listen(link, listener)? {
        how_ended(alloc, Last::Dial, listener)
    } else {
        Ok(Ending::Failed)
    }
}
