//! How a command, a greeting or a script ends.
ghost use Rattle.std.specs.Prelude.{◌≡◌, IfOk, IfSome, IfNone, Some, None};
ghost use Rattle.std.specs.Option.{option_map};
ghost use Rattle.account_turns.specs.Causes.{damage_in, is_early_ok, is_ok, keeps_up, lacking, lacks_of, last_of, refusal, refused_of};
ghost use Rattle.account_turns.specs.Exchanges.{ending_of};

use account_script::Cause;
use imap_commands::Command;
use imap_grammar::Word;
use mail_talk::{Answer, Listener, Phase, Told};
use mail_values::{Bytes, Memory, Text};
use mailbox_view::View;
use std::alloc::Global;

/// How a part of a turn ended.
#[derive(Drop)]
pub enum Ending {
    /// All was said, and answered OK.
    Done,
    /// A cause stopped it.
    Stopped(Cause),
    /// The link failed.
    Failed,
}

/// What was said last on a dial, as far as its answer means something.
#[derive(Clone, Copy, Debug, PartialEq, Eq)]
pub enum Last {
    /// Nothing: the greeting is awaited.
    Dial,
    Login,
    Capability,
    Enable,
    Select,
    /// Any other command.
    Other,
}

/// Returns what a command means for its answer.
pub fn last_of(command: &Command) -> Last
    ensures { result ≡ last_of command.now }
{
    match command {
        Command::Login { .. } => Last::Login,
        Command::Capability => Last::Capability,
        Command::Enable => Last::Enable,
        Command::Select { .. } => Last::Select,
        _ => Last::Other,
    }
}

/// Whether an account stays up after a cause.
pub fn keeps_up(cause: &Cause) -> bool
    ensures { result ≡ keeps_up cause.now }
{
    match cause {
        Cause::Damaged { .. } | Cause::Lacking { .. } => false,
        _ => true,
    }
}

/// Returns how a command ended whose pieces were said as far as they were asked for, or a greeting.
#[tactic(auto, unfolding(crate::specs::Causes::cause_of))]
pub fn how_ended(alloc: Global, last: Last, listener: &Listener) -> Result<Ending, Memory>
    ensures { IfOk result (λ ending. ending ≡ ending_of last listener.now) }
{
    if let Some(cause) = damage(listener) {
        return Ok(Ending::Stopped(cause));
    }
    if let Some(excess) = listener.told().excess() {
        return Ok(Ending::Stopped(Cause::TooMany {
            rows: excess.rows,
            bytes: excess.bytes,
        }));
    }
    if let Some(cause) = refused(alloc, last, listener.told())? {
        return Ok(Ending::Stopped(cause));
    }
    if let Some(cause) = lacking(alloc, last, listener.told().view())? {
        return Ok(Ending::Stopped(cause));
    }
    Ok(Ending::Done)
}

/// Returns the damage at the end of a command, if there is any.
fn damage(listener: &Listener) -> Option<Cause>
    ensures { result ≡ damage_in listener.now.told.phase listener.now }
{
    match listener.told().phase() {
        Phase::Damaged => Some(Cause::Damaged { at: listener.at() }),
        Phase::Idle => {
            if is_early_ok(listener.told()) {
                Some(Cause::Damaged {
                    at: listener.heard_len(),
                })
            } else {
                None
            }
        }
        _ => Some(Cause::Damaged {
            at: listener.heard_len(),
        }),
    }
}

/// Whether a command was answered OK while the next piece of it was not said yet.
fn is_early_ok(told: &Told) -> bool
    ensures { result ≡ is_early_ok told.now.answer }
{
    match told.answer() {
        Some(answer) => answer.is_early && is_ok(answer.word),
        None => false,
    }
}

fn is_ok(word: Word) -> bool
    ensures { result ≡ is_ok word }
{
    match word {
        Word::Ok => true,
        _ => false,
    }
}

/// Returns why the last command was refused, if it was.
fn refused(alloc: Global, last: Last, told: &Told) -> Result<Option<Cause>, Memory>
    ensures { IfOk result (λ cause. cause ≡ refused_of last told.now.view.number told.now.answer) }
{
    match told.answer() {
        Some(answer) => refused_by(alloc, last, told.view().number(), answer),
        None => Ok(None),
    }
}

fn refused_by(
    alloc: Global,
    last: Last,
    number: u32,
    answer: &Answer,
) -> Result<Option<Cause>, Memory>
    ensures { IfOk result (λ cause. cause ≡ refused_of last number (Some answer.now)) }
{
    if is_ok(answer.word) {
        return Ok(None);
    }
    let text = Bytes::from_slice(alloc, answer.text.as_slice())?;
    Ok(Some(refusal(last, number, text)))
}

fn refusal(last: Last, number: u32, text: Bytes) -> Cause
    ensures { result ≡ refusal last number text }
{
    match last {
        Last::Login => Cause::NoLogin { text },
        _ => Cause::Server { number, text },
    }
}

/// Returns what the server lacks by its answer to the last command, if anything.
fn lacking(alloc: Global, last: Last, view: &View) -> Result<Option<Cause>, Memory>
    ensures { IfOk result (λ cause. cause ≡ option_map lacking (lacks_of last view.now)) }
{
    match lacks(last, view) {
        Some(name) => Ok(Some(Cause::Lacking {
            name: Text::from_text(alloc, name)?,
        })),
        None => Ok(None),
    }
}

fn lacks(last: Last, view: &View) -> Option<&'static str>
    ensures some { IfSome result (λ name. lacks_of last view.now ≡ Some name.now) }
    ensures none { IfNone result (lacks_of last view.now ≡ None) }
{
    match last {
        Last::Capability => view.lacking_capability(),
        Last::Enable => view.lacking_enabled(),
        Last::Select => view.lacking_selected(),
        _ => None,
    }
}
