//! The turn of an ask that sends a form.
ghost use Rattle.std.specs.Prelude.{◌≡◌, ◌<◌, length, IsSome, IfSome, IfOk, OnOk};
ghost use Rattle.account_core.specs.Accounts.{IsOwned};
ghost use Rattle.account_core.specs.Sends.{CopyTurn, IsSafeCopied, LooksUp, copied_answer, SendTurn, SubmitTurn, TryTurn};

use account_answers::{Answer, sent_answer, stopped_answer, unreachable_answer, unsent_answer};
use account_mail::MailSide;
use account_sends::{Letter, Outbox, SendFault};
use account_turns::Ending;
use mail_io::Link;
use mail_values::{Memory, Text};
use record_io::Keeper;
use site_asks::{Ask, Draft};
use std::alloc::Global;

/// Returns the answer of a form that was sent, by how its copy ended.
fn copied_answer(alloc: Global, ending: &Ending) -> Result<Answer, Memory>
    ensures equals { IfOk result (λ answer. answer ≡ copied_answer ending.now) }
    ensures is_safe { OnOk result (IsSafeCopied ending.now) }
{
    match ending {
        Ending::Done => sent_answer(alloc),
        Ending::Stopped(cause) => stopped_answer(alloc, cause),
        Ending::Failed => unreachable_answer(alloc),
    }
}

/// Copies a message that was sent, and answers.
fn copy<L: Link>(
    alloc: Global,
    mail: &mut MailSide<L>,
    ask: &Ask,
    message: &[u8],
) -> Result<Answer, Memory>
    requires who { IsSome mail.old.who }
    ensures turn { IfSome mail.old.who (λ who. CopyTurn who ask.now message.now mail.old mail.new result) }
    ensures same_user { mail.new.who ≡ mail.old.who }
{
    let ending = mail.copy(alloc, ask, message)?;
    copied_answer(alloc, &ending)
}

/// Submits a letter, and copies its message if that goes well.
fn submit<L: Link, K: Keeper>(
    alloc: Global,
    mail: &mut MailSide<L>,
    outbox: &mut Outbox<L, K>,
    ask: &Ask,
    letter: &Letter,
) -> Result<Answer, Memory>
    requires who { IsSome mail.old.who }
    requires owned { IsOwned mail.old.who outbox.old.adopted }
    requires nonempty { 0 < length letter.now.message }
    ensures turn { IfSome mail.old.who (λ who. SubmitTurn who ask.now letter.now mail.old mail.new outbox.old outbox.new result) }
    ensures same_user { mail.new.who ≡ mail.old.who }
    ensures same_adopted { outbox.new.adopted ≡ outbox.old.adopted }
{
    let Some(who) = mail.who() else {
        return Err(Memory);
    };
    match outbox.submit(alloc, &who.user, &who.password, letter) {
        Ok(()) => copy(alloc, mail, ask, letter.message.as_slice()),
        Err(fault) => unsent_answer(alloc, letter.envelope.form, &fault),
    }
}

/// Tries the connection to the mail server, and submits a letter if it is there.
fn try_and_submit<L: Link, K: Keeper>(
    alloc: Global,
    mail: &mut MailSide<L>,
    outbox: &mut Outbox<L, K>,
    ask: &Ask,
    letter: &Letter,
) -> Result<Answer, Memory>
    requires who { IsSome mail.old.who }
    requires owned { IsOwned mail.old.who outbox.old.adopted }
    requires nonempty { 0 < length letter.now.message }
    ensures turn { IfSome mail.old.who (λ who. TryTurn who ask.now letter.now mail.old mail.new outbox.old outbox.new result) }
    ensures same_user { mail.new.who ≡ mail.old.who }
    ensures same_adopted { outbox.new.adopted ≡ outbox.old.adopted }
{
    match mail.carry_out(alloc, ask)? {
        Ending::Done => submit(alloc, mail, outbox, ask, letter),
        Ending::Stopped(cause) => stopped_answer(alloc, &cause),
        Ending::Failed => unreachable_answer(alloc),
    }
}

/// Looks up what is to be submitted for a draft.
fn look_up<L: Link, K: Keeper>(
    alloc: Global,
    mail: &MailSide<L>,
    outbox: &mut Outbox<L, K>,
    domain: &Text,
    draft: &Draft,
    moment: i64,
) -> Result<Option<Letter>, SendFault>
    requires owned { IsOwned mail.now.who outbox.old.adopted }
    requires who { IsSome mail.now.who }
    ensures looks { IfSome mail.now.who (λ who. LooksUp who domain.now draft.now moment outbox.old outbox.new result) }
    ensures nonempty { IfOk result (λ found. IfSome found (λ letter. 0 < length letter.message)) }
    ensures same_adopted { outbox.new.adopted ≡ outbox.old.adopted }
{
    let Some(who) = mail.who() else {
        return Err(SendFault::Memory);
    };
    outbox.prepare(alloc, &who.user, domain, draft, moment)
}

/// Sends a form, and answers. `moment` is the date of its message, in seconds since 1970.
pub fn send_draft<L: Link, K: Keeper>(
    alloc: Global,
    mail: &mut MailSide<L>,
    outbox: &mut Outbox<L, K>,
    domain: &Text,
    ask: &Ask,
    draft: &Draft,
    moment: i64,
) -> Result<Answer, Memory>
    requires who { IsSome mail.old.who }
    requires owned { IsOwned mail.old.who outbox.old.adopted }
    ensures turn { IfSome mail.old.who (λ who. SendTurn who domain.now ask.now draft.now moment mail.old mail.new outbox.old outbox.new result) }
    ensures same_user { mail.new.who ≡ mail.old.who }
    ensures same_adopted { outbox.new.adopted ≡ outbox.old.adopted }
{
    match look_up(alloc, mail, outbox, domain, draft, moment) {
        Ok(Some(letter)) => try_and_submit(alloc, mail, outbox, ask, &letter),
        Ok(None) => sent_answer(alloc),
        Err(fault) => unsent_answer(alloc, draft.form, &fault),
    }
}
