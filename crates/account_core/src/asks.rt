//! The turn of an ask.
ghost use Rattle.std.specs.Prelude.{◌≡◌, ◌<◌, [], true, Ok, IsSome, IfOk, OnOk, IfSome};
ghost use Rattle.account_script.specs.Asks.{has_script};
ghost use Rattle.account_turns.specs.Exchanges.{IsCausedBy};
ghost use Rattle.account_core.specs.Accounts.{IsOwned};
ghost use Rattle.account_core.specs.Events.{DoesEvent};
ghost use Rattle.account_core.specs.Served.{ServeTurn, is_served};
ghost use Rattle.account_core.specs.Turned.{AskTurn, IsSafeEnd, answer_of};

use crate::sending::send_draft;
use account_answers::{Answer, done_answer, stopped_answer, unreachable_answer};
use account_mail::MailSide;
use account_sends::Outbox;
use account_turns::Ending;
use mail_io::Link;
use mail_talk::Told;
use mail_values::{Memory, Text};
use record_io::Keeper;
use site_asks::Ask;
use std::alloc::Global;

/// Returns the answer to an ask whose script ended.
fn ended_answer(
    alloc: Global,
    ask: &Ask,
    key: &Text,
    ending: &Ending,
    told: &Told,
) -> Result<Answer, Memory>
    requires served { has_script ask.now ≡ true }
    ensures equals { IfOk result (λ answer. answer ≡ answer_of ask.now key.now ending.now told.now) }
    ensures is_safe { OnOk result (IsSafeEnd ask.now key.now ending.now told.now) }
{
    match ending {
        Ending::Done => done_answer(alloc, ask, key, told),
        Ending::Stopped(cause) => stopped_answer(alloc, cause),
        Ending::Failed => unreachable_answer(alloc),
    }
}

/// Carries out an ask of the mail server alone, and returns its answer.
fn answer_ask<L: Link>(
    alloc: Global,
    mail: &mut MailSide<L>,
    key: &Text,
    ask: &Ask,
) -> Result<Answer, Memory>
    requires known { IsSome mail.old.who }
    requires served { has_script ask.now ≡ true }
    ensures turn { IfSome mail.old.who (λ who. AskTurn (record { who = who; ask = ask.now; message = [] }) key.now mail.old mail.new result) }
    ensures same_user { mail.new.who ≡ mail.old.who }
{
    let ending = mail.carry_out(alloc, ask)?;
    ended_answer(alloc, ask, key, &ending, mail.told())
}

/// Carries out an ask, whether it sends a form or not, and returns its answer.
pub fn serve<L: Link, K: Keeper>(
    alloc: Global,
    mail: &mut MailSide<L>,
    outbox: &mut Outbox<L, K>,
    domain: &Text,
    key: &Text,
    ask: &Ask,
    now: i64,
) -> Result<Answer, Memory>
    requires known { IsSome mail.old.who }
    requires owned { IsOwned mail.old.who outbox.old.adopted }
    requires served { is_served ask.now ≡ true }
    ensures turn { IfSome mail.old.who (λ who. ServeTurn who domain.now ask.now key.now now mail.old mail.new outbox.old outbox.new result) }
    ensures same_user { mail.new.who ≡ mail.old.who }
    ensures event { IfSome mail.old.who (λ who. DoesEvent who ask.now outbox.old outbox.new) }
    ensures same_adopted { outbox.new.adopted ≡ outbox.old.adopted }
{
    match ask {
        Ask::SendDraft { fields, .. } => {
            send_draft(alloc, mail, outbox, domain, ask, fields, now)
        }
        _ => answer_ask(alloc, mail, key, ask),
    }
}
