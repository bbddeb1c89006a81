//! One turn of a link.
ghost use Rattle.std.specs.Prelude.{◌≡◌, ◌&&◌, [], false, true, IfOk, OnErr};
ghost use Rattle.account_script.specs.Asks.{copy_steps, login_steps, script_of, script_with};
ghost use Rattle.account_turns.specs.Exchanges.{IsCausedBy, IsUnheard};
ghost use Rattle.account_turns.specs.Steps.{IsFirst, Matches, is_unsteady};
ghost use Rattle.account_turns.specs.Turns.{Continues, Turn};
ghost use Rattle.account_mail.specs.Sides.{IsSteady};
ghost use Rattle.account_mail.specs.Turned.{Ended, IsKeptUser, LoginEnded, is_user, login_errand, login_fresh, who_after};
ghost use Rattle.account_mail.specs.Ups.{up_after};

use account_script::{Progress, Step, copy_script, script};
use account_turns::{Credentials, Ending, follow, keeps_up};
use mail_io::Link;
use mail_talk::Listener;
use mail_values::{Memory, Text};
use site_asks::Ask;
use std::alloc::Global;

/// Returns whether an account is logged in after an ending.
fn is_up_after(ending: &Ending, up: bool) -> bool
    ensures { result ≡ up_after ending.now up }
{
    match ending {
        Ending::Done => up,
        Ending::Stopped(cause) => up && keeps_up(cause),
        Ending::Failed => false,
    }
}

/// Follows the steps of a script from its first on. Out of memory, nothing is said of `listener` and of `up`.
fn follow_script<L: Link>(
    alloc: Global,
    link: &mut L,
    listener: &mut Listener,
    fresh: &mut bool,
    up: &mut bool,
    who: &Credentials,
    ask: &Ask,
    message: &[u8],
    steps: &[Step],
) -> Result<Ending, Memory>
    requires first { IsFirst (is_unsteady fresh.old listener.old) steps.now }
    requires steady { IsSteady up.old fresh.old listener.old }
    ensures turn { (t : Turn) → Matches (record { who = who.now; ask = ask.now; message = message.now }) steps.now fresh.old (record { up = up.old; mark = 0 }) listener.old t →
        Continues (L.talk link.old) (L.talk link.new) t (λ u. IfOk result (λ ending. Ended ending up.new fresh.new listener.new u)) }
    ensures fault { IfOk result (λ ending. IsCausedBy ending (L.faults link.old) (L.faults link.new)) }
    ensures unheard { IfOk result (λ ending. fresh.new ≡ true → IsUnheard fresh.old listener.old listener.new) }
    ensures steady { IfOk result (λ ending. IsSteady up.new fresh.new listener.new) }
{
    let mut progress = Progress { up: *up, mark: 0 };
    let ending = follow(
        alloc,
        link,
        listener,
        fresh,
        &mut progress,
        who,
        ask,
        message,
        steps,
    )?;
    *up = is_up_after(&ending, progress.up);
    Ok(ending)
}

/// Follows the script of an ask. Out of memory, nothing is said of `listener` and of `up`.
pub fn follow_ask<L: Link>(
    alloc: Global,
    link: &mut L,
    listener: &mut Listener,
    fresh: &mut bool,
    up: &mut bool,
    who: &Credentials,
    ask: &Ask,
) -> Result<Ending, Memory>
    requires steady { IsSteady up.old fresh.old listener.old }
    ensures turn { (t : Turn) → Matches (record { who = who.now; ask = ask.now; message = [] }) (script_of ask.now up.old) fresh.old (record { up = up.old; mark = 0 }) listener.old t →
        Continues (L.talk link.old) (L.talk link.new) t (λ u. IfOk result (λ ending. Ended ending up.new fresh.new listener.new u)) }
    ensures fault { IfOk result (λ ending. IsCausedBy ending (L.faults link.old) (L.faults link.new)) }
    ensures unheard { IfOk result (λ ending. fresh.new ≡ true → IsUnheard fresh.old listener.old listener.new) }
    ensures steady { IfOk result (λ ending. IsSteady up.new fresh.new listener.new) }
{
    let steps = script(alloc, ask, *up)?;
    follow_script(alloc, link, listener, fresh, up, who, ask, &[], &steps)
}

/// Copies a message to the folder of sent messages, if there is one. Out of memory, nothing is said of `listener` and of `up`.
pub fn follow_copy<L: Link>(
    alloc: Global,
    link: &mut L,
    listener: &mut Listener,
    fresh: &mut bool,
    up: &mut bool,
    who: &Credentials,
    ask: &Ask,
    message: &[u8],
) -> Result<Ending, Memory>
    requires steady { IsSteady up.old fresh.old listener.old }
    ensures turn { (t : Turn) → Matches (record { who = who.now; ask = ask.now; message = message.now }) (script_with copy_steps up.old) fresh.old (record { up = up.old; mark = 0 }) listener.old t →
        Continues (L.talk link.old) (L.talk link.new) t (λ u. IfOk result (λ ending. Ended ending up.new fresh.new listener.new u)) }
    ensures fault { IfOk result (λ ending. IsCausedBy ending (L.faults link.old) (L.faults link.new)) }
    ensures steady { IfOk result (λ ending. IsSteady up.new fresh.new listener.new) }
{
    let steps = copy_script(alloc, *up)?;
    follow_script(alloc, link, listener, fresh, up, who, ask, message, &steps)
}

/// Whether the credentials that are kept are a user's.
fn is_user(who: &Option<Credentials>, user: &Text) -> bool
    ensures { result ≡ is_user user.now who.now }
{
    match who {
        Some(who) => who.user.as_str() == user.as_str(),
        None => false,
    }
}

/// Whether the dial of a login forgets what was told.
pub fn forgets(fresh: bool, kept: &Option<Credentials>, user: &Text) -> bool
    ensures { result ≡ login_fresh user.now kept.now fresh }
{
    fresh || !is_user(kept, user)
}

/// Whether the next dial is to be fresh, after one that was to be and still is, or not.
fn is_fresh_next(was: bool, still: bool) -> bool
    ensures { result ≡ (was && still) }
{
    was && still
}

/// Copies a user and a password.
pub fn credentials(alloc: Global, user: &Text, password: &Text) -> Result<Credentials, Memory>
    ensures { IfOk result (λ who. who ≡ record { user = user.now; password = password.now }) }
{
    Ok(Credentials {
        user: Text::from_text(alloc, user.as_str())?,
        password: Text::from_text(alloc, password.as_str())?,
    })
}

/// Takes note of who is kept after a login whose dial was to be fresh, or not, and still is.
fn keep_user(
    kept: &mut Option<Credentials>,
    ending: &Ending,
    who: Credentials,
    was_fresh: bool,
    is_fresh: bool,
)
    ensures { kept.new ≡ who_after ending.now who was_fresh is_fresh kept.old }
{
    match ending {
        Ending::Done => *kept = Some(who),
        _ => {
            if was_fresh && !is_fresh {
                *kept = None;
            }
        }
    }
}

/// Logs a user in, by a new connection. Out of memory, nothing is said of `listener` and of `up`.
pub fn log_in<L: Link>(
    alloc: Global,
    link: &mut L,
    listener: &mut Listener,
    kept: &mut Option<Credentials>,
    fresh: &mut bool,
    up: &mut bool,
    user: &Text,
    password: &Text,
) -> Result<Ending, Memory>
    ensures turn { (t : Turn) → Matches (login_errand user.now password.now) login_steps (login_fresh user.now kept.old fresh.old) (record { up = false; mark = 0 }) listener.old t →
        Continues (L.talk link.old) (L.talk link.new) t (λ u. IfOk result (λ ending. LoginEnded ending kept.old (login_errand user.now password.now) fresh.old fresh.new up.new kept.new listener.old listener.new u)) }
    ensures fault { IfOk result (λ ending. IsCausedBy ending (L.faults link.old) (L.faults link.new)) }
    ensures steady { IfOk result (λ ending. IsSteady up.new fresh.new listener.new) }
    ensures user { IfOk result (λ ending. IsKeptUser ending user.now password.now kept.new) }
    ensures same_user_on_err { OnErr result (kept.new ≡ kept.old) }
{
    let who = credentials(alloc, user, password)?;
    let was_fresh = forgets(*fresh, kept, user);
    let mut is_fresh = was_fresh;
    *up = false;
    let ending = follow_ask(
        alloc,
        link,
        listener,
        &mut is_fresh,
        up,
        &who,
        &Ask::LoginPage,
    )?;
    *fresh = is_fresh_next(*fresh, is_fresh);
    keep_user(kept, &ending, who, was_fresh, is_fresh);
    Ok(ending)
}
