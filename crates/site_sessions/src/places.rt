//! The places of a roster.
ghost use Rattle.std.specs.Prelude.{◌≡◌, ◌<◌, ℕ, IfSome, List, Option, map, length, option_and_then, option_map, slice_get, is_none, is_some, if◌then◌else◌, None};
ghost use Rattle.std.specs.List.{count_by, list_any, position, range_with_len};
ghost use Rattle.site_sessions.specs.Sessions.{ended, has_live_token, is_of, kept};
ghost use Rattle.site_sessions.specs.Entering.{has_no_session, is_in, unless_idle};

use crate::session::Session;
use crate::slots::Slot;
use mail_values::Text;
use turn_desk::{Names, Pass};

/// A place: one session or none.
pub type Place<N> = Option<Session<N>>;

/// The lowest place whose session has the token and is live.
pub fn live_place<N: Names>(places: &[Place<N>], token: &[u8], now: &i64) -> Option<usize>
    ensures within { IfSome result (λ place. place < length places.now) }
    ensures equals { result ≡ position (has_live_token token.now now.now) places.now }
{
    for i in 0..places.len() {
        if has_live_token(&places[i], token, *now) {
            return Some(i);
        }
    }
    None
}

fn has_live_token<N: Names>(place: &Place<N>, token: &[u8], now: i64) -> bool
    ensures { result ≡ has_live_token token.now now place.now }
{
    match place {
        Some(session) => session.has_token(token) && !session.is_idle(now),
        None => false,
    }
}

/// The lowest place without a session.
pub fn free_place<N: Names>(places: &[Place<N>]) -> Option<usize>
    ensures within { IfSome result (λ place. place < length places.now) }
    ensures equals { result ≡ position is_none places.now }
{
    for i in 0..places.len() {
        if places[i].is_none() {
            return Some(i);
        }
    }
    None
}

/// Ends the sessions that are idle.
pub fn end_idle<N: Names>(places: &mut [Place<N>], now: &i64)
    ensures { places.new ≡ map (unless_idle now.now) places.old }
{
    for i in 0..places.len() {
        end_if_idle(&mut places[i], *now);
    }
}

fn end_if_idle<N: Names>(place: &mut Place<N>, now: i64)
    ensures { place.new ≡ unless_idle now place.old }
{
    if is_idle(place, now) {
        *place = None;
    }
}

fn is_idle<N: Names>(place: &Place<N>, now: i64) -> bool
    ensures { unless_idle now place.now ≡ (if result then None else place.now) }
{
    match place {
        Some(session) => session.is_idle(now),
        None => false,
    }
}

/// How many places have a session.
pub fn count_sessions<N: Names>(places: &[Place<N>]) -> usize
    ensures { result ≡ count_by is_some places.now }
{
    let mut count = 0;
    for place in places {
        if place.is_some() {
            count += 1;
        }
    }
    count
}

/// How many places have a session of this user.
pub fn count_sessions_of<N: Names>(places: &[Place<N>], user: &Text) -> usize
    ensures { result ≡ count_by (is_of user.now) places.now }
{
    let mut count = 0;
    for place in places {
        if is_of(place, user) {
            count += 1;
        }
    }
    count
}

fn is_of<N: Names>(place: &Place<N>, user: &Text) -> bool
    ensures { result ≡ is_of user.now place.now }
{
    match place {
        Some(session) => session.is_of(user),
        None => false,
    }
}

/// The lowest account below `count` without a session.
pub fn free_account<N: Names>(places: &[Place<N>], count: usize) -> Option<usize>
    ensures within { IfSome result (λ account. account < count) }
    ensures equals { result ≡ position (has_no_session places.now) (range_with_len 0 count) }
{
    for account in 0..count {
        if !has_session(places, account) {
            return Some(account);
        }
    }
    None
}

fn has_session<N: Names>(places: &[Place<N>], account: usize) -> bool
    ensures { result ≡ list_any (is_in account) places.now }
{
    for place in places {
        if is_in(place, account) {
            return true;
        }
    }
    false
}

fn is_in<N: Names>(place: &Place<N>, account: usize) -> bool
    ensures { result ≡ is_in account place.now }
{
    match place {
        Some(session) => session.account as usize == account,
        None => false,
    }
}

/// Ends the session of a place, if it has this token.
pub fn end_at<N: Names>(place: &mut Place<N>, token: &Text)
    ensures { place.new ≡ option_and_then (ended token.now) place.old }
{
    if has_token(place, token) {
        *place = None;
    }
}

#[tactic(auto, unfolding(crate::specs::Sessions::ended))]
fn has_token<N: Names>(place: &Place<N>, token: &Text) -> bool
    ensures { option_and_then (ended token.now) place.now ≡ (if result then None else place.now) }
{
    match place {
        Some(session) => session.has_token(token.as_str().as_bytes()),
        None => false,
    }
}

/// Keeps what a pass has seen in the session of a place. `slots` are those of all accounts.
pub fn keep_at<N: Names>(
    place: &mut Place<N>,
    slots: &[Slot<N>],
    token: &Text,
    now: i64,
    pass: Pass<N>,
)
    requires account { IfSome place.old (λ s. s.account < length slots.now) }
    requires desks { (i : ℕ) → IfSome (slice_get slots.now i) (λ slot. slot.pass.desk ≡ i) }
    ensures { place.new ≡ option_map (kept token.now now pass) place.old }
{
    if let Some(session) = place {
        let account = session.account as usize;
        session.keep(slots[account].table(), token, now, pass);
    }
}
