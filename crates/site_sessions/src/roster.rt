//! The roster of sessions.
ghost use Rattle.std.specs.Prelude.{◌≡◌, ℕ, ◌≤◌, ◌<◌, IfErr, IfOk, IfSome, IsSome, Some, None, is_none, length, map, option_and_then, option_map, replicate, slice_get};
ghost use Rattle.std.specs.List.{position};
ghost use Rattle.site_sessions.specs.Sessions.{IsRoster, RosterValue, changed, ended, find, kept, place_count, slot_limit};
ghost use Rattle.site_sessions.specs.Entering.{Enters, IsAdmitted, IsRefusal, fault_of, slot_of, without_idle};

use crate::fault::EnterFault;
use crate::places::{
    Place, count_sessions, count_sessions_of, end_at, end_idle, free_account, free_place, keep_at,
    live_place,
};
use crate::session::Session;
use crate::slots::{Slot, slot_given_to, unused_slot};
use mail_values::Text;
use std::alloc::{AllocError, Global};
use std::marker::Model;
use turn_desk::{Names, Pass, Storied};

/// Places for sessions.
const PLACES: usize = 128;

/// The most live sessions of one user.
const USER_LIMIT: usize = 8;

/// The sessions of a site. Contracts see a `RosterValue`.
#[derive(Drop)]
pub struct Roster<N: Names> {
    places: Vec<Place<N>>,
    slots: Vec<Slot<N>>,
}

impl<N: Names> Model for Roster<N> {
    ghost use Rattle.site_sessions.specs.Sessions.{IsRoster, RosterValue};

    ghost Value = { RosterValue };

    ghost view = { λ r. record { places = r.places.items; slots = r.slots.items } };

    ghost invariant = { λ r. IsRoster (record { places = r.places.items; slots = r.slots.items }) };
}

impl<N: Names> Storied for Roster<N> {
    ghost use Rattle.account_pictures.specs.declared.pictures.Picture.TheVariants.{Roster};
    ghost use Rattle.site_sessions.specs.Pictures.{picture_of};

    ghost picture = { λ r. Roster (picture_of r) };
}

impl<N: Names> Roster<N> {
    /// A roster without sessions. `slots` are those of the accounts from 0 on.
    pub fn new(alloc: Global, slots: Vec<Slot<N>>) -> Result<Self, AllocError>
        requires some { 1 ≤ length slots.items }
        requires few { length slots.items ≤ slot_limit }
        requires desks { (i : ℕ) → IfSome (slice_get slots.items i) (λ slot. slot.pass.desk ≡ i) }
        ensures { IfOk result (λ r. r ≡ record { places = replicate place_count None; slots = slots.items }) }
    {
        let places = empty_places(alloc)?;
        Ok(Roster { places, slots })
    }

    /// The lowest place whose session has the token and is live.
    pub fn find(&self, token: &[u8], now: i64) -> Option<u32>
        ensures limits { IsRoster self.now }
        ensures equals { result ≡ find token.now now self.now }
        ensures some { IfSome result (λ place. IsSome (option_and_then (λ s. s) (slice_get self.now.places place))) }
    {
        self.find_live(token, now)
    }

    #[tactic(auto, unfolding(crate::specs::Sessions::find))]
    fn find_live(&self, token: &[u8], now: i64) -> Option<u32>
        ensures limits { IsRoster self.now }
        ensures equals { result ≡ find token.now now self.now }
    {
        let place = live_place(&self.places, token, &now)?;
        Some(place as u32)
    }

    /// The session of a place, with a copy of its pass.
    pub fn session(&mut self, alloc: Global, place: u32) -> Result<Session<N>, AllocError>
        requires some { IsSome (option_and_then (λ s. s) (slice_get self.old.places place)) }
        ensures unchanged { self.new ≡ self.old }
        ensures equals { IfOk result (λ s. slice_get self.old.places place ≡ Some (Some s)) }
    {
        let place = place as usize;
        let Some(session) = &mut self.places[place] else {
            return Err(AllocError);
        };
        let account = session.account as usize;
        session.copy(alloc, self.slots[account].table())
    }

    /// Keeps what a pass has seen, and the moment of an ask: in the session of a place, if it has this token and the pass is of its
    /// account's desk.
    pub fn keep(&mut self, place: u32, token: &Text, now: i64, pass: Pass<N>)
        ensures { self.new ≡ changed place (option_map (kept token.now now pass)) self.old }
    {
        let place = place as usize;
        if place < self.places.len() {
            keep_at(&mut self.places[place], &self.slots, token, now, pass);
        }
    }

    /// Ends the session of a place, if it has this token.
    pub fn end(&mut self, place: u32, token: &Text)
        ensures { self.new ≡ changed place (option_and_then (ended token.now)) self.old }
    {
        let place = place as usize;
        if place < self.places.len() {
            end_at(&mut self.places[place], token);
        }
    }

    /// Gives a user a session, and returns its place. Sessions that are idle are ended first.
    pub fn enter(
        &mut self,
        alloc: Global,
        user: &Text,
        token: &Text,
        key: &Text,
        now: i64,
    ) -> Result<u32, EnterFault>
        ensures { Enters user.now token.now key.now now self.old self.new result }
    {
        let entrant = Entrant::new(alloc, user, token, key, now)?;
        self.end_idle(now);
        let (place, account) = self.choose(user)?;
        self.admit(place, account, entrant);
        Ok(place as u32)
    }

    /// Ends the sessions that are idle.
    #[tactic(auto, unfolding(crate::specs::Entering::without_idle))]
    fn end_idle(&mut self, now: i64)
        ensures { self.new ≡ without_idle now self.old }
    {
        end_idle(&mut self.places, &now);
    }

    /// Returns the place and the account of a user who enters, or the first fault.
    fn choose(&self, user: &Text) -> Result<(usize, usize), EnterFault>
        ensures no_fault { IfOk result (λ chosen. fault_of user.now self.now ≡ None) }
        ensures place { IfOk result (λ chosen. position is_none self.now.places ≡ Some chosen.0) }
        ensures account { IfOk result (λ chosen. slot_of user.now self.now ≡ Some chosen.1) }
        ensures place_within { IfOk result (λ chosen. chosen.0 < place_count) }
        ensures account_within { IfOk result (λ chosen. chosen.1 < length self.now.slots) }
        ensures fault { IfErr result (λ fault. fault_of user.now self.now ≡ Some fault) }
        ensures refused { IfErr result IsRefusal }
    {
        let Some(place) = free_place(&self.places) else {
            return Err(EnterFault::Full {
                live: PLACES as u32,
            });
        };
        let own = count_sessions_of(&self.places, user);
        if own >= USER_LIMIT {
            return Err(EnterFault::AccountFull { live: own as u32 });
        }
        match self.account_for(user) {
            Some(account) => Ok((place, account)),
            None => Err(EnterFault::NoSlot {
                live: count_sessions(&self.places) as u32,
            }),
        }
    }

    #[tactic(auto, unfolding(crate::specs::Entering::slot_of))]
    fn account_for(&self, user: &Text) -> Option<usize>
        ensures within { IfSome result (λ account. account < length self.now.slots) }
        ensures equals { result ≡ slot_of user.now self.now }
    {
        if let Some(account) = slot_given_to(&self.slots, user) {
            return Some(account);
        }
        if let Some(account) = unused_slot(&self.slots) {
            return Some(account);
        }
        free_account(&self.places, self.slots.len())
    }

    /// Puts a session of an account into a place.
    fn admit(&mut self, place: usize, account: usize, entrant: Entrant)
        requires no_fault { fault_of entrant.user self.old ≡ None }
        requires place { position is_none self.old.places ≡ Some place }
        requires account { slot_of entrant.user self.old ≡ Some account }
        requires place_within { place < place_count }
        requires account_within { account < length self.old.slots }
        ensures { IsAdmitted entrant.user entrant.token entrant.key entrant.now place self.old self.new }
    {
        let Entrant {
            user,
            slot_user,
            token,
            key,
            now,
        } = entrant;
        let pass = self.slots[account].give(slot_user);
        self.places[place] = Some(Session {
            account: account as u32,
            user,
            token,
            key,
            last: now,
            pass,
        });
    }
}

/// What a session is made of: texts that are copied before anything changes.
#[derive(Drop)]
struct Entrant {
    user: Text,
    /// The same text, for the slot.
    slot_user: Text,
    token: Text,
    key: Text,
    now: i64,
    ghost one_user: { slot_user ≡ user },
}

impl Entrant {
    fn new(
        alloc: Global,
        user: &Text,
        token: &Text,
        key: &Text,
        now: i64,
    ) -> Result<Self, AllocError>
        ensures user { IfOk result (λ e. e.user ≡ user.now) }
        ensures token { IfOk result (λ e. e.token ≡ token.now) }
        ensures key { IfOk result (λ e. e.key ≡ key.now) }
        ensures now { IfOk result (λ e. e.now ≡ now) }
    {
        Ok(Entrant {
            user: Text::from_text(alloc, user.as_str())?,
            slot_user: Text::from_text(alloc, user.as_str())?,
            token: Text::from_text(alloc, token.as_str())?,
            key: Text::from_text(alloc, key.as_str())?,
            now,
        })
    }
}

fn empty_places<N: Names>(alloc: Global) -> Result<Vec<Place<N>>, AllocError>
    ensures { IfOk result (λ places. places.items ≡ replicate place_count None) }
{
    let mut places = Vec::with_capacity(alloc, PLACES)?;
    for _place in 0..PLACES {
        places.push(None)?;
    }
    Ok(places)
}
