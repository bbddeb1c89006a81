//! A door in memory, whose calls fail if their numbers are in a list. The first call has the number 1.
ghost use Rattle.std.specs.Prelude.{◌≡◌, ◌+◌, ◌<◌, ◌⊎◌, ◌↔◌, ◌∷◌, ◌++◌, [], length, All, Some, IsErr, IsNone, IfSome, OnSome, IfNone, IfOk, OnOk, OnErr, Contains};
ghost use Rattle.mail_io.specs.Causes.{HasCause};
ghost use Rattle.mail_io.specs.Memory.{next_count};
ghost use Rattle.site_io.specs.Doors.{DoorState, after_accept, failed};
ghost use Rattle.site_io.specs.Told.{IsNewCaller};

use crate::{Caller, Door};
use mail_io::Failed;
use std::alloc::{AllocError, Global};
use std::collections::VecDeque;
use std::marker::Model;

/// A door that lets in the callers of a list, and keeps those that left. After the last one `accept` is a fault.
///
/// It makes the room for those that leave when it is made.
#[derive(Drop)]
pub struct ScriptedDoor<C: Caller + Drop, N: Drop> {
    waiting: VecDeque<C>,
    accepted: usize,
    departed: Vec<(C, N)>,
    calls: u64,
    faults: u64,
    failing: Vec<u64>,
}

impl<C: Caller + Drop, N: Drop> Model for ScriptedDoor<C, N> {
    ghost use Rattle.std.specs.Prelude.{◌≤◌, ◌+◌, length, vec_capacity, All};
    ghost use Rattle.site_io.specs.Doors.{DoorState};
    ghost use Rattle.site_io.specs.Told.{IsNewCaller};

    ghost Value = { DoorState C N };

    ghost view = { λ d. record { waiting = d.waiting.items; accepted = d.accepted; departed = d.departed.items; calls = d.calls; faults = d.faults; failing = d.failing.items } };

    ghost invariant = { λ d. (d.accepted + length d.waiting.items ≤ vec_capacity d.departed) × All (λ c. IsNewCaller (C.faults c) (C.heard c) (C.sent c)) d.waiting.items };
}

impl<C: Caller + Drop, N: Drop> ScriptedDoor<C, N> {
    /// A door that lets in these callers, in order.
    pub fn new(alloc: Global, callers: Vec<C>, failing: Vec<u64>) -> Result<Self, AllocError>
        requires new_callers { All (λ c. IsNewCaller (C.faults c) (C.heard c) (C.sent c)) callers.items }
        ensures { IfOk result (λ d. d ≡ record { waiting = callers.items; accepted = 0; departed = []; calls = 0; faults = 0; failing = failing.items }) }
    {
        Ok(ScriptedDoor {
            departed: Vec::with_capacity(alloc, callers.len())?,
            waiting: VecDeque::from_vec(callers),
            accepted: 0,
            calls: 0,
            faults: 0,
            failing,
        })
    }

    /// The callers that left, each with its note.
    pub fn departed(&self) -> &[(C, N)]
        ensures { result.now ≡ self.now.departed }
    {
        &self.departed
    }

    /// Counts a call of `accept`, and returns the caller that comes in; `None` if the call fails.
    fn admit(&mut self) -> Option<C>
        ensures iff_failing { IsNone result ↔ (Contains self.old.failing (next_count self.old.calls) ⊎ (self.old.waiting ≡ [])) }
        ensures first { IfSome result (λ caller. self.old.waiting ≡ caller ∷ self.new.waiting) }
        ensures on_some { OnSome result (self.new ≡ after_accept self.old self.new.waiting) }
        ensures on_none { IfNone result (self.new ≡ record self.old { calls = next_count self.old.calls }) }
        ensures new_caller { IfSome result (λ caller. IsNewCaller (C.faults caller) (C.heard caller) (C.sent caller)) }
    {
        self.calls = self.calls.saturating_add(1);
        if self.failing.contains(&self.calls) {
            return None;
        }
        let caller = self.waiting.pop_front()?;
        self.accepted += 1;
        Some(caller)
    }
}

impl<C: Caller + Drop, N: Drop> Door for ScriptedDoor<C, N> {
    type C = C;

    type Note = N;

    ghost accepted = { λ d. Some d.accepted };

    ghost departed = { λ d. Some d.departed };

    ghost faults = { λ d. d.faults };

    fn accept(&mut self) -> Result<C, Failed>
        ensures iff_failing { IsErr result ↔ (Contains self.old.failing (next_count self.old.calls) ⊎ (self.old.waiting ≡ [])) }
        ensures first { IfOk result (λ caller. self.old.waiting ≡ caller ∷ self.new.waiting) }
        ensures on_ok { OnOk result (self.new ≡ after_accept self.old self.new.waiting) }
        ensures on_err { OnErr result (self.new ≡ failed self.old) }
        ensures new_caller { IfOk result (λ caller. IsNewCaller (C.faults caller) (C.heard caller) (C.sent caller)) }
        ensures cause { HasCause self.old.faults self.new.faults result }
    {
        match self.admit() {
            Some(caller) => Ok(caller),
            None => {
                self.faults = self.faults.saturating_add(1);
                Err(Failed)
            }
        }
    }

    fn leave(&mut self, caller: C, note: N)
        requires inside { length self.old.departed < self.old.accepted }
        ensures { self.new ≡ record self.old { departed = self.old.departed ++ (caller, note) ∷ [] } }
    {
        self.departed.push((caller, note)).unwrap();
    }
}
