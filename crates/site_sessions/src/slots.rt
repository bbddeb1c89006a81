//! The accounts that users are given.
ghost use Rattle.std.specs.Prelude.{◌≡◌, Some, length, IfSome, ◌<◌};
ghost use Rattle.site_sessions.specs.Sessions.{SlotValue};
ghost use Rattle.std.specs.List.{position};
ghost use Rattle.site_sessions.specs.Entering.{given_to, is_unused, was_given_to};

use mail_values::Text;
use std::marker::Model;
use turn_desk::{DeskTable, Names, Pass};

/// An account that users are given: a pass of its desk, with the desk's table, by which it is copied, and the last user that had it.
#[derive(Drop)]
pub struct Slot<N: Names> {
    user: Option<Text>,
    pass: Pass<N>,
    table: DeskTable<N>,
}

impl<N: Names> Model for Slot<N> {
    ghost use Rattle.std.specs.Prelude.{◌≡◌};
    ghost use Rattle.site_sessions.specs.Sessions.{SlotValue};

    ghost Value = { SlotValue };

    ghost view = { λ s. record { user = s.user; pass = s.pass } };

    ghost invariant = { λ s. s.table ≡ s.pass.desk };
}

impl<N: Names> Slot<N> {
    /// A slot that was given to nobody.
    pub fn new(pass: Pass<N>, table: DeskTable<N>) -> Self
        requires one_desk { table ≡ pass.desk }
        ensures { result ≡ record { user = None; pass = pass } }
    {
        Slot {
            user: None,
            pass,
            table,
        }
    }

    fn was_given_to(&self, user: &Text) -> bool
        ensures { result ≡ was_given_to user.now self.now }
    {
        match &self.user {
            Some(last) => *last == *user,
            None => false,
        }
    }

    fn is_unused(&self) -> bool
        ensures { result ≡ is_unused self.now }
    {
        self.user.is_none()
    }

    /// The table of the account's desk.
    pub(crate) fn table(&self) -> &DeskTable<N>
        ensures { result.now ≡ self.now.pass.desk }
    {
        &self.table
    }

    /// Gives the account to a user: a pass of its desk.
    pub(crate) fn give(&mut self, user: Text) -> Pass<N>
        ensures given { self.new ≡ given_to user self.old }
        ensures pass { result ≡ self.old.pass }
    {
        self.user = Some(user);
        self.pass.copy(&self.table)
    }
}

/// The lowest slot that this user had last.
pub fn slot_given_to<N: Names>(slots: &[Slot<N>], user: &Text) -> Option<usize>
    ensures within { IfSome result (λ slot. slot < length slots.now) }
    ensures equals { result ≡ position (was_given_to user.now) slots.now }
{
    for i in 0..slots.len() {
        if slots[i].was_given_to(user) {
            return Some(i);
        }
    }
    None
}

/// The lowest slot that was never used.
pub fn unused_slot<N: Names>(slots: &[Slot<N>]) -> Option<usize>
    ensures within { IfSome result (λ slot. slot < length slots.now) }
    ensures equals { result ≡ position is_unused slots.now }
{
    for i in 0..slots.len() {
        if slots[i].is_unused() {
            return Some(i);
        }
    }
    None
}
