//! What is under a desk's lock.
ghost use Rattle.std.specs.Prelude.{◌≡◌, ◌≤◌, ◌<◌, ◌+◌, ◌-◌, ◌^◌, true, false, [], take, length};
ghost use mathlib.Core.List.{IsPrefix};
ghost use Rattle.account_pictures.specs.Story.{story_of};
ghost use Rattle.turn_desk.specs.Views.{MakesTurn, Stays, first_view, merge_seen, seen_of};

use crate::naming::Names;
use crate::pass::Pass;
use crate::steps;
use crate::table::{DeskSeat, DeskTable};
use crate::views::View;
use crate::work::{Storied, Work};
use std::marker::PhantomData;
use std::snapshot::Snapshot;

/// The value of a desk, the number of turns that it had, and the home seat, whose view has the last turn.
#[derive(Drop)]
pub(crate) struct Locked<T: Storied, N: Names> {
    inner: T,
    pub(crate) number: u32,
    pub(crate) turns: u64,
    home: DeskSeat,
    of: PhantomData<N>,
    ghost of_table: { home.table_id ≡ N.table number },
    ghost is_home: { home.me.0.is_home ≡ true },
    ghost is_unspent: { home.me.0.is_spent ≡ false },
    ghost counted: { home.me.0.turn ≡ turns },
    ghost told: { take (length home.me.0.story) (story_of (T.picture inner)) ≡ home.me.0.story },
    ghost latest: { (1 ≤ turns) → home.me.0.story ≡ story_of (T.picture inner) },
}

impl<T: Storied, N: Names> Locked<T, N> {
    /// The value before its first turn.
    pub(crate) fn new(inner: T, number: u32, home: DeskSeat) -> Self
        requires of_table { home.table_id ≡ N.table number }
        requires first { home.me ≡ (first_view, []) }
        ensures number { result.number ≡ number }
    {
        Locked {
            inner,
            number,
            turns: 0,
            home,
            of: PhantomData,
        }
    }

    /// One turn: `pass` tells the home seat what it had seen, the work runs, the home seat notes the turn, and `pass` is
    /// shown it.
    pub(crate) fn turn<W: Work<T>>(
        &mut self,
        table: &DeskTable<N>,
        pass: &mut Pass<N>,
        work: W,
    ) -> (W::Out, u64)
        requires room { self.old.turns < 2 ^ 64 - 1 }
        requires table { table.now ≡ self.old.number }
        requires desk { pass.old.desk ≡ self.old.number }
        ensures makes_turn { MakesTurn pass.old pass.new result.1 }
        ensures does { W.does work pass.new.opened pass.new.closed result.0 }
        ensures opened { pass.new.opened ≡ T.picture self.old.inner }
        ensures closed { pass.new.closed ≡ T.picture self.new.inner }
        ensures next { self.new.turns ≡ self.old.turns + 1 }
        ensures number { result.1 ≡ self.new.turns }
        ensures desk { self.new.number ≡ self.old.number }
    {
        take_in(table, &mut self.home, pass);
        let before = Snapshot::of(&self.inner);
        let out = work.run(&mut self.inner);
        steps::note(table, &mut self.home, &before, &self.inner);
        self.turns += 1;
        show(table, &mut self.home, pass);
        (out, self.turns)
    }
}

/// The home seat takes in what a pass had seen, and tells that it has seen it too.
fn take_in<N: Names>(table: &DeskTable<N>, home: &mut DeskSeat, pass: &mut Pass<N>)
    requires of_table { home.old.table_id ≡ N.table table.now }
    requires desk { pass.old.desk ≡ table.now }
    requires is_home { home.old.me.0.is_home ≡ true }
    ensures of_table { home.new.table_id ≡ home.old.table_id }
    ensures stays { Stays home.old.me home.new.me }
    ensures unchanged { pass.new ≡ pass.old }
    ensures turn { pass.old.turn ≤ home.old.me.0.turn }
    ensures story { IsPrefix pass.old.story home.old.me.0.story }
{
    let copy = pass.copy(table);
    steps::meet(table, home, copy.into_seat());
    steps::tell(table, home);
}

/// A pass takes in what the home seat has seen.
fn show<N: Names>(table: &DeskTable<N>, home: &mut DeskSeat, pass: &mut Pass<N>)
    requires of_table { home.old.table_id ≡ N.table table.now }
    requires desk { pass.old.desk ≡ table.now }
    ensures of_table { home.new.table_id ≡ home.old.table_id }
    ensures unchanged { home.new.me ≡ home.old.me }
    ensures merges { pass.new ≡ merge_seen pass.old (seen_of pass.old.desk home.old.me.0) }
{
    let shown = first_pass(table, home);
    pass.meet(table, shown);
}

/// A pass that has seen what the home seat has.
pub(crate) fn first_pass<N: Names>(table: &DeskTable<N>, home: &mut DeskSeat) -> Pass<N>
    requires of_table { home.old.table_id ≡ N.table table.now }
    ensures of_table { home.new.table_id ≡ home.old.table_id }
    ensures unchanged { home.new.me ≡ home.old.me }
    ensures seen { result ≡ seen_of table.now home.old.me.0 }
{
    let seat = steps::copy(table, home);
    Pass::of_seat(table.desk(), seat)
}
