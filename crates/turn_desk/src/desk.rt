//! A desk.
ghost use Rattle.std.specs.Prelude.{◌≡◌};
ghost use Rattle.turn_desk.specs.Views.{MakesTurn, first_view, seen_of};

use crate::locked::{Locked, first_pass};
use crate::naming::{Blank, Names};
use crate::pass::Pass;
use crate::table::DeskTable;
use crate::work::{Storied, Work};
use std::marker::Model;
use std::sync::{Mutex, Wait};

/// A value whose turns follow one another. Contracts see the number of the desk.
#[derive(Drop)]
pub struct Desk<T: Storied, N: Names> {
    table: DeskTable<N>,
    lock: Mutex<Locked<T, N>>,
}

impl<T: Storied, N: Names> Model for Desk<T, N> {
    ghost use Rattle.std.specs.Prelude.{ℕ};

    ghost Value = { ℕ };

    ghost view = { λ d. d.table };
}

impl<T: Storied, N: Names> Desk<T, N> {
    /// A desk for the value, and its first pass, which has seen nothing.
    pub fn new(blank: Blank, inner: T) -> (Self, Pass<N>)
        requires named { N.table blank.number ≡ blank.table_id }
        ensures number { result.0 ≡ blank.number }
        ensures pass { result.1 ≡ seen_of blank.number first_view }
    {
        let (table, mut home) = blank.into_named::<N>();
        let pass = first_pass(&table, &mut home);
        let lock = Mutex::new(Locked::new(inner, table.desk(), home));
        (Desk { table, lock }, pass)
    }

    /// The number of the desk.
    pub fn number(&self) -> u32
        ensures equals { result ≡ self.now }
    {
        self.table.desk()
    }

    /// The table, by which the desk's passes are copied and meet.
    pub fn table(&self) -> &DeskTable<N>
        ensures equals { result.now ≡ self.now }
    {
        &self.table
    }

    /// One turn: waits for the desk's lock, runs the work once, and returns its output with the number of the turn. The first
    /// turn has the number 1, each later one the next number. After `2^64 - 1` turns a caller waits without end.
    pub fn turn<W: Work<T>>(&self, rt: &impl Wait, pass: &mut Pass<N>, work: W) -> (W::Out, u64)
        requires desk { pass.old.desk ≡ self.now }
        ensures makes_turn { MakesTurn pass.old pass.new result.1 }
        ensures does { W.does work pass.new.opened pass.new.closed result.0 }
    {
        let mut locked = self.lock.lock(rt);
        if locked.number != self.table.desk() || locked.turns == u64::MAX {
            // The numbers are equal, but of what is under a lock no more is known than its type says.
            for _ in rt.forever() {}
        }
        locked.turn(&self.table, pass, work)
    }
}
