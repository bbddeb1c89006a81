//! What was seen of a desk.
ghost use Rattle.std.specs.Prelude.{◌≡◌, [], false};
ghost use Rattle.turn_desk.specs.Views.{merge_seen, seen_of};

use crate::naming::Names;
use crate::steps;
use crate::table::{DeskSeat, DeskTable};
use std::marker::{Model, PhantomData};

/// What was seen of a desk. Contracts see a `Seen`: the desk's number, the number of the last turn seen, 0 before the first,
/// the story at its end, and its pictures before and after the work.
#[derive(Drop)]
pub struct Pass<N: Names> {
    desk: u32,
    seat: DeskSeat,
    of: PhantomData<N>,
}

impl<N: Names> Model for Pass<N> {
    ghost use Rattle.std.specs.Prelude.{◌≡◌, [], false};
    ghost use Rattle.turn_desk.specs.Views.{Seen, seen_of};

    ghost Value = { Seen };

    ghost view = { λ p. seen_of p.desk p.seat.me.0 };

    ghost invariant = { λ p. (p.seat.table_id ≡ N.table p.desk) × (p.seat.me.0.is_home ≡ false) × (p.seat.me.1 ≡ []) };
}

impl<N: Names> Pass<N> {
    /// A pass that has seen what a seat has.
    pub(crate) fn of_seat(desk: u32, seat: DeskSeat) -> Self
        requires of_table { seat.table_id ≡ N.table desk }
        requires beside { seat.me.0.is_home ≡ false }
        requires empty { seat.me.1 ≡ [] }
        ensures seen { result ≡ seen_of desk seat.me.0 }
    {
        Pass {
            desk,
            seat,
            of: PhantomData,
        }
    }

    /// The pass's seat.
    pub(crate) fn into_seat(self) -> DeskSeat
        ensures of_table { result.table_id ≡ N.table self.desk }
        ensures beside { result.me.0.is_home ≡ false }
        ensures empty { result.me.1 ≡ [] }
        ensures seen { seen_of self.desk result.me.0 ≡ self }
    {
        let Pass {
            desk: _,
            seat,
            of: _,
        } = self;
        seat
    }

    /// The number of the desk.
    pub fn desk(&self) -> u32
        ensures equals { result ≡ self.now.desk }
    {
        self.desk
    }

    /// Another pass that has seen the same. `table` is the desk's. It waits for nobody.
    pub fn copy(&mut self, table: &DeskTable<N>) -> Self
        requires one_desk { table.now ≡ self.old.desk }
        ensures unchanged { self.new ≡ self.old }
        ensures equals { result ≡ self.old }
    {
        let seat = steps::copy(table, &mut self.seat);
        Pass::of_seat(self.desk, seat)
    }

    /// Takes in what another pass has seen: the longer story, and the later turn with its pictures. `table` is the desk's. It
    /// waits for nobody.
    pub fn meet(&mut self, table: &DeskTable<N>, other: Pass<N>)
        requires one_desk { table.now ≡ self.old.desk }
        requires other_desk { other.desk ≡ self.old.desk }
        ensures merges { self.new ≡ merge_seen self.old other }
    {
        steps::meet(table, &mut self.seat, other.into_seat());
    }
}
