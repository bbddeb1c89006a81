//! The table of a desk.
ghost use Rattle.std.specs.Prelude.{◌≡◌, IfOk};
ghost use Rattle.std.specs.Arc.{arc_value};

use crate::naming::Names;
use crate::views::View;
use atomic_table::{Seat, Table, TableRule};
use std::alloc::{AllocError, Global};
use std::marker::{Model, PhantomData};
use std::sync::Arc;

/// The rule that the views of a desk's table agree.
pub struct Agreement;

impl TableRule<(), View, ()> for Agreement {
    ghost use Rattle.turn_desk.specs.Views.{ViewsAgree, first_view};

    ghost holds = { λ key state. ViewsAgree state.views };

    ghost first = { λ key. first_view };
}

pub type SharedTable = Table<(), View, (), Agreement, Global>;

pub type DeskSeat = Seat<(), View>;

/// A handle on the table that a desk and its passes share. Contracts see the number of the desk.
#[derive(Drop)]
pub struct DeskTable<N: Names> {
    desk: u32,
    pub(crate) table: Arc<SharedTable, Global>,
    of: PhantomData<N>,
}

impl<N: Names> Model for DeskTable<N> {
    ghost use Rattle.std.specs.Prelude.{◌≡◌, ℕ};
    ghost use Rattle.std.specs.Arc.{arc_value};

    ghost Value = { ℕ };

    ghost view = { λ t. t.desk };

    ghost invariant = { λ t. ((arc_value t.table).shared.table_id.words ≡ 1) × ((arc_value t.table).shared.table_id ≡ N.table t.desk) };
}

impl<N: Names> DeskTable<N> {
    pub(crate) fn of(desk: u32, table: Arc<SharedTable, Global>) -> Self
        requires one_word { (arc_value table).shared.table_id.words ≡ 1 }
        requires named { (arc_value table).shared.table_id ≡ N.table desk }
        ensures desk { result ≡ desk }
    {
        DeskTable {
            desk,
            table,
            of: PhantomData,
        }
    }

    /// The number of the desk.
    pub fn desk(&self) -> u32
        ensures equals { result ≡ self.now }
    {
        self.desk
    }

    /// Another handle on the same table. It is refused only if the table's handles can't be counted any more; no memory is
    /// taken.
    pub fn try_clone(&self) -> Result<Self, AllocError>
        ensures equals { IfOk result (λ table. table ≡ self.now) }
    {
        let table = Arc::try_clone(&self.table)?;
        Ok(DeskTable::of(self.desk, table))
    }
}
