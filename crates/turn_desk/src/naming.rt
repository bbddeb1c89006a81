//! Which table each desk's number names.
ghost use Rattle.std.specs.Prelude.{◌≡◌, [], IfOk};
ghost use Rattle.turn_desk.specs.Views.{first_view};

use crate::table::{DeskSeat, DeskTable, SharedTable};
use atomic_table::Table;
use std::alloc::{AllocError, Global};
use std::marker::{Brand, Model};
use std::sync::Arc;

/// Which table the number of a desk names. A caller makes its blanks first and then calls one function that is generic in
/// the naming, at `Brand`; that call chooses the naming by which each blank's number names the blank's table.
pub trait Names {
    ghost use Rattle.std.specs.Prelude.{ℕ};
    ghost use Rattle.atomic_table.specs.Seated.{TableId};

    ghost table: { ℕ → TableId };
}

impl Names for Brand {
    ghost use Rattle.turn_desk.specs.Naming.{no_table};

    ghost table = { λ number. no_table };
}

/// A desk's number with a table that has no name yet.
#[derive(Drop)]
pub struct Blank {
    number: u32,
    table: Arc<SharedTable, Global>,
    home: DeskSeat,
}

impl Model for Blank {
    ghost use Rattle.std.specs.Prelude.{◌≡◌, []};
    ghost use Rattle.std.specs.Arc.{arc_value};
    ghost use Rattle.turn_desk.specs.Naming.{BlankPicture};
    ghost use Rattle.turn_desk.specs.Views.{first_view};

    ghost Value = { BlankPicture };

    ghost view = { λ b. record { number = b.number; table_id = (arc_value b.table).shared.table_id } };

    ghost invariant = { λ b. ((arc_value b.table).shared.table_id.words ≡ 1) × (b.home.table_id ≡ (arc_value b.table).shared.table_id) × (b.home.me ≡ (first_view, [])) };
}

impl Blank {
    /// A blank for the desk of this number.
    pub fn new(alloc: Global, number: u32) -> Result<Self, AllocError>
        ensures number { IfOk result (λ blank. blank.number ≡ number) }
    {
        let (table, home) = Table::of_words(alloc, &[0], &())?;
        let table = Arc::new(alloc, table)?;
        Ok(Blank {
            number,
            table,
            home,
        })
    }

    /// The number of the desk.
    pub fn number(&self) -> u32
        ensures equals { result ≡ self.now.number }
    {
        self.number
    }

    /// The table under its name, and the home seat.
    pub(crate) fn into_named<N: Names>(self) -> (DeskTable<N>, DeskSeat)
        requires named { N.table self.number ≡ self.table_id }
        ensures number { result.0 ≡ self.number }
        ensures of_table { result.1.table_id ≡ N.table self.number }
        ensures first { result.1.me ≡ (first_view, []) }
    {
        let Blank {
            number,
            table,
            home,
        } = self;
        (DeskTable::of(number, table), home)
    }
}
