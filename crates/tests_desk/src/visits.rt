//! A value that holds a pass of another desk, as a roster of sessions does.
ghost use Rattle.std.specs.Prelude.{◌≡◌};

use account_pictures::Picture;
use std::marker::Model;
use turn_desk::{DeskTable, Names, Pass, Storied, Work};

/// A pass of a desk, with the desk's table, by which it is copied.
#[derive(Drop)]
pub struct Visits<N: Names> {
    table: DeskTable<N>,
    pass: Pass<N>,
}

impl<N: Names> Model for Visits<N> {
    ghost use Rattle.std.specs.Prelude.{◌≡◌};
    ghost use Rattle.turn_desk.specs.Views.{Seen};

    ghost Value = { Seen };

    ghost view = { λ v. v.pass };

    ghost invariant = { λ v. v.table ≡ v.pass.desk };
}

impl<N: Names> Visits<N> {
    pub fn new(table: DeskTable<N>, pass: Pass<N>) -> Self
        requires { table ≡ pass.desk }
        ensures { result ≡ pass }
    {
        Visits { table, pass }
    }

    /// A copy of the pass.
    pub fn fetch(&mut self) -> Pass<N>
        ensures unchanged { self.new ≡ self.old }
        ensures equals { result ≡ self.old }
    {
        self.pass.copy(&self.table)
    }
}

impl<N: Names> Storied for Visits<N> {
    ghost use Rattle.std.specs.Prelude.{◌∷◌, [], None};
    ghost use Rattle.account_pictures.specs.declared.pictures.Picture.TheVariants.{Roster};

    ghost picture = { λ v. Roster (record { places = []; slots = record { turn = v.turn; story = v.story; user = None } ∷ [] }) };
}

/// The work that copies the pass.
#[derive(Drop)]
pub struct Fetching {}

impl<N: Names> Work<Visits<N>> for Fetching {
    ghost use Rattle.std.specs.Prelude.{◌≡◌, ◌∷◌, [], None};
    ghost use Rattle.account_pictures.specs.declared.pictures.Picture.TheVariants.{Roster};

    type Out = Pass<N>;

    ghost does = { λ work opened closed out. (closed ≡ opened) × (opened ≡ Roster (record { places = []; slots = record { turn = out.turn; story = out.story; user = None } ∷ [] })) };

    fn run(self, inner: &mut Visits<N>) -> Pass<N> {
        inner.fetch()
    }
}
