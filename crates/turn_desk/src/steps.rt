//! The four kinds of step on a desk's table: copy, meet, tell and note. Each is one load of its word.
ghost use Rattle.std.specs.Prelude.{◌≡◌, [], true, false};
ghost use Rattle.std.specs.List.{All};
ghost use mathlib.Core.List.{IsPrefix};
ghost use Rattle.account_pictures.specs.Story.{story_of};
ghost use Rattle.turn_desk.specs.Views.{HasSeen, add_turn, copy_of, merge};

use crate::naming::Names;
use crate::table::{DeskSeat, DeskTable};
use crate::views::View;
use crate::work::Storied;
use atomic_table::{Join, Play, Split};
use std::marker::{Brand, PhantomData};
use std::snapshot::Snapshot;

/// Cuts a copy off a view.
struct Copying;

impl Split<View> for Copying {
    ghost use Rattle.turn_desk.specs.Views.{copy_of};

    ghost left = { λ view. view };

    ghost right = { copy_of };
}

/// Lets a view meet into another.
struct Meeting;

impl Join<View> for Meeting {
    ghost use Rattle.turn_desk.specs.Views.{merge, spent_view};

    ghost both = { merge };

    ghost spent = { spent_view };
}

/// Tells that a view has seen all that it met.
struct Telling;

impl Play<(), View> for Telling {
    ghost use Rattle.std.specs.Prelude.{◌≡◌};
    ghost use Rattle.std.specs.List.{All};
    ghost use Rattle.turn_desk.specs.Views.{HasSeen};

    ghost then = { λ step me found after. (after ≡ me) × All (HasSeen me.0) me.0.met };
}

/// What a note writes: a play has no argument but its type.
trait Noted {
    ghost use Rattle.std.specs.Prelude.{List};
    ghost use Rattle.account_pictures.specs.declared.pictures.Picture.{Picture};

    ghost opened: { Picture };

    ghost closed: { Picture };
}

impl Noted for Brand {
    ghost use Rattle.account_pictures.specs.Story.{no_picture};

    ghost opened = { no_picture };

    ghost closed = { no_picture };
}

/// Notes a turn in the home seat's view.
struct Noting<G>(PhantomData<G>);

impl<G: Noted> Play<(), View> for Noting<G> {
    ghost use Rattle.std.specs.Prelude.{◌≡◌};
    ghost use Rattle.turn_desk.specs.Views.{add_turn};

    ghost then = { λ step me found after. after ≡ (add_turn me.0 G.opened G.closed, me.1) };
}

/// A new seat whose view is a copy of the seat's.
pub(crate) fn copy<N: Names>(table: &DeskTable<N>, seat: &mut DeskSeat) -> DeskSeat
    requires of_table { seat.old.table_id ≡ N.table table.now }
    ensures of_table { seat.new.table_id ≡ seat.old.table_id }
    ensures unchanged { seat.new.me ≡ seat.old.me }
    ensures copy_of_table { result.table_id ≡ N.table table.now }
    ensures equals { result.me ≡ (copy_of seat.old.me.0, []) }
{
    table.table.shared.split_seat::<Copying>(seat)
}

/// Lets another seat meet into a seat.
pub(crate) fn meet<N: Names>(table: &DeskTable<N>, seat: &mut DeskSeat, other: DeskSeat)
    requires of_table { seat.old.table_id ≡ N.table table.now }
    requires other_of_table { other.table_id ≡ N.table table.now }
    requires other_beside { other.me.0.is_home ≡ false }
    requires other_empty { other.me.1 ≡ [] }
    ensures of_table { seat.new.table_id ≡ seat.old.table_id }
    ensures merges { seat.new.me ≡ (merge seat.old.me.0 other.me.0, seat.old.me.1) }
{
    table.table.shared.join_seat::<Meeting>(seat, other);
}

/// Tells that the seat has seen all that it met.
pub(crate) fn tell<N: Names>(table: &DeskTable<N>, seat: &mut DeskSeat)
    requires of_table { seat.old.table_id ≡ N.table table.now }
    ensures of_table { seat.new.table_id ≡ seat.old.table_id }
    ensures unchanged { seat.new.me ≡ seat.old.me }
    ensures seen { All (HasSeen seat.old.me.0) seat.old.me.0.met }
{
    table.table.shared.load::<Telling>(seat, 0);
}

/// Notes a turn: the value was as in `before` and is now as in `inner`.
pub(crate) fn note<N: Names, T: Storied>(
    table: &DeskTable<N>,
    home: &mut DeskSeat,
    before: &Snapshot<T>,
    inner: &T,
)
    requires of_table { home.old.table_id ≡ N.table table.now }
    requires is_home { home.old.me.0.is_home ≡ true }
    requires is_unspent { home.old.me.0.is_spent ≡ false }
    requires lengthens { IsPrefix home.old.me.0.story (story_of (T.picture inner.now)) }
    ensures of_table { home.new.table_id ≡ home.old.table_id }
    ensures notes { home.new.me ≡ (add_turn home.old.me.0 (T.picture before.now.value) (T.picture inner.now), home.old.me.1) }
{
    note_between::<Brand, N, T>(table, home, before, inner);
}

/// Notes the pictures of `G`, which the caller picks to be those of the values.
fn note_between<G: Noted, N: Names, T: Storied>(
    table: &DeskTable<N>,
    home: &mut DeskSeat,
    before: &Snapshot<T>,
    inner: &T,
)
    requires of_table { home.old.table_id ≡ N.table table.now }
    requires is_home { home.old.me.0.is_home ≡ true }
    requires is_unspent { home.old.me.0.is_spent ≡ false }
    requires lengthens { IsPrefix home.old.me.0.story (story_of (T.picture inner.now)) }
    requires opened { G.opened ≡ T.picture before.now.value }
    requires closed { G.closed ≡ T.picture inner.now }
    ensures of_table { home.new.table_id ≡ home.old.table_id }
    ensures notes { home.new.me ≡ (add_turn home.old.me.0 (T.picture before.now.value) (T.picture inner.now), home.old.me.1) }
{
    let _ = before;
    let _ = inner;
    note_pictures::<G, N>(table, home);
}

/// Notes the pictures of `G`.
fn note_pictures<G: Noted, N: Names>(table: &DeskTable<N>, home: &mut DeskSeat)
    requires of_table { home.old.table_id ≡ N.table table.now }
    requires is_home { home.old.me.0.is_home ≡ true }
    requires is_unspent { home.old.me.0.is_spent ≡ false }
    requires lengthens { IsPrefix home.old.me.0.story (story_of G.closed) }
    ensures of_table { home.new.table_id ≡ home.old.table_id }
    ensures notes { home.new.me ≡ (add_turn home.old.me.0 G.opened G.closed, home.old.me.1) }
{
    table.table.shared.load::<Noting<G>>(home, 0);
}
