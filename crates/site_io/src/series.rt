//! A clock and a source of words in memory.
ghost use Rattle.std.specs.Prelude.{◌≡◌, ◌<◌, ◌∷◌, [], length};
ghost use Rattle.mail_io.specs.Memory.{next_count};
ghost use Rattle.site_io.specs.Series.{told_values, value_after};
ghost use Rattle.site_io.specs.Told.{RecordsValue};

use crate::{Clock, Draw};
use std::marker::Model;

/// A list of values that are returned in order, and then the last one at every later call.
///
/// It tells the values returned until they are 2^64 - 1, and nothing from then on.
#[derive(Drop)]
pub struct Series<T: Copy> {
    values: Vec<T>,
    calls: u64,
}

/// A clock that returns the moments of a list.
pub type ListClock = Series<i64>;

/// A source that returns the words of a list.
pub type ListDraw = Series<u64>;

impl<T: Copy> Model for Series<T> {
    ghost use Rattle.std.specs.Prelude.{◌<◌, length};
    ghost use Rattle.site_io.specs.Series.{SeriesState};

    ghost Value = { SeriesState T };

    ghost view = { λ s. record { values = s.values.items; calls = s.calls } };

    ghost invariant = { λ s. 0 < length s.values.items };
}

impl<T: Copy> Series<T> {
    /// The series of a list of values, before the first call.
    pub fn new(values: Vec<T>) -> Self
        requires nonempty { 0 < length values.items }
        ensures { result ≡ record { values = values.items; calls = 0 } }
    {
        Series { values, calls: 0 }
    }

    /// Returns the next value.
    fn next(&mut self) -> T
        ensures value { result ∷ [] ≡ value_after self.old.values self.old.calls }
        ensures counts { self.new ≡ record { values = self.old.values; calls = next_count self.old.calls } }
    {
        let last = self.values.len() - 1;
        let at = usize::try_from(self.calls).unwrap_or(last).min(last);
        self.calls = self.calls.saturating_add(1);
        self.values[at]
    }
}

impl Clock for Series<i64> {
    ghost moments = { λ s. told_values s };

    #[tactic(auto, using(crate::proofs::Values::records_next))]
    fn now(&mut self) -> i64
        ensures value { result ∷ [] ≡ value_after self.old.values self.old.calls }
        ensures counts { self.new ≡ record { values = self.old.values; calls = next_count self.old.calls } }
        ensures records { RecordsValue (told_values self.old) (told_values self.new) result }
    {
        self.next()
    }
}

impl Draw for Series<u64> {
    ghost words = { λ s. told_values s };

    #[tactic(auto, using(crate::proofs::Values::records_next))]
    fn word(&mut self) -> u64
        ensures value { result ∷ [] ≡ value_after self.old.values self.old.calls }
        ensures counts { self.new ≡ record { values = self.old.values; calls = next_count self.old.calls } }
        ensures records { RecordsValue (told_values self.old) (told_values self.new) result }
    {
        self.next()
    }
}
