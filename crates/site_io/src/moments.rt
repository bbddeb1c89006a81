//! The traits of a clock and of a random source.
ghost use Rattle.std.specs.Prelude.{ℕ, ℤ, List, Option};
ghost use Rattle.site_io.specs.Told.{RecordsValue};

/// A clock.
pub trait Clock {
    /// The moments returned so far, if the clock tells them.
    ghost moments: { Self → Option (List ℤ) };

    /// Returns the moment, in seconds since 1970 in UTC.
    fn now(&mut self) -> i64
        ensures records { RecordsValue (moments self.old) (moments self.new) result };
}

/// A source of random words.
pub trait Draw {
    /// The words returned so far, if the source tells them.
    ghost words: { Self → Option (List ℕ) };

    /// Returns a random word.
    fn word(&mut self) -> u64
        ensures records { RecordsValue (words self.old) (words self.new) result };
}
