//! Laws of responses, each the contract of a function that does nothing.
ghost use Rattle.imap_responses.specs.ResponseStreams.{SplitIsUnique, EndsAreDistinct};

/// The bytes of a connection are cut into responses in one way only, and an incomplete unit is no damage.
pub fn one_split()
    ensures unique { SplitIsUnique }
    ensures distinct_ends { EndsAreDistinct }
{}
