//! The law of washed tokens, as the contract of a function that does nothing.
ghost use Rattle.html_wash.specs.Law.{WashedIsAllowed};

/// Whatever a message's tokens are, its washed tokens are nested, are tokens that a message may have, and have the characters of the
/// message without the text of dropped elements.
pub fn washed_is_allowed()
    ensures { WashedIsAllowed }
{}
