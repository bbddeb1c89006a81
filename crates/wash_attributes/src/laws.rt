//! Laws of washed attributes, each the contract of a function that does nothing.
ghost use Rattle.wash_attributes.specs.Soundness.{KeptAttributesAreAllowed, ReferencesAreSound};

/// Washed attributes are listed for their element and have values of their kinds, and links open in a new window that learns
/// nothing of this one, if targets and styles are sound.
pub fn kept_attributes_are_allowed()
    ensures { KeptAttributesAreAllowed }
{}

/// What an address refers to and what a style is washed to may be written into a page: a part of the message by its address on the
/// site, an address of the web, a link, and a style in its written form. So the premise of the other law holds of every message.
pub fn references_are_sound()
    ensures { ReferencesAreSound }
{}
