//! Laws of the definitions, each the contract of a function that does nothing.
ghost use Rattle.style_rules.specs.Law.{DeclaredIsStyle, ReadRulesAreWritten};

/// The rules of a text have declarations that an inline style may have.
pub fn read_rules_are_written()
    ensures { ReadRulesAreWritten }
{}

/// What such rules declare for an element is a washed style, or empty.
pub fn declared_is_style()
    ensures { DeclaredIsStyle }
{}
