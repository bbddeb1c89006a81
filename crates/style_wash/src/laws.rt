//! Laws of the definitions, each the contract of a function that does nothing.
ghost use Rattle.style_wash.specs.Declarations.{StylesAreKept, StylesAreFixedPoints, WashedCallsOnlyRgb, WashedCharacters, WashedIsStyle, WashingIsIdempotent};

/// Washing a washed style changes nothing.
pub fn washing_is_idempotent()
    ensures { WashingIsIdempotent }
{}

/// A washed style is declarations in their written form.
pub fn washed_is_style()
    ensures { WashedIsStyle }
{}

/// A style that is made of declarations is cut into exactly their written forms, and reads as exactly these declarations. Washing it drops
/// none, adds none and changes none.
pub fn styles_are_kept()
    ensures { StylesAreKept }
{}

/// A text is a style if and only if washing leaves it unchanged.
pub fn styles_are_fixed_points()
    ensures { StylesAreFixedPoints }
{}

/// A washed style has letters, digits, spaces and a few other characters. It cannot end its attribute, and has no escape, no comment and no
/// at-rule.
pub fn washed_characters()
    ensures { WashedCharacters }
{}

/// A washed style calls no function but `rgb`, by its whole name. So it loads nothing by `url(` and runs nothing by `expression(`.
pub fn washed_calls_only_rgb()
    ensures { WashedCallsOnlyRgb }
{}
