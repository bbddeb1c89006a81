//! Laws of framing, each the contract of a function that does nothing.
ghost use Rattle.imap_framing.specs.Laws.{NoUnitIsPrefix, EndsBeginWithNoUnit, SplitIsUnique, LinesEndAtFirstCrLf, PlainUnitsAreLines, SizesAreRead, OnlySizesAreRead};

/// A stream is cut into units in one way only, and no unit is a proper prefix of another.
pub fn one_split()
    ensures prefix_free { NoUnitIsPrefix }
    ensures ends_begin_with_no_unit { EndsBeginWithNoUnit }
    ensures unique { SplitIsUnique }
{}

/// A line ends at its first CR LF, and a literal follows if and only if it ends with `{`, digits and `}`.
pub fn plain_lines()
    ensures first { LinesEndAtFirstCrLf }
    ensures units { PlainUnitsAreLines }
    ensures sizes { SizesAreRead }
    ensures only_sizes { OnlySizesAreRead }
{}
