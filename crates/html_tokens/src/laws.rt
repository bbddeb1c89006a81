//! Laws of the scanner, each the contract of a function that does nothing.
ghost use Rattle.html_tokens.specs.Stepping.{RunsAreSeparate};

/// Proves that a run of characters is one span: if two spans one after the other are runs, the second begins after the end of the
/// first. Between them is `</>`, which gives no token.
pub fn runs_are_separate()
    ensures { RunsAreSeparate }
{}
