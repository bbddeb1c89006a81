//! Laws of the definition, each the contract of a function that does nothing.
ghost use Rattle.html_syntax.specs.Tokenizer.{ThreeLooksSuffice};

/// Proves that a step of the definition looks at a character three times at most: no row of the third look reconsumes it.
pub fn three_looks_suffice()
    ensures { ThreeLooksSuffice }
{}
