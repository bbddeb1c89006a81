//! A law of the definitions. It is the contract of a function that does nothing.
ghost use Rattle.url.specs.Parts.{Parts};
ghost use Rattle.cid_parts.specs.Laws.{SchemeDecides};

/// States that a URL is `Remote` by its text if and only if its scheme is http or https, and `Link` if and only if it is mailto. So the test
/// by text, which html_rules makes of every page, is the one by scheme.
pub fn schemes_decide()
    ensures { (url : Parts) → SchemeDecides url }
{}
