//! Laws of allowed pages, each the contract of a function that does nothing.
ghost use Rattle.html_rules.specs.Allowed.{AllowedPagesLoad, AllowedPagesAreKnown, AllowedPagesHaveOneMail};

/// An allowed page loads its style sheet, the site's own pictures and, if asked for, pictures of the web: nothing else that a
/// browser loads by itself.
pub fn allowed_pages_load()
    ensures { AllowedPagesLoad }
{}

/// Each token of an allowed page is one that its frame or a message may have.
pub fn allowed_pages_are_known()
    ensures { AllowedPagesAreKnown }
{}

/// At most one element of an allowed page holds a message: nothing in a message can open another.
pub fn allowed_pages_have_one_mail()
    ensures { AllowedPagesHaveOneMail }
{}
