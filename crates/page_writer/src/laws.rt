//! The law of written pages, the contract of a function that does nothing.
ghost use Rattle.page_writer.specs.Page.{PagesReadAsWritten};

/// The bytes of a page read as the tokens that it was spelled from, whatever its texts and values hold: every character but
/// U+0000, for which a page has no spelling.
pub fn pages_read_as_written()
    ensures { PagesReadAsWritten }
{}
