//! The law of framed pages, the contract of a function that does nothing.
ghost use Rattle.page_frames.specs.Pages.{FramePagesAreSafe};

/// A page of the site whose content a writer may write, and opens no message, reads as written and loads the style sheet alone.
pub fn frame_pages_are_safe()
    ensures { FramePagesAreSafe }
{}
