//! The modes of the scanner.
ghost use Rattle.std.specs.Prelude.{◌≡◌};
ghost use Rattle.html_syntax.specs.States.{state_after_start};
ghost use Rattle.html_tokens.specs.Scanned.{state_in};

use crate::written::WrittenName;

/// The element whose content is RCDATA, RAWTEXT or script data.
#[derive(Clone, Copy)]
pub enum Content {
    Title,
    Textarea,
    Style,
    Xmp,
    Iframe,
    Noembed,
    Noframes,
    Script,
}

/// How the rest of a text is read.
#[derive(Clone, Copy)]
pub enum Mode {
    Data,
    Inside(Content),
    Plaintext,
}

/// Returns the mode after a start tag of this name.
pub fn mode_after(name: &WrittenName) -> Mode
    ensures { state_in result ≡ state_after_start name.now }
{
    if name.reads_as("title") {
        Mode::Inside(Content::Title)
    } else if name.reads_as("textarea") {
        Mode::Inside(Content::Textarea)
    } else if name.reads_as("style") {
        Mode::Inside(Content::Style)
    } else if name.reads_as("xmp") {
        Mode::Inside(Content::Xmp)
    } else if name.reads_as("iframe") {
        Mode::Inside(Content::Iframe)
    } else if name.reads_as("noembed") {
        Mode::Inside(Content::Noembed)
    } else if name.reads_as("noframes") {
        Mode::Inside(Content::Noframes)
    } else if name.reads_as("script") {
        Mode::Inside(Content::Script)
    } else if name.reads_as("plaintext") {
        Mode::Plaintext
    } else {
        Mode::Data
    }
}
