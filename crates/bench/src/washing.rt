//! The washing of a message's HTML into a page, in a message of 1,000 parts.
ghost use Rattle.std.specs.Prelude.{◌≡◌, [], ◌∷◌, codes, OnOk, None};

use crate::references::{long_base, message_of_parts};
use crate::tokens::SEPARATOR;
use html_syntax::Attributes;
use html_wash::wash;
use mail_io::{Failed, MemorySink, Sink};
use mail_values::{Memory, Text};
use mime_tree::{Tree, tree};
use page_writer::{PageBytes, PageOut, WRITE_ROOM, write_page};
use std::alloc::Global;
use wash_attributes::Place;

/// The Content-Location of the HTML part, unless a long one is asked for.
const BASE: &str = "http://www.e.example/news/index.html";

/// How a text is washed.
#[derive(Clone, Copy)]
pub struct Choice {
    /// Whether remote pictures are shown.
    pub images: bool,
    /// Whether the base has 1,000 bytes.
    pub below_base: bool,
}

/// A sink that counts bytes and keeps none.
#[derive(Drop)]
struct CountingSink {
    count: usize,
}

impl Sink for CountingSink {
    ghost taken = { λ s. None };

    ghost faults = { λ s. 0 };

    fn write(&mut self, piece: &[u8]) -> Result<usize, Failed> {
        self.count = self.count.saturating_add(piece.len());
        Ok(piece.len())
    }
}

fn place(alloc: Global) -> Result<Place, Memory> {
    Ok(Place {
        prefix: Text::from_text(alloc, "/part/0/0/")?,
        suffix: Text::from_text(alloc, "?f=")?,
    })
}

/// Writes the start tag of `div.mail` into an empty page.
#[tactic(auto, unfolding(page_writer::specs::Writing::literals))]
fn open_mail(alloc: Global, out: &mut PageOut) -> Result<(), Memory>
    requires { out.old.opened ≡ [] }
    ensures { OnOk result (out.new.opened ≡ codes "div" ∷ []) }
{
    let mut attributes = Attributes::new(alloc);
    attributes.push(alloc, "class", "mail")?;
    out.start(alloc, "div", &attributes)
}

/// Washes a text into the open `div` of a page.
#[tactic(auto, unfolding(page_writer::specs::Writing::literals))]
fn write_washed(
    alloc: Global,
    text: &str,
    read: &Tree<'_>,
    base: &str,
    images: bool,
    out: &mut PageOut,
) -> Result<(), Memory>
    requires { out.old.opened ≡ codes "div" ∷ [] }
    ensures { OnOk result (out.new.opened ≡ []) }
{
    let place = place(alloc)?;
    wash(alloc, text, read, Some(base), &place, images, out)?;
    out.end()
}

/// The page that has nothing but the washed text in `div.mail`.
fn page_of(
    alloc: Global,
    text: &str,
    read: &Tree<'_>,
    base: &str,
    images: bool,
) -> Result<PageBytes, Memory> {
    let mut out = PageOut::new(alloc);
    open_mail(alloc, &mut out)?;
    write_washed(alloc, text, read, base, images, &mut out)?;
    Ok(out.finish())
}

/// The number of bytes that are written of a page.
fn page_len(alloc: Global, page: &PageBytes) -> Result<usize, Memory> {
    let mut room = Vec::with_capacity(alloc, WRITE_ROOM)?;
    let mut sink = CountingSink { count: 0 };
    let _ = write_page(&mut sink, page, &mut room);
    Ok(sink.count)
}

/// The number of bytes of the page that a text is washed to.
pub fn washed_len(alloc: Global, text: &str, choice: Choice) -> Result<usize, Memory> {
    let message = message_of_parts(alloc)?;
    let read = tree(alloc, message.as_bytes())?;
    let long = long_base(alloc)?;
    let base = if choice.below_base {
        long.as_str()
    } else {
        BASE
    };
    let page = page_of(alloc, text, &read, base, choice.images)?;
    page_len(alloc, &page)
}

fn push_page(
    alloc: Global,
    pages: &mut Vec<u8>,
    text: &str,
    read: &Tree<'_>,
) -> Result<(), Memory> {
    let page = page_of(alloc, text, read, BASE, false)?;
    let mut room = Vec::with_capacity(alloc, WRITE_ROOM)?;
    let mut sink = MemorySink::new(alloc, page_len(alloc, &page)?, Vec::new(alloc))?;
    let _ = write_page(&mut sink, &page, &mut room);
    pages.extend_from_slice(sink.taken())?;
    pages.extend_from_slice(b"\n====\n")
}

/// The pages of texts, and a line `====` after each.
///
/// Each text of the input ends at a line `====`; neither that line nor the line feed before it belongs to the text.
pub fn print_pages(alloc: Global, input: &str) -> Result<Vec<u8>, Memory> {
    let message = message_of_parts(alloc)?;
    let read = tree(alloc, message.as_bytes())?;
    let mut pages = Vec::new(alloc);
    let mut text = String::new(alloc);
    let mut is_first = true;
    for line in input.split('\n') {
        if line == SEPARATOR {
            push_page(alloc, &mut pages, text.as_str(), &read)?;
            text.clear();
            is_first = true;
        } else {
            if !is_first {
                text.push('\n')?;
            }
            text.push_str(line)?;
            is_first = false;
        }
    }
    Ok(pages)
}
