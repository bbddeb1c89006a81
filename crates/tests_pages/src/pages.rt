//! Whole pages as texts.
use folder_pages::{Memory, PageBytes};
use std::alloc::Global;

/// What every page of a session begins with, up to its title.
const HEAD: &str = "<!DOCTYPE html>\n<html lang=\"en\"><head><meta charset=\"utf-8\"><title>";

const NAV: &str =
    "</title><link rel=\"stylesheet\" href=\"/site.css\"></head>\n<body><p class=\"nav\"><a href=\"/\">Folders</a> <a href=\"/compose\">Compose</a> <a href=\"/identities\">Identities</a></p>\n";

const END: &str = "\n</body></html>\n";

/// The page of a session with a title and a content.
pub fn framed(alloc: Global, title: &str, content: &str) -> Result<String, Memory> {
    let mut page = String::from_str(alloc, HEAD)?;
    page.push_str(title)?;
    page.push_str(NAV)?;
    page.push_str(content)?;
    page.push_str(END)?;
    Ok(page)
}

/// Whether a page has these bytes. A page without long texts has one piece.
pub fn is_page(page: &PageBytes, want: &str) -> bool {
    let (segments, tail) = page.parts();
    segments.is_empty() && tail == want.as_bytes()
}
