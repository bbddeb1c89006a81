//! The page of the message on standard input.
use mail_io::Memory;
use mail_pages::{Address, Frame, PageBytes, PageFault, Section, Text, show_page};
use std::alloc::Global;

/// The form key of the session.
pub fn key(alloc: Global) -> Result<Text, Memory> {
    Text::from_text(alloc, "k")
}

/// Where the message is.
pub fn place(alloc: Global) -> Result<Address, Memory> {
    Ok(Address {
        folder: Text::from_text(alloc, "INBOX")?,
        validity: 8,
        uid: 5,
    })
}

/// The page of a message, with the part of a section, or with the best part if the section's text is no section.
pub fn show(
    alloc: Global,
    message: &[u8],
    section: &str,
    images: bool,
) -> Result<Option<PageBytes>, Memory> {
    let frame = Frame::Session {
        at: place(alloc)?,
        key: key(alloc)?,
    };
    match show_page(alloc, message, &Section::parse(section), images, &frame) {
        Ok(page) => Ok(Some(page)),
        Err(PageFault::NoSuchPart) => Ok(None),
        Err(PageFault::Memory) => Err(Memory),
    }
}
