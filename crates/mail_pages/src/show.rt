//! The page of a message.
ghost use Rattle.std.specs.Prelude.{◌≡◌, IfOk, OnOk, IsErrOf};
ghost use Rattle.mail_pages.specs.ShowPage.{page_bytes, IsSafe, IsShown, IsMissing, OffersChangeWhatIsShown};

use crate::frame::Frame;
use crate::mail::choose;
use crate::page::message_page;
use mime_tree::{Section, tree};
use page_writer::PageBytes;
use std::alloc::{AllocError, Global};

/// The reason that a message has no page.
#[derive(Clone, Copy)]
pub enum PageFault {
    /// No text has that section.
    NoSuchPart,
    Memory,
}

impl From<AllocError> for PageFault {
    ghost use Rattle.std.specs.Prelude.{◌≡◌};
    ghost use Rattle.mail_pages.specs.declared.show.PageFault.TheVariants.{Memory};

    ghost from_gives = { λ _ e. e ≡ Memory };

    fn from(_: AllocError) -> Self {
        PageFault::Memory
    }
}

/// The page of a message: with the part of a section, or with the best part (`best` of mime_tree). `images` tells whether HTML may load
/// remote pictures, and `frame` where the page is shown.
pub fn show_page(
    alloc: Global,
    message: &[u8],
    part: &Option<Section>,
    images: bool,
    frame: &Frame,
) -> Result<PageBytes, PageFault>
    ensures is_shown { OnOk result (IsShown message.now part.now) }
    ensures equals { IfOk result (λ page. page ≡ page_bytes frame.now message.now part.now images) }
    ensures is_safe { OnOk result (IsSafe frame.now message.now part.now images) }
    ensures offers_change_what_is_shown { OnOk result (OffersChangeWhatIsShown frame.now message.now part.now images) }
    ensures only_if_missing { IsErrOf result PageFault.NoSuchPart → IsMissing message.now part.now }
{
    let tree = tree(alloc, message)?;
    let Some(shown) = choose(&tree, part) else {
        return Err(PageFault::NoSuchPart);
    };
    Ok(message_page(alloc, message, part, images, frame, &tree, &shown)?)
}
