//! Where the page of a message is shown.
ghost use Rattle.std.specs.Prelude.{◌≡◌, IfOk, string_bytes};
ghost use Rattle.mail_pages.specs.Place.{place_at, path_prefix, site_place, in_session};

use account_pictures::Address;
use mail_values::Text;
use page_frames::{folder_query, message_path};
use page_writer::Memory;
use std::alloc::Global;
use wash_attributes::Place;

/// Where the page of a message is shown.
#[derive(Drop)]
pub enum Frame {
    /// By itself: the message is in no folder.
    Plain,
    /// In a session: the message's address, and the key that the session's forms carry.
    Session { at: Address, key: Text },
}

/// Whether the page is one of a session.
pub fn in_session(frame: &Frame) -> bool
    ensures { result ≡ in_session frame.now }
{
    match frame {
        Frame::Plain => false,
        Frame::Session { .. } => true,
    }
}

/// Where the site has the parts of the message.
pub fn site_place(alloc: Global, frame: &Frame) -> Result<Place, Memory>
    ensures { IfOk result (λ place. place ≡ site_place frame.now) }
{
    match frame {
        Frame::Plain => place_at(alloc, "", 0, 0),
        Frame::Session { at, .. } => place_at(alloc, at.folder.as_str(), at.validity, at.uid),
    }
}

#[tactic(auto, unfolding(crate::specs::Place::place_at))]
fn place_at(alloc: Global, folder: &str, validity: u32, uid: u32) -> Result<Place, Memory>
    ensures { IfOk result (λ place. place ≡ place_at (record { folder = folder.now; validity = validity; uid = uid })) }
{
    Ok(Place {
        prefix: Text::from_string(path_prefix(alloc, validity, uid)?),
        suffix: Text::from_string(folder_query(alloc, folder)?),
    })
}

/// What comes before the section in the address of a part.
fn path_prefix(alloc: Global, validity: u32, uid: u32) -> Result<String, Memory>
    ensures { IfOk result (λ prefix. string_bytes prefix ≡ path_prefix validity uid) }
{
    let mut prefix = String::from_str(alloc, "/part/")?;
    prefix.push_str(&message_path(alloc, validity, uid)?)?;
    prefix.push('/')?;
    Ok(prefix)
}
