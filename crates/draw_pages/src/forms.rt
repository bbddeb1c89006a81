//! The pages with forms, and that of a fault.
use crate::message::{key, place};
use account_pictures::Identity;
use draft_sources::{draft_of, first_identity, new_draft};
use form_pages::{compose_page, fault_page, identity_page, login_page};
use mail_io::Memory;
use mail_pages::{PageBytes, Text};
use site_asks::How;
use std::alloc::Global;

/// The number of each form.
const FORM: u64 = 0x0123_4567_89AB_CDEF;

fn identity(alloc: Global, name: &str, address: &str) -> Result<Identity, Memory> {
    Ok(Identity {
        name: Text::from_text(alloc, name)?,
        address: Text::from_text(alloc, address)?,
    })
}

/// The identities of the member.
fn kept(alloc: Global) -> Result<Vec<(u8, Identity)>, Memory> {
    let ann = identity(alloc, "Ann \"Any\" Näf", "ann@college.example")?;
    let choir = identity(alloc, "Choir & Café", "choir@college.example")?;
    let mut kept = Vec::new(alloc);
    kept.push((1, ann))?;
    kept.push((3, choir))?;
    Ok(kept)
}

pub fn identities(alloc: Global) -> Result<PageBytes, Memory> {
    identity_page(alloc, &key(alloc)?, &kept(alloc)?)
}

/// The page of an empty draft.
pub fn compose(alloc: Global) -> Result<PageBytes, Memory> {
    let draft = new_draft(alloc, FORM, first_identity(&kept(alloc)?));
    compose_page(alloc, &key(alloc)?, &draft)
}

/// The page of a draft that is made from a message.
pub fn made_from(alloc: Global, message: &[u8], how: How) -> Result<PageBytes, Memory> {
    let identity = first_identity(&kept(alloc)?);
    let draft = draft_of(alloc, message, how, &place(alloc)?, FORM, identity)?;
    compose_page(alloc, &key(alloc)?, &draft)
}

pub fn login(alloc: Global) -> Result<PageBytes, Memory> {
    login_page(alloc)
}

pub fn fault(alloc: Global) -> Result<PageBytes, Memory> {
    fault_page(alloc, 404, "There is no folder \"Tom & <Jerry>\".", true)
}
