//! The recipients of a draft's message, as a mail server takes them.
ghost use Rattle.std.specs.Prelude.{◌≡◌, ◌++◌, OnOk};
ghost use Rattle.compose_drafts.specs.Drafts.{ReadsAs};
ghost use Rattle.compose_drafts.specs.Recipients.{addresses, addresses_of};

use crate::DraftFault;
use crate::parties::{boxes_in, is_blank};
use mail_addresses::Mailbox;
use mail_values::Text;
use site_asks::Draft;
use std::alloc::{AllocError, Global};

/// Returns the address of each box of `to`, and then of each box of `cc`: `local@domain`, without names.
///
/// An address that is written twice is returned twice. The faults are those of `build` with `to` and `cc`, in its order.
#[tactic(auto, unfolding(crate::specs::Recipients::addresses_of))]
pub fn recipients(alloc: Global, draft: &Draft) -> Result<Vec<Text>, DraftFault>
    ensures { ReadsAs (λ v. v.items) result (addresses_of draft.now) }
{
    if is_blank(draft.to.as_str().as_bytes()) && is_blank(draft.cc.as_str().as_bytes()) {
        return Err(DraftFault::NoRecipient);
    }
    let to = boxes_in(alloc, "to", draft.to.as_str())?;
    let cc = boxes_in(alloc, "cc", draft.cc.as_str())?;
    let mut found = Vec::new(alloc);
    push_addresses(alloc, &mut found, &to)?;
    push_addresses(alloc, &mut found, &cc)?;
    Ok(found)
}

/// Appends the addresses of boxes.
fn push_addresses(alloc: Global, found: &mut Vec<Text>, boxes: &[Mailbox]) -> Result<(), AllocError>
    ensures { OnOk result (found.new.items ≡ found.old.items ++ addresses boxes.now) }
{
    for one in boxes {
        found.push(Text::from_text(alloc, one.address.as_str())?)?;
    }
    Ok(())
}
