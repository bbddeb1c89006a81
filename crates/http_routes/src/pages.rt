//! The asks of the routes of GET.
ghost use Rattle.std.specs.Prelude.{◌≡◌, IfOk};
ghost use Rattle.http_routes.specs.Asks as spec;
ghost use Rattle.http_routes.specs.Fields.{look_in};
ghost use Rattle.http_routes.specs.Outcomes.{ReadsAs};
ghost use Rattle.http_routes.specs.Servable.{IsServable};

use crate::RouteFault;
use crate::fields::Field;
use crate::readers::{how, images, is_missing, number, page, part, section, text};
use account_pictures::Address;
use site_asks::Ask;
use std::alloc::Global;

/// Reads the message that the fields of a form name.
#[tactic(auto, unfolding(crate::specs::Asks::address_fields))]
pub fn address(alloc: Global, fields: &[Field]) -> Result<Address, RouteFault>
    ensures { ReadsAs result (spec.address_fields (look_in fields.now)) }
{
    let folder = text(alloc, fields, "f")?;
    let validity = number(alloc, fields, "v")?;
    let uid = number(alloc, fields, "u")?;
    Ok(Address {
        folder,
        validity,
        uid,
    })
}

/// Reads the message that a path names, and its folder.
#[tactic(auto, unfolding(crate::specs::Asks::path_address))]
fn path_address(alloc: Global, fields: &[Field]) -> Result<Address, RouteFault>
    ensures { ReadsAs result (spec.path_address (look_in fields.now)) }
{
    let validity = number(alloc, fields, "v")?;
    let uid = number(alloc, fields, "u")?;
    let folder = text(alloc, fields, "f")?;
    Ok(Address {
        folder,
        validity,
        uid,
    })
}

#[tactic(auto, unfolding(crate::specs::Asks::list_ask))]
pub fn list(alloc: Global, fields: &[Field]) -> Result<Ask, RouteFault>
    ensures equals { ReadsAs result (spec.list_ask (look_in fields.now)) }
    ensures servable { IfOk result IsServable }
{
    let folder = text(alloc, fields, "f")?;
    let page = page(alloc, fields)?;
    Ok(Ask::List { folder, page })
}

#[tactic(auto, unfolding(crate::specs::Asks::threads_ask))]
pub fn threads(alloc: Global, fields: &[Field]) -> Result<Ask, RouteFault>
    ensures equals { ReadsAs result (spec.threads_ask (look_in fields.now)) }
    ensures servable { IfOk result IsServable }
{
    let folder = text(alloc, fields, "f")?;
    let page = page(alloc, fields)?;
    Ok(Ask::Threads { folder, page })
}

#[tactic(auto, unfolding(crate::specs::Asks::search_ask))]
pub fn search(alloc: Global, fields: &[Field]) -> Result<Ask, RouteFault>
    ensures equals { ReadsAs result (spec.search_ask (look_in fields.now)) }
    ensures servable { IfOk result IsServable }
{
    let folder = text(alloc, fields, "f")?;
    let page = page(alloc, fields)?;
    let words = text(alloc, fields, "q")?;
    Ok(Ask::Search {
        folder,
        words,
        page,
    })
}

#[tactic(auto, unfolding(crate::specs::Asks::show_ask))]
pub fn show(alloc: Global, fields: &[Field]) -> Result<Ask, RouteFault>
    ensures equals { ReadsAs result (spec.show_ask (look_in fields.now)) }
    ensures servable { IfOk result IsServable }
{
    let at = path_address(alloc, fields)?;
    let images = images(alloc, fields)?;
    let part = part(alloc, fields)?;
    Ok(Ask::Show { at, part, images })
}

#[tactic(auto, unfolding(crate::specs::Asks::part_ask))]
pub fn one_part(alloc: Global, fields: &[Field]) -> Result<Ask, RouteFault>
    ensures equals { ReadsAs result (spec.part_ask (look_in fields.now)) }
    ensures servable { IfOk result IsServable }
{
    let validity = number(alloc, fields, "v")?;
    let uid = number(alloc, fields, "u")?;
    let section = section(alloc, fields)?;
    let folder = text(alloc, fields, "f")?;
    Ok(Ask::Part {
        at: Address {
            folder,
            validity,
            uid,
        },
        section,
    })
}

/// Whether no message is named for a new draft.
fn is_new(fields: &[Field]) -> bool
    ensures { result ≡ spec.is_new (look_in fields.now) }
{
    is_missing(fields, "f")
        && is_missing(fields, "v")
        && is_missing(fields, "u")
        && is_missing(fields, "how")
}

#[tactic(auto, unfolding(crate::specs::Asks::compose_ask))]
pub fn compose(alloc: Global, form: u64, fields: &[Field]) -> Result<Ask, RouteFault>
    ensures equals { ReadsAs result (spec.compose_ask form (look_in fields.now)) }
    ensures servable { IfOk result IsServable }
{
    if is_new(fields) {
        return Ok(Ask::Compose { form, from: None });
    }
    let at = address(alloc, fields)?;
    let how = how(alloc, fields)?;
    Ok(Ask::Compose {
        form,
        from: Some((at, how)),
    })
}
