//! The asks of the routes of POST.
ghost use Rattle.std.specs.Prelude.{◌≡◌, IfOk};
ghost use Rattle.http_routes.specs.Asks as spec;
ghost use Rattle.http_routes.specs.Fields.{look_in};
ghost use Rattle.http_routes.specs.Outcomes.{ReadsAs};
ghost use Rattle.http_routes.specs.Servable.{IsServable};

use crate::RouteFault;
use crate::fields::Field;
use crate::pages::address;
use crate::readers::{flag, form, identity, is_missing, kept, on, password, refs, text, user};
use account_pictures::{Address, Identity};
use site_asks::{Ask, Draft};
use std::alloc::Global;

#[tactic(auto, unfolding(crate::specs::Asks::login_ask))]
pub fn login(alloc: Global, fields: &[Field]) -> Result<Ask, RouteFault>
    ensures equals { ReadsAs result (spec.login_ask (look_in fields.now)) }
    ensures servable { IfOk result IsServable }
{
    let user = user(alloc, fields)?;
    let password = password(alloc, fields)?;
    Ok(Ask::Login { user, password })
}

#[tactic(auto, unfolding(crate::specs::Asks::logout_ask))]
pub fn logout(alloc: Global, fields: &[Field]) -> Result<Ask, RouteFault>
    ensures equals { ReadsAs result (spec.logout_ask (look_in fields.now)) }
    ensures servable { IfOk result IsServable }
{
    let key = text(alloc, fields, "key")?;
    Ok(Ask::Logout { key })
}

#[tactic(auto, unfolding(crate::specs::Asks::flag_ask))]
pub fn set_flag(alloc: Global, fields: &[Field]) -> Result<Ask, RouteFault>
    ensures equals { ReadsAs result (spec.flag_ask (look_in fields.now)) }
    ensures servable { IfOk result IsServable }
{
    let key = text(alloc, fields, "key")?;
    let at = address(alloc, fields)?;
    let flag = flag(alloc, fields)?;
    let on = on(alloc, fields)?;
    Ok(Ask::Flag { key, at, flag, on })
}

#[tactic(auto, unfolding(crate::specs::Asks::move_ask))]
pub fn move_to(alloc: Global, fields: &[Field]) -> Result<Ask, RouteFault>
    ensures equals { ReadsAs result (spec.move_ask (look_in fields.now)) }
    ensures servable { IfOk result IsServable }
{
    let key = text(alloc, fields, "key")?;
    let at = address(alloc, fields)?;
    let to = text(alloc, fields, "to")?;
    Ok(Ask::Move { key, at, to })
}

#[tactic(auto, unfolding(crate::specs::Asks::delete_ask))]
pub fn delete(alloc: Global, fields: &[Field]) -> Result<Ask, RouteFault>
    ensures equals { ReadsAs result (spec.delete_ask (look_in fields.now)) }
    ensures servable { IfOk result IsServable }
{
    let key = text(alloc, fields, "key")?;
    let at = address(alloc, fields)?;
    Ok(Ask::Delete { key, at })
}

/// Whether no saved draft is named.
fn is_first(fields: &[Field]) -> bool
    ensures { result ≡ spec.is_first (look_in fields.now) }
{
    is_missing(fields, "f") && is_missing(fields, "v") && is_missing(fields, "u")
}

/// Reads the saved draft that a draft replaces.
#[tactic(auto, unfolding(crate::specs::Asks::old_draft))]
fn old_draft(alloc: Global, fields: &[Field]) -> Result<Option<Address>, RouteFault>
    ensures { ReadsAs result (spec.old_draft (look_in fields.now)) }
{
    if is_first(fields) {
        return Ok(None);
    }
    let at = address(alloc, fields)?;
    Ok(Some(at))
}

#[tactic(auto, unfolding(crate::specs::Asks::draft))]
fn draft(alloc: Global, fields: &[Field]) -> Result<Draft, RouteFault>
    ensures { ReadsAs result (spec.draft (look_in fields.now)) }
{
    let form = form(alloc, fields)?;
    let identity = identity(alloc, fields)?;
    let to = text(alloc, fields, "to")?;
    let cc = text(alloc, fields, "cc")?;
    let subject = text(alloc, fields, "subject")?;
    let text = text(alloc, fields, "text")?;
    let refs = refs(alloc, fields)?;
    let old = old_draft(alloc, fields)?;
    Ok(Draft {
        form,
        identity,
        to,
        cc,
        subject,
        text,
        refs,
        old,
    })
}

#[tactic(auto, unfolding(crate::specs::Asks::save_ask))]
pub fn save_draft(alloc: Global, fields: &[Field]) -> Result<Ask, RouteFault>
    ensures equals { ReadsAs result (spec.save_ask (look_in fields.now)) }
    ensures servable { IfOk result IsServable }
{
    let key = text(alloc, fields, "key")?;
    let fields = draft(alloc, fields)?;
    Ok(Ask::SaveDraft { key, fields })
}

#[tactic(auto, unfolding(crate::specs::Asks::send_ask))]
pub fn send_draft(alloc: Global, fields: &[Field]) -> Result<Ask, RouteFault>
    ensures equals { ReadsAs result (spec.send_ask (look_in fields.now)) }
    ensures servable { IfOk result IsServable }
{
    let key = text(alloc, fields, "key")?;
    let fields = draft(alloc, fields)?;
    Ok(Ask::SendDraft { key, fields })
}

#[tactic(auto, unfolding(crate::specs::Asks::identity_ask))]
pub fn set_identity(alloc: Global, fields: &[Field]) -> Result<Ask, RouteFault>
    ensures equals { ReadsAs result (spec.identity_ask (look_in fields.now)) }
    ensures servable { IfOk result IsServable }
{
    let key = text(alloc, fields, "key")?;
    let number = kept(alloc, fields)?;
    let name = text(alloc, fields, "name")?;
    let address = text(alloc, fields, "address")?;
    Ok(Ask::SetIdentity {
        key,
        number,
        identity: Identity { name, address },
    })
}
