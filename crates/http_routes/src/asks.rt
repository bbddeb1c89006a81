//! The ask of a request.
ghost use Rattle.std.specs.Prelude.{◌≡◌, IfOk};
ghost use Rattle.http_routes.specs.Asks as spec;
ghost use Rattle.http_routes.specs.Fields.{look_in};
ghost use Rattle.http_routes.specs.Outcomes.{ReadsAs};
ghost use Rattle.http_routes.specs.Servable.{IsServable};

use crate::RouteFault;
use crate::deeds::{
    delete, login, logout, move_to, save_draft, send_draft, set_flag, set_identity,
};
use crate::fields::{Field, request_fields};
use crate::pages::{compose, list, one_part, search, show, threads};
use crate::table::{Route, row_of, words_of};
use site_asks::Ask;
use std::alloc::Global;

/// Returns the path of a target: the text before its first `?`.
fn path_of(target: &str) -> &str
    ensures { result.now ≡ spec.path_of target.now }
{
    match target.split_once('?') {
        Some((path, _)) => path,
        None => target,
    }
}

/// Returns the query of a target: the text after its first `?`, empty if it has none.
fn query_of(target: &str) -> &str
    ensures { result.now ≡ spec.query_of target.now }
{
    match target.split_once('?') {
        Some((_, query)) => query,
        None => "",
    }
}

/// Returns the form of a request: its body for POST, else its query.
fn form_of<'r>(method: &[u8], target: &'r str, body: &'r [u8]) -> &'r [u8]
    ensures { result.now ≡ spec.form_of method.now target.now body.now }
{
    if method == b"POST".as_slice() {
        body
    } else {
        query_of(target).as_bytes()
    }
}

/// Reads the ask of a route from its fields.
fn route_ask(alloc: Global, route: Route, form: u64, fields: &[Field]) -> Result<Ask, RouteFault>
    ensures equals { ReadsAs result (spec.route_ask route form (look_in fields.now)) }
    ensures servable { IfOk result IsServable }
{
    match route {
        Route::Folders => Ok(Ask::Folders),
        Route::List => list(alloc, fields),
        Route::Threads => threads(alloc, fields),
        Route::Search => search(alloc, fields),
        Route::Show => show(alloc, fields),
        Route::Part => one_part(alloc, fields),
        Route::Compose => compose(alloc, form, fields),
        Route::Identities => Ok(Ask::Identities),
        Route::LoginPage => Ok(Ask::LoginPage),
        Route::Sheet => Ok(Ask::Sheet),
        Route::Login => login(alloc, fields),
        Route::Logout => logout(alloc, fields),
        Route::Flag => set_flag(alloc, fields),
        Route::Move => move_to(alloc, fields),
        Route::Delete => delete(alloc, fields),
        Route::SaveDraft => save_draft(alloc, fields),
        Route::SendDraft => send_draft(alloc, fields),
        Route::SetIdentity => set_identity(alloc, fields),
    }
}

/// Returns the ask of a request with this method, target and body.
///
/// `form` is the number of the form of a new draft. Parameters of the path are read before fields of the form, `key` before all others; of
/// several faulty fields the first is the fault. Fields that the route doesn't have are passed over.
pub fn ask_of(
    alloc: Global,
    method: &[u8],
    target: &str,
    body: &[u8],
    form: u64,
) -> Result<Ask, RouteFault>
    ensures equals { ReadsAs result (spec.ask_of method.now target.now body.now form) }
    ensures servable { IfOk result IsServable }
{
    let words = words_of(alloc, path_of(target))?;
    let Some(row) = row_of(method, &words) else {
        return Err(RouteFault::NoRoute);
    };
    let fields = request_fields(alloc, row, &words, form_of(method, target, body))?;
    route_ask(alloc, row.route, form, &fields)
}
