//! What a request asks for: its route, the fields of its path and form, and its cookie.
#![tactic(auto)]

ghost use Rattle.std.specs.Prelude.{◌≡◌};
ghost use Rattle.http_routes.specs.declared.RouteFault.TheVariants.{Memory};

mod asks;
mod cookies;
mod deeds;
mod fields;
mod pages;
mod readers;
mod table;
mod values;

pub use asks::ask_of;
pub use cookies::cookie_in;
use mail_values::Text;
use std::alloc::AllocError;

/// Why a request is no ask.
#[derive(Drop)]
pub enum RouteFault {
    /// No route has the method and the path.
    NoRoute,
    /// A field of the route is missing, occurs twice, or its value doesn't read.
    Field { name: Text },
    Memory,
}

impl From<AllocError> for RouteFault {
    ghost from_gives = { λ _ e. e ≡ Memory };

    fn from(_: AllocError) -> Self {
        RouteFault::Memory
    }
}
