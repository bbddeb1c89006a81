//! Copies of what is kept.
ghost use Rattle.std.specs.Prelude.{◌≡◌, IfOk};

use account_pictures::{Identity, SendState};
use mail_values::Text;
use std::alloc::{AllocError, Global};

pub fn copy_identity(alloc: Global, identity: &Identity) -> Result<Identity, AllocError>
    ensures { IfOk result (λ copy. copy ≡ identity.now) }
{
    Ok(Identity {
        name: Text::from_text(alloc, identity.name.as_str())?,
        address: Text::from_text(alloc, identity.address.as_str())?,
    })
}

pub fn copy_state(state: &SendState) -> SendState
    ensures { result ≡ state.now }
{
    match state {
        SendState::Started => SendState::Started,
        SendState::Done => SendState::Done,
        SendState::Doubt => SendState::Doubt,
    }
}
