//! Whom a draft is from.
ghost use Rattle.std.specs.Prelude.{◌≡◌, IfOk, IfSome, IfNone, Some, None};
ghost use Rattle.std.specs.Map.{lookup};
ghost use Rattle.account_sends.specs.Sends.{default_address, has_number, identity_for};

use account_pictures::Identity;
use mail_addresses::is_address;
use mail_values::Text;
use record_io::copies::copy_identity;
use std::alloc::{AllocError, Global};

/// Returns the address of a user who has kept none: the user's name if that is one, else the user at the site's domain.
fn default_address(alloc: Global, user: &Text, domain: &Text) -> Result<Text, AllocError>
    ensures { IfOk result (λ address. address ≡ default_address user.now domain.now) }
{
    if is_address(user.as_str()) {
        return Text::from_text(alloc, user.as_str());
    }
    let mut address = String::from_str(alloc, user.as_str())?;
    address.push_str("@")?;
    address.push_str(domain.as_str())?;
    Ok(Text::from_string(address))
}

/// Returns the identity of a number, if one is kept.
fn kept_identity(kept: &[(u8, Identity)], number: u8) -> Option<&Identity>
    ensures some { IfSome result (λ identity. lookup (has_number number) kept.now ≡ Some identity.now) }
    ensures none { IfNone result (lookup (has_number number) kept.now ≡ None) }
{
    for one in kept {
        if one.0 == number {
            return Some(&one.1);
        }
    }
    None
}

/// Returns whom a draft is from: the identity that is kept under its number, or else the user's default address without a name.
pub fn identity_for(
    alloc: Global,
    kept: &[(u8, Identity)],
    number: u8,
    user: &Text,
    domain: &Text,
) -> Result<Identity, AllocError>
    ensures { IfOk result (λ identity. identity ≡ identity_for number kept.now user.now domain.now) }
{
    match kept_identity(kept, number) {
        Some(identity) => copy_identity(alloc, identity),
        None => Ok(Identity {
            name: Text::from_text(alloc, "")?,
            address: default_address(alloc, user, domain)?,
        }),
    }
}
