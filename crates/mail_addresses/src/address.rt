//! A single `local@domain`.
ghost use Rattle.std.specs.Prelude.{◌≡◌, ◌++◌, ◌∷◌, IfOk};
ghost use Rattle.mail_addresses.specs.Runs.{ReadsAs};
ghost use Rattle.mail_addresses.specs.Boxes.{address_at, domain_at, is_address};

use crate::reading::Stop;
use crate::runs::{Class, expect_byte, is_run, strip_byte, take_run, take_while};
use mail_values::Text;
use std::alloc::{AllocError, Global};

/// A `local@domain`, lent by its text.
#[derive(Clone, Copy)]
pub struct Address<'t> {
    pub local: &'t str,
    pub domain: &'t str,
}

/// Reads `@` and a domain, after a local part.
#[tactic(auto, unfolding(crate::specs::Boxes::domain_at))]
pub fn read_domain<'l: 't, 't>(
    local: &'l str,
    text: &'t str,
) -> Result<(Address<'t>, &'t str), Stop>
    ensures { ReadsAs (λ x. (x.0.local.now ++ 64 ∷ x.0.domain.now, x.1.now)) result (domain_at local.now text.now) }
{
    let after = expect_byte('@', text)?;
    let (domain, rest) = take_run(Class::Domain, 255, after)?;
    Ok((Address { local, domain }, rest))
}

/// Reads a `local@domain`.
#[tactic(auto, unfolding(crate::specs::Boxes::address_at))]
pub fn read_address(text: &str) -> Result<(Address<'_>, &str), Stop>
    ensures { ReadsAs (λ x. (x.0.local.now ++ 64 ∷ x.0.domain.now, x.1.now)) result (address_at text.now) }
{
    let (local, rest) = take_run(Class::Local, 64, text)?;
    read_domain(local, rest)
}

impl<'t> Address<'t> {
    /// The text of the address.
    pub fn to_text(&self, alloc: Global) -> Result<Text, AllocError>
        ensures { IfOk result (λ text. text ≡ self.now.local.now ++ 64 ∷ self.now.domain.now) }
    {
        let mut text = String::from_str(alloc, self.local)?;
        text.push_str("@")?;
        text.push_str(self.domain)?;
        Ok(Text::from_string(text))
    }
}

/// Whether a text is one `local@domain`: a local part of 1 to 64 letters, digits and ``.!#$%&'*+-/=?^_`{|}~``, and a domain of 1 to
/// 255 letters, digits, `-` and `.`.
#[tactic(auto, unfolding(crate::specs::Boxes::is_address))]
pub fn is_address(text: &str) -> bool
    ensures { result ≡ is_address text.now }
{
    let (local, rest) = take_while(Class::Local, text);
    match strip_byte('@', rest) {
        Some(domain) => is_run(Class::Domain, 255, domain) && is_run(Class::Local, 64, local),
        None => false,
    }
}
