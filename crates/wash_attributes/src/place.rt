//! The addresses of a message's parts on the site.
ghost use Rattle.std.specs.Prelude.{◌≡◌, IfOk, string_bytes};
ghost use Rattle.wash_attributes.specs.Addresses.{part_address};

use mail_values::{Memory, Section, Text};
use std::alloc::Global;

/// The address of a part is `prefix`, the part's section, and `suffix`.
#[derive(Drop)]
pub struct Place {
    pub prefix: Text,
    pub suffix: Text,
}

impl Place {
    /// Returns the address of the part of a section.
    pub fn part_address(&self, alloc: Global, section: &Section) -> Result<String, Memory>
        ensures { IfOk result (λ address. string_bytes address ≡ part_address self.now section.now) }
    {
        let spelling = section.spell(alloc)?;
        let mut address = String::from_str(alloc, self.prefix.as_str())?;
        address.push_str(spelling.as_str())?;
        address.push_str(self.suffix.as_str())?;
        Ok(address)
    }
}
