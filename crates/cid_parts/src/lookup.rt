//! What the addresses of a message refer to.
ghost use Rattle.std.specs.Prelude.{◌≡◌, IfOk, option_and_then, if◌then◌else◌, Some, None, drop};
ghost use Rattle.std.specs.Option.{option_copied};
ghost use Rattle.percent_encoding.specs.Percent.{percent_decode};
ghost use Rattle.url.specs.Parts.{serialize};
ghost use Rattle.cid_parts.specs.Located.{references_of};
ghost use Rattle.cid_parts.specs.Refer.{is_cid, refer, refer_to_id, refer_to_text, IsSafe};

use crate::addresses::{content_id, has_address_chars, read_base, read_url, ref_of_text};
use crate::maps::{Addresses, Ids, address_key, map_addresses, map_ids};
use crate::refs::Ref;
use mime_tree::{Part, Tree};
use percent_encoding::percent_decode;
use std::alloc::{AllocError, Global};
use std::marker::Model;
use url::Url;

/// What the addresses of an HTML part refer to. It is made once for a message: the Content-IDs and Content-Locations of its parts are
/// read when it is made, and not for each address.
///
/// Contracts see the parts that addresses may name, and the base.
#[derive(Drop)]
pub struct References<'t, 'a> {
    /// The parts of which the maps were made.
    parts: &'t [Part<'a>],
    base: Option<Url>,
    ids: Ids<'t>,
    addresses: Addresses,
}

impl<'t, 'a> Model for References<'t, 'a> {
    ghost use Rattle.cid_parts.specs.Located.{ReferencesValue, located_parts};
    ghost use Rattle.cid_parts.specs.Maps.{AreMapsOf};

    ghost Value = { ReferencesValue };

    ghost view = { λ r. record { parts = located_parts r.parts.now; base = r.base } };

    ghost invariant = { λ r. AreMapsOf (located_parts r.parts.now) r.base r.ids r.addresses };
}

impl<'t, 'a> References<'t, 'a> {
    /// Reads the Content-IDs and Content-Locations of a message's parts. `base` is the Content-Location of its HTML part.
    pub fn new(
        alloc: Global,
        tree: &'t Tree<'a>,
        base: Option<&str>,
    ) -> Result<References<'t, 'a>, AllocError>
        ensures { IfOk result (λ r. r ≡ references_of tree.now (option_copied base.entry)) }
    {
        let parts = tree.parts();
        let base = read_base(alloc, base)?;
        let ids = map_ids(alloc, parts)?;
        let addresses = map_addresses(alloc, parts, base.as_ref())?;
        Ok(References {
            parts,
            base,
            ids,
            addresses,
        })
    }

    /// Returns what an address refers to.
    #[tactic(auto, unfolding(crate::specs::Refer::refer))]
    pub fn refer(&self, alloc: Global, address: &str) -> Result<Ref, AllocError>
        ensures equals { IfOk result (λ to. to ≡ refer self.now address.now) }
        ensures safe { IfOk result IsSafe }
    {
        if let Some(escaped) = content_id(address.as_bytes()) {
            return self.refer_to_id(alloc, escaped);
        }
        match read_url(alloc, self.base.as_ref(), address)? {
            Some(url) => Ok(self.refer_to_url(url)),
            None => Ok(Ref::Nothing),
        }
    }

    /// Returns the part of a Content-ID, as it is escaped after `cid:`.
    fn refer_to_id(&self, alloc: Global, escaped: &[u8]) -> Result<Ref, AllocError>
        ensures equals { IfOk result (λ to. to ≡ refer_to_id self.now (percent_decode escaped.now)) }
        ensures safe { IfOk result IsSafe }
    {
        let id = percent_decode(escaped).into_cow(alloc)?;
        match self.ids.get(id.as_slice()) {
            Some(section) => Ok(Ref::Part(*section)),
            None => Ok(Ref::Nothing),
        }
    }

    /// Returns what a URL refers to.
    #[tactic(auto, unfolding(crate::specs::Refer::refer_to_text))]
    fn refer_to_url(&self, url: Url) -> Ref
        ensures equals { result ≡ refer_to_text self.now (serialize url) }
        ensures safe { IsSafe result }
    {
        if !has_address_chars(url.as_str()) {
            return Ref::Nothing;
        }
        let key = address_key(String::from(url));
        match self.addresses.get(&key) {
            Some(section) => Ref::Part(*section),
            None => ref_of_text(key.1),
        }
    }
}

/// Returns what an address of a message's HTML part refers to. `base` is the Content-Location of that part.
pub fn refer(
    alloc: Global,
    tree: &Tree<'_>,
    base: Option<&str>,
    address: &str,
) -> Result<Ref, AllocError>
    ensures equals { IfOk result (λ to. to ≡ refer (references_of tree.now (option_copied base.entry)) address.now) }
    ensures safe { IfOk result IsSafe }
{
    References::new(alloc, tree, base)?.refer(alloc, address)
}
