//! Maps from the Content-IDs and the Content-Locations of a message's own parts to the first part of each.
ghost use Rattle.std.specs.Prelude.{◌≡◌, IfOk, OnOk, option_map, string_bytes};
ghost use Rattle.std.specs.Option.{option_copied};
ghost use Rattle.cid_parts.specs.Located.{located, located_parts, address_of};
ghost use Rattle.cid_parts.specs.Maps.{AddsAddress, AddsId, MapsAddresses, MapsIds, digest};

use crate::addresses::read_url;
use mail_values::Section;
use mime_tree::Part;
use std::alloc::{AllocError, Global};
use std::collections::BTreeMap;
use std::hash::{FoldHasher, Hasher};
use url::Url;

/// The section of the first part of each Content-ID.
pub type Ids<'t> = BTreeMap<&'t [u8], Section>;

/// The text of a URL, after its digest: texts that share a long base are compared only if their digests are the same. Whoever writes
/// a message can make digests collide, which costs no more than an order by texts alone.
pub type AddressKey = (u64, String);

/// The section of the first part of each Content-Location, by the key of its URL.
pub type Addresses = BTreeMap<AddressKey, Section>;

/// Returns the key of a URL's text.
pub fn address_key(text: String) -> AddressKey
    ensures digest { result.0 ≡ digest (string_bytes text) }
    ensures text { result.1 ≡ text }
{
    (digest(&text), text)
}

#[tactic(auto, unfolding(crate::specs::Maps::digest))]
fn digest(text: &str) -> u64
    ensures { result ≡ digest text.now }
{
    let mut hasher = FoldHasher::default();
    hasher.write(text.as_bytes());
    hasher.finish()
}

/// Maps the Content-IDs of the parts.
pub fn map_ids<'t>(alloc: Global, parts: &'t [Part<'_>]) -> Result<Ids<'t>, AllocError>
    ensures { IfOk result (λ ids. MapsIds ids (located_parts parts.now)) }
{
    let mut ids = BTreeMap::new(alloc);
    for part in parts {
        add_id(&mut ids, part)?;
    }
    Ok(ids)
}

fn add_id<'t>(ids: &mut Ids<'t>, part: &'t Part<'_>) -> Result<(), AllocError>
    ensures { OnOk result (AddsId ids.old ids.new part.now) }
{
    if part.is_enclosed() {
        return Ok(());
    }
    let Some(id) = part.id() else {
        return Ok(());
    };
    if ids.contains_key(&id) {
        return Ok(());
    }
    match ids.insert(id, *part.section()) {
        Ok(_) => Ok(()),
        Err(_) => Err(AllocError),
    }
}

/// The most bytes that the URLs of all parts may have. With a base they may be a thousand times as long as the message.
const ADDRESSES_LIMIT: usize = 134_217_728;

/// Maps the Content-Locations of the parts, each read with the base. One that doesn't read is none. URLs beyond the limit are answered
/// as want of memory.
pub fn map_addresses(
    alloc: Global,
    parts: &[Part<'_>],
    base: Option<&Url>,
) -> Result<Addresses, AllocError>
    ensures { IfOk result (λ addresses. MapsAddresses (option_copied base.entry) addresses (located_parts parts.now)) }
{
    let mut addresses = BTreeMap::new(alloc);
    let mut room = ADDRESSES_LIMIT;
    for part in parts {
        room = add_address(alloc, &mut addresses, part, base, room)?;
    }
    Ok(addresses)
}

/// Maps the Content-Location of a part, and returns the room that is left.
fn add_address(
    alloc: Global,
    addresses: &mut Addresses,
    part: &Part<'_>,
    base: Option<&Url>,
    room: usize,
) -> Result<usize, AllocError>
    ensures { OnOk result (AddsAddress (option_copied base.entry) addresses.old addresses.new part.now) }
{
    if part.is_enclosed() {
        return Ok(room);
    }
    let Some(address) = read_location(alloc, part, base)? else {
        return Ok(room);
    };
    if address.len() > room {
        return Err(AllocError);
    }
    let left = room - address.len();
    let key = address_key(address);
    if addresses.contains_key(&key) {
        return Ok(left);
    }
    addresses.insert(key, *part.section())?;
    Ok(left)
}

/// Returns the text of the URL that a part's Content-Location reads as.
fn read_location(
    alloc: Global,
    part: &Part<'_>,
    base: Option<&Url>,
) -> Result<Option<String>, AllocError>
    ensures { IfOk result (λ text. option_map string_bytes text ≡ address_of (option_copied base.entry) (located part.now)) }
{
    let Some(location) = part.location() else {
        return Ok(None);
    };
    match read_url(alloc, base, location)? {
        Some(url) => Ok(Some(String::from(url))),
        None => Ok(None),
    }
}
