//! The addresses that pages link to.
ghost use Rattle.std.specs.Prelude.{◌≡◌, ◌++◌, IfOk, string_bytes};
ghost use Rattle.page_frames.specs.Paths.{folder_query, message_path, list_address, show_address, shown_part_address, part_address, images_address};

use account_pictures::Address;
use form_urlencoded::Serializer;
use itoa::Buffer;
use mail_values::Section;
use page_writer::Memory;
use std::alloc::Global;

/// The query that names a folder.
#[tactic(auto, unfolding(crate::specs::Paths::folder_query, form_urlencoded::specs::Form::byte_serialize))]
pub fn folder_query(alloc: Global, folder: &str) -> Result<String, Memory>
    ensures { IfOk result (λ query. string_bytes query ≡ folder_query folder.now) }
{
    let mut fields = Serializer::new(String::new(alloc));
    fields.append_pair("f", folder)?;
    let mut query = String::from_str(alloc, "?")?;
    query.push_str(&fields.finish())?;
    Ok(query)
}

/// The numbers of a message, as they are in a path.
#[tactic(auto, unfolding(crate::specs::Paths::message_path))]
pub fn message_path(alloc: Global, validity: u32, uid: u32) -> Result<String, Memory>
    ensures { IfOk result (λ path. string_bytes path ≡ message_path validity uid) }
{
    let mut path = String::from_str(alloc, Buffer::new().format(validity))?;
    path.push('/')?;
    path.push_str(Buffer::new().format(uid))?;
    Ok(path)
}

/// The address of the list of a folder.
#[tactic(auto, unfolding(crate::specs::Paths::list_address))]
pub fn list_address(alloc: Global, folder: &str) -> Result<String, Memory>
    ensures { IfOk result (λ address. string_bytes address ≡ list_address folder.now) }
{
    let mut address = String::from_str(alloc, "/list")?;
    address.push_str(&folder_query(alloc, folder)?)?;
    Ok(address)
}

/// The address of a message.
pub fn show_address(alloc: Global, at: &Address) -> Result<String, Memory>
    ensures { IfOk result (λ address. string_bytes address ≡ show_address at.now) }
{
    show_address_of(alloc, at.folder.as_str(), at.validity, at.uid)
}

/// The address of the message of a folder with these numbers.
#[tactic(auto, unfolding(crate::specs::Paths::show_address))]
pub fn show_address_of(
    alloc: Global,
    folder: &str,
    validity: u32,
    uid: u32,
) -> Result<String, Memory>
    ensures { IfOk result (λ address. string_bytes address ≡ show_address (record { folder = folder.now; validity = validity; uid = uid })) }
{
    let mut address = String::from_str(alloc, "/show/")?;
    address.push_str(&message_path(alloc, validity, uid)?)?;
    address.push_str(&folder_query(alloc, folder)?)?;
    Ok(address)
}

/// The address of a message with the part of a section shown.
#[tactic(auto, unfolding(crate::specs::Paths::shown_part_address))]
pub fn shown_part_address(alloc: Global, at: &Address, section: &Section) -> Result<String, Memory>
    ensures { IfOk result (λ address. string_bytes address ≡ shown_part_address at.now section.now) }
{
    let mut address = show_address(alloc, at)?;
    address.push_str("&part=")?;
    address.push_str(&section.spell(alloc)?)?;
    Ok(address)
}

/// The address of the bytes of a part.
#[tactic(auto, unfolding(crate::specs::Paths::part_address))]
pub fn part_address(alloc: Global, at: &Address, section: &Section) -> Result<String, Memory>
    ensures { IfOk result (λ address. string_bytes address ≡ part_address at.now section.now) }
{
    let mut address = String::from_str(alloc, "/part/")?;
    address.push_str(&message_path(alloc, at.validity, at.uid)?)?;
    address.push('/')?;
    address.push_str(&section.spell(alloc)?)?;
    address.push_str(&folder_query(alloc, at.folder.as_str())?)?;
    Ok(address)
}

/// The address of the same page of a message, with remote images.
#[tactic(auto, unfolding(crate::specs::Paths::images_address))]
pub fn images_address(alloc: Global, address: &str) -> Result<String, Memory>
    ensures { IfOk result (λ images. string_bytes images ≡ images_address address.now) }
{
    let mut images = String::from_str(alloc, address)?;
    images.push_str("&images=1")?;
    Ok(images)
}
