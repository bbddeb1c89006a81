//! What a FETCH response tells.
ghost use Rattle.std.specs.Prelude.{◌≡◌, ◌++◌, IfOk, OnOk, is_some};
ghost use Rattle.imap_values.specs.Slices.{slices_of};
ghost use Rattle.imap_values.specs.Lents.{bytes_or_nil};
ghost use Rattle.imap_grammar.specs.ItemData.{item_data_of};
ghost use Rattle.mailbox_rows.specs.Rows.{row_of};
ghost use Rattle.mailbox_view.specs.Fetched.{with_item, fields_of, header_text, AppliesFetch};

use imap_grammar::{Item, Items};
use imap_values::{Lent, Slices};
use mail_values::{Bytes, Memory, Words};
use mailbox_rows::{Fields, Mailbox, Row, ViewFault};
use std::alloc::Global;

/// Copies words out of a response.
pub fn copy_words(alloc: Global, slices: &Slices) -> Result<Words, Memory>
    ensures { IfOk result (λ words. words ≡ slices.now) }
{
    let mut words = Words::new(alloc);
    let mut rest = slices.as_slice();
    while let [slice, more @ ..] = rest {
        words.push(Bytes::from_slice(alloc, slice)?)?;
        rest = more;
    }
    Ok(words)
}

/// Copies a header out of a response. One that is NIL is an empty one.
fn copy_header(alloc: Global, header: &Option<Lent>) -> Result<Bytes, Memory>
    ensures { IfOk result (λ text. text ≡ header_text (bytes_or_nil header.now)) }
{
    match header {
        Some(text) => Bytes::from_slice(alloc, text.as_slice()),
        None => Bytes::from_slice(alloc, &[]),
    }
}

/// Takes note of an item.
fn read_item(alloc: Global, fields: &mut Fields, item: &Item) -> Result<(), Memory>
    ensures { OnOk result (fields.new ≡ with_item fields.old (item_data_of item.now)) }
{
    match item {
        Item::Uid(uid) => fields.uid = Some(*uid),
        Item::Flags(flags) => fields.flags = Some(copy_words(alloc, flags)?),
        Item::Modseq(modseq) => fields.modseq = Some(*modseq),
        Item::Internal(moment) => fields.internal = Some(*moment),
        Item::Size(size) => fields.size = Some(*size),
        Item::Header(header) => fields.header = Some(copy_header(alloc, header)?),
        Item::Body(_) | Item::Other => {}
    }
    Ok(())
}

/// The items of a FETCH, the last of each name.
pub fn read_fields(alloc: Global, items: &Items) -> Result<Fields, Memory>
    ensures { IfOk result (λ fields. fields ≡ fields_of items.now) }
{
    let mut fields = Fields {
        uid: None,
        flags: None,
        modseq: None,
        internal: None,
        size: None,
        header: None,
    };
    let mut rest = items.as_slice();
    while let [item, more @ ..] = rest {
        read_item(alloc, &mut fields, item)?;
        rest = more;
    }
    Ok(fields)
}

/// Whether a response told all that a row has.
fn is_whole(fields: &Fields) -> bool
    ensures { result ≡ is_some (row_of fields.now) }
{
    fields.flags.is_some()
        && fields.modseq.is_some()
        && fields.internal.is_some()
        && fields.size.is_some()
        && fields.header.is_some()
}

/// The row of a message, if all that it has was told.
fn into_row(fields: Fields) -> Option<Row>
    ensures { result ≡ row_of fields }
{
    let Fields {
        flags,
        modseq,
        internal,
        size,
        header,
        ..
    } = fields;
    Some(Row {
        flags: flags?,
        modseq: modseq?,
        internal: internal?,
        size: size?,
        header: header?,
    })
}

/// Applies what was told of a message to its folder.
pub fn apply_fetch(folder: &mut Mailbox, uid: u32, fields: Fields) -> Result<(), ViewFault>
    ensures { AppliesFetch folder.old uid fields result folder.new }
{
    if !is_whole(&fields) {
        folder.change(uid, fields);
        return Ok(());
    }
    match into_row(fields) {
        Some(row) => folder.put(uid, row),
        None => Ok(()),
    }
}
