//! The answer of an ask whose script came to its end.
ghost use Rattle.std.specs.Prelude.{◌≡◌, true, codes, IfOk, OnOk, IfSome, IfNone, Some, None, is_some};
ghost use Rattle.std.specs.Option.{option_copied};
ghost use Rattle.account_script.specs.Asks.{has_script};
ghost use Rattle.mailbox_view.specs.Selections.{box_named};
ghost use Rattle.mail_pages.specs.declared.frame.Frame.TheVariants as frames;
ghost use Rattle.mail_pages.specs.ShowPage.{shown_at};
ghost use Rattle.mime_tree.specs.Best.{part_at};
ghost use Rattle.mime_tree.specs.Opening.{tree_of};
ghost use Rattle.page_frames.specs.Pages.{IsFramePage};
ghost use Rattle.folder_pages.specs.Folders.{folder_page};
ghost use Rattle.account_answers.specs.Done.{answer_of_done, page_answer, folders_answer, list_answer, rows_answer, is_validity, is_at, body_at, message_answer, show_answer, is_picture, part_kind, bytes_answer, part_answer, IsSafeList, IsSafeRows, IsSafeMessage, IsSafeShow, IsSafeBytes, IsSafePart, IsSafeDone};

use crate::answer::{Answer, Body, fault_answer};
use account_pictures::Address;
use account_script::folders::mailbox_of;
use folder_pages::{folder_page, list_page};
use mail_pages::{Frame, PageFault, Section, show_page};
use mail_talk::{FetchedBody, Told};
use mail_values::{Bytes, Text};
use mailbox_rows::Mailbox;
use mime_tree::{Part, Tree, part, tree};
use page_writer::{Memory, PageBytes};
use site_asks::{Ask, Kind};
use std::alloc::Global;
use transfer_codings::decode;

/// Returns the answer to an ask whose script came to its end. `key` is the key that the session's forms carry.
pub fn done_answer(alloc: Global, ask: &Ask, key: &Text, told: &Told) -> Result<Answer, Memory>
    requires served { has_script ask.now ≡ true }
    ensures equals { IfOk result (λ answer. answer ≡ answer_of_done ask.now key.now told.now) }
    ensures is_safe { OnOk result (IsSafeDone ask.now key.now told.now) }
{
    match ask {
        Ask::Folders => folders_answer(alloc, told),
        Ask::List { folder, page } => list_answer(alloc, folder, *page, told),
        Ask::Show { at, part, images } => show_answer(alloc, at, key, part, *images, told),
        Ask::Part { at, section } => part_answer(alloc, at, section, told),
        _ => unreachable!(),
    }
}

/// Returns a page with the status 200.
fn page_answer(images: bool, page: PageBytes) -> Answer
    ensures { result ≡ page_answer images page }
{
    Answer {
        status: 200,
        kind: Kind::Page { images },
        body: Body::Page(page),
    }
}

fn folders_answer(alloc: Global, told: &Told) -> Result<Answer, Memory>
    ensures equals { IfOk result (λ answer. answer ≡ folders_answer told.now) }
    ensures is_safe { OnOk result (IsFramePage (folder_page told.now.view.folders)) }
{
    let page = folder_page(alloc, told.view().folders())?;
    Ok(page_answer(false, page))
}

#[tactic(auto, using(crate::proofs::SafeAnswers::without_folder))]
fn list_answer(alloc: Global, folder: &Text, page: u32, told: &Told) -> Result<Answer, Memory>
    ensures equals { IfOk result (λ answer. answer ≡ list_answer folder.now page (box_named folder.now told.now.view.boxes)) }
    ensures is_safe { OnOk result (IsSafeList folder.now page (box_named folder.now told.now.view.boxes)) }
{
    match mailbox_of(told, folder.as_str()) {
        Some(mailbox) => rows_answer(alloc, folder, page, mailbox),
        None => fault_answer(alloc, 404, "No such folder."),
    }
}

#[tactic(auto, using(crate::proofs::SafeAnswers::without_validity))]
fn rows_answer(alloc: Global, folder: &Text, page: u32, mailbox: &Mailbox) -> Result<Answer, Memory>
    ensures equals { IfOk result (λ answer. answer ≡ rows_answer folder.now page mailbox.now.validity mailbox.now.rows) }
    ensures is_safe { OnOk result (IsSafeRows folder.now page mailbox.now.validity mailbox.now.rows) }
{
    match mailbox.validity() {
        Some(validity) => {
            let page = list_page(alloc, folder, validity, mailbox.rows(), page)?;
            Ok(page_answer(false, page))
        }
        None => fault_answer(alloc, 404, "No such folder."),
    }
}

fn is_validity(told: Option<u32>, validity: u32) -> bool
    ensures { result ≡ is_validity told validity }
{
    match told {
        Some(one) => one == validity,
        None => false,
    }
}

/// Whether a body was fetched as that of the message at an address.
fn is_at(at: &Address, message: &FetchedBody) -> bool
    ensures { result ≡ is_at at.now message.now }
{
    message.folder.as_slice() == at.folder.as_str().as_bytes()
        && is_validity(message.validity, at.validity)
        && message.uid == at.uid
}

/// Returns the body of a message, if it was told.
fn body_of(message: &FetchedBody) -> Option<&[u8]>
    ensures some { IfSome result (λ body. message.now.body ≡ Some body.now) }
    ensures none { IfNone result (message.now.body ≡ None) }
{
    match &message.body {
        Some(body) => Some(body.as_slice()),
        None => None,
    }
}

/// Returns the body of the message at an address, if it was fetched last.
fn body_at<'a, 'b>(told: &'a Told, at: &'b Address) -> Option<&'a [u8]>
    ensures some { IfSome result (λ body. body_at at.now told.now.results.message ≡ Some body.now) }
    ensures none { IfNone result (body_at at.now told.now.results.message ≡ None) }
{
    match told.results().message() {
        Some(message) if is_at(at, message) => body_of(message),
        _ => None,
    }
}

/// Returns where the page of a message is shown.
fn session_frame(alloc: Global, at: &Address, key: &Text) -> Result<Frame, Memory>
    ensures { IfOk result (λ frame. frame ≡ frames.Session at.now key.now) }
{
    Ok(Frame::Session {
        at: Address {
            folder: Text::from_text(alloc, at.folder.as_str())?,
            validity: at.validity,
            uid: at.uid,
        },
        key: Text::from_text(alloc, key.as_str())?,
    })
}

fn show_answer(
    alloc: Global,
    at: &Address,
    key: &Text,
    part: &Option<Section>,
    images: bool,
    told: &Told,
) -> Result<Answer, Memory>
    ensures equals { IfOk result (λ answer. answer ≡ show_answer (frames.Session at.now key.now) (body_at at.now told.now.results.message) part.now images) }
    ensures is_safe { OnOk result (IsSafeShow (frames.Session at.now key.now) (body_at at.now told.now.results.message) part.now images) }
{
    match body_at(told, at) {
        Some(message) => {
            let frame = session_frame(alloc, at, key)?;
            message_answer(alloc, &frame, message, part, images)
        }
        None => fault_answer(alloc, 404, "No such message."),
    }
}

#[tactic(auto, using(crate::proofs::SafeAnswers::without_part))]
fn message_answer(
    alloc: Global,
    frame: &Frame,
    message: &[u8],
    part: &Option<Section>,
    images: bool,
) -> Result<Answer, Memory>
    ensures equals { IfOk result (λ answer. answer ≡ message_answer frame.now message.now part.now images) }
    ensures is_safe { OnOk result (IsSafeMessage (is_some (shown_at message.now part.now)) frame.now message.now part.now images) }
{
    match show_page(alloc, message, part, images, frame) {
        Ok(page) => Ok(page_answer(images, page)),
        Err(PageFault::NoSuchPart) => fault_answer(alloc, 404, "No such part."),
        Err(PageFault::Memory) => Err(Memory),
    }
}

fn part_answer(
    alloc: Global,
    at: &Address,
    section: &Section,
    told: &Told,
) -> Result<Answer, Memory>
    ensures equals { IfOk result (λ answer. answer ≡ part_answer section.now (body_at at.now told.now.results.message)) }
    ensures is_safe { OnOk result (IsSafePart section.now (body_at at.now told.now.results.message)) }
{
    match body_at(told, at) {
        Some(message) => section_answer(alloc, message, section),
        None => fault_answer(alloc, 404, "No such message."),
    }
}

fn section_answer(alloc: Global, message: &[u8], section: &Section) -> Result<Answer, Memory>
    ensures equals { IfOk result (λ answer. answer ≡ bytes_answer (part_at section.now (tree_of message.now).parts)) }
    ensures is_safe { OnOk result (IsSafeBytes (part_at section.now (tree_of message.now).parts)) }
{
    let tree = tree(alloc, message)?;
    tree_answer(alloc, &tree, section)
}

#[tactic(auto, using(crate::proofs::SafeAnswers::without_section))]
fn tree_answer(alloc: Global, tree: &Tree<'_>, section: &Section) -> Result<Answer, Memory>
    ensures equals { IfOk result (λ answer. answer ≡ bytes_answer (part_at section.now tree.now.parts)) }
    ensures is_safe { OnOk result (IsSafeBytes (part_at section.now tree.now.parts)) }
{
    match part(tree, section) {
        Some(part) => bytes_answer(alloc, part),
        None => fault_answer(alloc, 404, "No such part."),
    }
}

fn bytes_answer(alloc: Global, part: &Part<'_>) -> Result<Answer, Memory>
    ensures { IfOk result (λ answer. answer ≡ bytes_answer (Some part.now)) }
{
    let kind = part_kind(alloc, part.mime())?;
    let bytes = decode(alloc, part.coding(), part.bytes())?;
    Ok(Answer {
        status: 200,
        kind,
        body: Body::Plain(Bytes::from_vec(bytes)),
    })
}

/// Whether a media type is one that a browser may show.
fn is_picture(mime: &str) -> bool
    ensures { result ≡ is_picture mime.now }
{
    mime == "image/png" || mime == "image/jpeg" || mime == "image/gif" || mime == "image/webp"
}

fn part_kind(alloc: Global, mime: &str) -> Result<Kind, Memory>
    ensures { IfOk result (λ kind. kind ≡ part_kind mime.now) }
{
    if is_picture(mime) {
        Ok(Kind::Picture(Text::from_text(alloc, mime)?))
    } else {
        Ok(Kind::Raw)
    }
}
