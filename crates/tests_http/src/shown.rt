//! What was read, as a text.
use account_pictures::Address;
use http_front::{AskFault, read_ask};
use mail_values::{Bytes, Text, Words};
use site_asks::{Ask, Draft, Flag, How};
use site_io::ScriptedCaller;
use std::alloc::{AllocError, Global};

/// The number of the form of a new draft.
const FORM: u64 = 42;

fn address(alloc: Global, at: &Address) -> Result<String, AllocError> {
    let folder = at.folder.as_str();
    let validity = at.validity;
    let uid = at.uid;
    format!(in alloc; "{folder} {validity} {uid}")
}

fn draft(alloc: Global, draft: &Draft) -> Result<String, AllocError> {
    let form = draft.form;
    let identity = draft.identity;
    let to = draft.to.as_str();
    let cc = draft.cc.as_str();
    let subject = draft.subject.as_str();
    let text = draft.text.as_str();
    let refs = draft.refs.as_str();
    let old = match &draft.old {
        Some(at) => address(alloc, at)?,
        None => String::from_str(alloc, "-")?,
    };
    let old = old.as_str();
    format!(in alloc; "{form} {identity} {to}|{cc}|{subject}|{text}|{refs} {old}")
}

fn flag_name(flag: &Flag) -> &'static str {
    match flag {
        Flag::Seen => "Seen",
        Flag::Flagged => "Flagged",
        Flag::Answered => "Answered",
    }
}

fn how_name(how: &How) -> &'static str {
    match how {
        How::Reply => "reply",
        How::Forward => "forward",
        How::Edit => "edit",
    }
}

/// A word, a key, an address and another word.
fn deed(
    alloc: Global,
    word: &str,
    key: &Text,
    at: &Address,
    more: &str,
) -> Result<String, AllocError> {
    let key = key.as_str();
    let at = address(alloc, at)?;
    let at = at.as_str();
    format!(in alloc; "{word} {key} {at}{more}")
}

fn folder_page(alloc: Global, word: &str, folder: &Text, page: u32) -> Result<String, AllocError> {
    let folder = folder.as_str();
    format!(in alloc; "{word} {folder} {page}")
}

fn page(alloc: Global, ask: &Ask) -> Result<String, AllocError> {
    match ask {
        Ask::Folders => String::from_str(alloc, "folders"),
        Ask::List { folder, page } => folder_page(alloc, "list", folder, *page),
        Ask::Threads { folder, page } => folder_page(alloc, "threads", folder, *page),
        Ask::Search {
            folder,
            words,
            page,
        } => {
            let folder = folder.as_str();
            let words = words.as_str();
            format!(in alloc; "search {folder} {words} {page}")
        }
        Ask::Show { at, part, images } => {
            let at = address(alloc, at)?;
            let at = at.as_str();
            let part = match part {
                Some(section) => section.spell(alloc)?,
                None => String::from_str(alloc, "-")?,
            };
            let part = part.as_str();
            format!(in alloc; "show {at} {part} {images}")
        }
        Ask::Part { at, section } => {
            let at = address(alloc, at)?;
            let at = at.as_str();
            let section = section.spell(alloc)?;
            let section = section.as_str();
            format!(in alloc; "part {at} {section}")
        }
        Ask::Compose { form, from: None } => format!(in alloc; "compose {form} -"),
        Ask::Compose {
            form,
            from: Some((at, how)),
        } => {
            let at = address(alloc, at)?;
            let at = at.as_str();
            let how = how_name(how);
            format!(in alloc; "compose {form} {at} {how}")
        }
        Ask::Identities => String::from_str(alloc, "identities"),
        Ask::LoginPage => String::from_str(alloc, "login page"),
        Ask::Sheet => String::from_str(alloc, "sheet"),
        _ => String::from_str(alloc, "a deed"),
    }
}

/// An ask as a text.
fn asked(alloc: Global, ask: &Ask) -> Result<String, AllocError> {
    match ask {
        Ask::Login { user, password } => {
            let user = user.as_str();
            let password = password.as_str();
            format!(in alloc; "login {user} {password}")
        }
        Ask::Logout { key } => {
            let key = key.as_str();
            format!(in alloc; "logout {key}")
        }
        Ask::Flag { key, at, flag, on } => {
            let flag = flag_name(flag);
            let more = format!(in alloc; " {flag} {on}")?;
            deed(alloc, "flag", key, at, more.as_str())
        }
        Ask::Move { key, at, to } => {
            let to = to.as_str();
            let more = format!(in alloc; " {to}")?;
            deed(alloc, "move", key, at, more.as_str())
        }
        Ask::Delete { key, at } => deed(alloc, "delete", key, at, ""),
        Ask::SaveDraft { key, fields } => {
            let key = key.as_str();
            let fields = draft(alloc, fields)?;
            let fields = fields.as_str();
            format!(in alloc; "draft {key} {fields}")
        }
        Ask::SendDraft { key, fields } => {
            let key = key.as_str();
            let fields = draft(alloc, fields)?;
            let fields = fields.as_str();
            format!(in alloc; "send {key} {fields}")
        }
        Ask::SetIdentity {
            key,
            number,
            identity,
        } => {
            let key = key.as_str();
            let name = identity.name.as_str();
            let address = identity.address.as_str();
            format!(in alloc; "identity {key} {number} {name} {address}")
        }
        other => page(alloc, other),
    }
}

fn fault(alloc: Global, fault: &AskFault) -> Result<String, AllocError> {
    match fault {
        AskFault::Cut => String::from_str(alloc, "cut"),
        AskFault::NotHttp => String::from_str(alloc, "not http"),
        AskFault::Head => String::from_str(alloc, "head"),
        AskFault::Coding => String::from_str(alloc, "coding"),
        AskFault::Field { name } => {
            let name = name.as_str();
            format!(in alloc; "field {name}")
        }
        AskFault::Body { bytes } => format!(in alloc; "body {bytes}"),
        AskFault::NoRoute => String::from_str(alloc, "no route"),
        AskFault::Memory => Err(AllocError),
    }
}

/// An ask and a cookie as a text.
fn with_cookie(alloc: Global, ask: &Ask, cookie: &Option<Text>) -> Result<String, AllocError> {
    let ask = asked(alloc, ask)?;
    match cookie {
        Some(cookie) => {
            let ask = ask.as_str();
            let cookie = cookie.as_str();
            format!(in alloc; "{ask} wm={cookie}")
        }
        None => Ok(ask),
    }
}

/// What a caller with these chunks asks for, and its cookie. The calls of these numbers fail.
pub fn read(
    alloc: Global,
    chunks: Vec<Bytes>,
    room: usize,
    failing: Vec<u64>,
) -> Result<String, AllocError> {
    let mut caller = ScriptedCaller::new(alloc, Words::from_vec(chunks), room, 0, failing)?;
    match read_ask(alloc, &mut caller, FORM) {
        Ok((ask, cookie)) => with_cookie(alloc, &ask, &cookie),
        Err(refused) => fault(alloc, &refused),
    }
}

/// What a request asks for, if it comes in two pieces that are cut at a place, or in one at 0.
pub fn read_cut(alloc: Global, request: &[u8], at: usize) -> Result<String, AllocError> {
    let at = at.min(request.len());
    let mut chunks = Vec::new(alloc);
    if at > 0 {
        chunks.push(Bytes::from_slice(alloc, &request[..at])?)?;
    }
    chunks.push(Bytes::from_slice(alloc, &request[at..])?)?;
    read(alloc, chunks, request.len(), Vec::new(alloc))
}
