//! Logins and asks in words, and what is answered to them.
ghost use Rattle.std.specs.Prelude.{◌≡◌, true, IfOk};
ghost use Rattle.account_core.specs.Served.{is_served};

use account_answers::{Answer, Body};
use account_core::{Account, Cause, LoginFault};
use account_pictures::Address;
use mail_io::Link;
use mail_values::{Memory, Section, Text};
use record_io::Keeper;
use site_asks::{Ask, Kind};
use std::alloc::Global;

/// An account of the site at `d.example`.
pub fn account_over<L: Link + Drop, K: Keeper + Drop>(
    alloc: Global,
    mail: L,
    post: L,
    keeper: K,
) -> Result<Account<L, K>, Memory> {
    let domain = Text::from_text(alloc, "d.example")?;
    Ok(Account::new(alloc, mail, post, keeper, domain))
}

fn number(word: Option<&str>) -> u32 {
    word.unwrap_or("").parse::<u32>().unwrap_or(1)
}

/// The ask of `folders`, `list FOLDER PAGE`, `show FOLDER VALIDITY UID`, `show FOLDER VALIDITY UID SECTION` or `part FOLDER VALIDITY UID SECTION`.
fn ask_of(alloc: Global, text: &str) -> Result<Ask, Memory>
    ensures served { IfOk result (λ ask. is_served ask ≡ true) }
{
    let mut words = text.split(' ');
    let name = words.next().unwrap_or("");
    let folder = Text::from_text(alloc, words.next().unwrap_or(""))?;
    let validity = number(words.next());
    let uid = number(words.next());
    let section = Section::parse(words.next().unwrap_or(""));
    if name == "list" {
        return Ok(Ask::List {
            folder,
            page: validity,
        });
    }
    let at = Address {
        folder,
        validity,
        uid,
    };
    Ok(match (name, section) {
        ("part", Some(section)) => Ask::Part { at, section },
        ("show", part) => Ask::Show {
            at,
            part,
            images: false,
        },
        _ => Ask::Folders,
    })
}

/// What a page says: the text of a fault, or what is between the head line and the forms.
fn content_of(page: &str) -> &str {
    if let Some((_, fault)) = page.split_once("<p class=\"fault\">") {
        return before(fault, "</p>");
    }
    let (_, content) = page.split_once("<h1>").unwrap_or((page, page));
    before(before(content, "\n</body>"), "\n<form")
}

fn before<'a, 'b>(text: &'a str, end: &'b str) -> &'a str {
    match text.split_once(end) {
        Some((front, _)) => front,
        None => text,
    }
}

/// The status, and what the page or the part says, or where the browser is sent. Pages are short here, and so have one piece.
fn shown(alloc: Global, answer: &Answer) -> Result<String, Memory> {
    let status = answer.status;
    let mut text = format!(in alloc; "{status} ")?;
    match &answer.body {
        Body::Page(page) => {
            let (_, bytes) = page.parts();
            let page = String::from_utf8_lossy(alloc, bytes)?;
            text.push_str(content_of(page.as_str()))?;
        }
        Body::Plain(bytes) => {
            let plain = String::from_utf8_lossy(alloc, bytes.as_slice())?;
            text.push_str(plain.as_str())?;
        }
    }
    if let Kind::To(address) = &answer.kind {
        text.push_str(address.as_str())?;
    }
    Ok(text)
}

/// Makes an ask. Without a user there is no answer.
pub fn answer<L: Link, K: Keeper>(
    alloc: Global,
    account: &mut Account<L, K>,
    ask: &str,
) -> Result<String, Memory> {
    if account.user().is_none() {
        return String::from_str(alloc, "nobody");
    }
    let key = Text::from_text(alloc, "k")?;
    let ask = ask_of(alloc, ask)?;
    let answer = account.handle(alloc, &key, &ask, 0)?;
    shown(alloc, &answer)
}

fn push_cause(text: &mut String, cause: &Cause) -> Result<(), Memory> {
    match cause {
        Cause::NoLogin { text: reason } => {
            text.push_str("refused: ")?;
            push_bytes(text, reason.as_slice())
        }
        Cause::Server {
            number,
            text: reason,
        } => {
            write!(text, "A{number} refused: ")?;
            push_bytes(text, reason.as_slice())
        }
        Cause::Damaged { at } => write!(text, "damaged at {at}"),
        Cause::Lacking { name } => {
            let name = name.as_str();
            write!(text, "lacks {name}")
        }
        _ => text.push_str("other"),
    }
}

fn push_bytes(text: &mut String, bytes: &[u8]) -> Result<(), Memory> {
    match std::str::from_utf8(bytes) {
        Ok(part) => text.push_str(part),
        Err(_) => Ok(()),
    }
}

/// Logs in, and returns how that ended.
pub fn login<L: Link, K: Keeper>(
    alloc: Global,
    account: &mut Account<L, K>,
    user: &str,
) -> Result<String, Memory> {
    let user = Text::from_text(alloc, user)?;
    let password = Text::from_text(alloc, "pw")?;
    let mut text = String::new(alloc);
    match account.login(alloc, &user, &password) {
        Ok(()) => text.push_str("in")?,
        Err(LoginFault::Stopped(cause)) => push_cause(&mut text, &cause)?,
        Err(LoginFault::Unreachable) => text.push_str("unreachable")?,
        Err(LoginFault::Unkept) => text.push_str("unkept")?,
        Err(LoginFault::Memory) => return Err(Memory),
    }
    Ok(text)
}

/// Logs in for `login USER`, else makes an ask.
pub fn call<L: Link, K: Keeper>(
    alloc: Global,
    account: &mut Account<L, K>,
    words: &str,
) -> Result<String, Memory> {
    match words.strip_prefix("login ") {
        Some(user) => login(alloc, account, user),
        None => answer(alloc, account, words),
    }
}

/// Makes calls, which `|` separates. Returns what is answered to each.
pub fn calls<L: Link, K: Keeper>(
    alloc: Global,
    account: &mut Account<L, K>,
    words: &str,
) -> Result<String, Memory> {
    let mut text = String::new(alloc);
    for one in words.split('|') {
        if !text.is_empty() {
            text.push('|')?;
        }
        let answer = call(alloc, account, one)?;
        text.push_str(answer.as_str())?;
    }
    Ok(text)
}
