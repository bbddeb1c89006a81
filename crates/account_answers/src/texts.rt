//! What the page of a cause says.
ghost use Rattle.std.specs.Prelude.{◌≡◌, ◌++◌, codes, decimal, IfOk, string_bytes};
ghost use Rattle.std.specs.Str.Lossy.{utf8_lossy};
ghost use Rattle.account_script.specs.declared.cause.Cause.TheVariants as causes;
ghost use Rattle.account_answers.specs.Answers.{status_of, text_of};

use account_script::Cause;
use itoa::Buffer;
use page_writer::Memory;
use std::alloc::Global;

/// Returns the status code of a cause.
pub fn status_of(cause: &Cause) -> u16
    ensures { result ≡ status_of cause.now }
{
    match cause {
        Cause::NoFolder | Cause::NoMessage => 404,
        Cause::Renewed { .. } => 409,
        Cause::LongMessage { .. } | Cause::TooMany { .. } | Cause::Server { .. } => 422,
        Cause::NoLogin { .. } => 303,
        Cause::Damaged { .. } | Cause::Lacking { .. } => 502,
    }
}

/// Returns what the page of a cause says; nothing for a refused login.
pub fn text_of(alloc: Global, cause: &Cause) -> Result<String, Memory>
    ensures { IfOk result (λ text. string_bytes text ≡ text_of cause.now) }
{
    match cause {
        Cause::NoFolder => String::from_str(alloc, "No such folder."),
        Cause::NoMessage => String::from_str(alloc, "No such message."),
        Cause::Renewed { asked, told } => renewed_text(alloc, *asked, *told),
        Cause::LongMessage { size } => long_text(alloc, *size),
        Cause::TooMany { rows, bytes } => large_text(alloc, *rows, *bytes),
        Cause::NoLogin { .. } => Ok(String::new(alloc)),
        Cause::Server { number, text } => refusal_text(alloc, *number, text.as_slice()),
        Cause::Damaged { at } => damage_text(alloc, *at),
        Cause::Lacking { name } => lacking_text(alloc, name.as_str()),
    }
}

fn renewed_text(alloc: Global, asked: u32, told: u32) -> Result<String, Memory>
    ensures { IfOk result (λ text. string_bytes text ≡ text_of (causes.Renewed asked told)) }
{
    let mut text = String::from_str(alloc, "The folder was renewed: asked ")?;
    text.push_str(Buffer::new().format(asked))?;
    text.push_str(", now ")?;
    text.push_str(Buffer::new().format(told))?;
    text.push_str(".")?;
    Ok(text)
}

fn long_text(alloc: Global, size: u64) -> Result<String, Memory>
    ensures { IfOk result (λ text. string_bytes text ≡ text_of (causes.LongMessage size)) }
{
    let mut text = String::from_str(alloc, "The message is too long: ")?;
    text.push_str(Buffer::new().format(size))?;
    text.push_str(" bytes.")?;
    Ok(text)
}

fn large_text(alloc: Global, rows: u32, bytes: u64) -> Result<String, Memory>
    ensures { IfOk result (λ text. string_bytes text ≡ text_of (causes.TooMany rows bytes)) }
{
    let mut text = String::from_str(alloc, "The folder is too large: ")?;
    text.push_str(Buffer::new().format(rows))?;
    text.push_str(" rows, ")?;
    text.push_str(Buffer::new().format(bytes))?;
    text.push_str(" header bytes.")?;
    Ok(text)
}

fn refusal_text(alloc: Global, number: u32, reason: &[u8]) -> Result<String, Memory>
    ensures { IfOk result (λ text. string_bytes text ≡ text_of (causes.Server number reason.now)) }
{
    let mut text = String::from_str(alloc, "The server answered A")?;
    text.push_str(Buffer::new().format(number))?;
    text.push_str(": ")?;
    text.push_str(&String::from_utf8_lossy(alloc, reason)?)?;
    Ok(text)
}

fn damage_text(alloc: Global, at: u64) -> Result<String, Memory>
    ensures { IfOk result (λ text. string_bytes text ≡ text_of (causes.Damaged at)) }
{
    let mut text = String::from_str(alloc, "The server's answer is damaged at byte ")?;
    text.push_str(Buffer::new().format(at))?;
    text.push_str(".")?;
    Ok(text)
}

fn lacking_text(alloc: Global, name: &str) -> Result<String, Memory>
    ensures { IfOk result (λ text. string_bytes text ≡ text_of (causes.Lacking name.now)) }
{
    let mut text = String::from_str(alloc, "The server lacks ")?;
    text.push_str(name)?;
    text.push_str(".")?;
    Ok(text)
}
