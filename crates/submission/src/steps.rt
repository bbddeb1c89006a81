//! The steps of a submission up to the message.
ghost use Rattle.std.specs.Prelude.{◌≡◌, ◌++◌, ◌∷◌, [], IfOk, OnOk, map};
ghost use Rattle.submission.specs.Script.{auth_line, credentials, data_line, hello_line, is_wanted, recipient_line, recipient_step, say, script, sender_line};

use base64::engine::general_purpose::STANDARD;
use mail_values::{Bytes, Text};
use std::alloc::{AllocError, Global};

/// How a step begins.
#[derive(Drop)]
pub enum Opening {
    /// The link is dialled.
    Dial,
    /// A line is said.
    Say(Bytes),
}

/// The codes with which a step goes on.
#[derive(Clone, Copy)]
pub enum Wanted {
    /// 220.
    Greeting,
    /// 250.
    Done,
    /// 235.
    SignedIn,
    /// 250 or 251.
    Recipient,
    /// 354.
    Data,
}

impl Wanted {
    /// Whether a step goes on with a code.
    pub fn accepts(self, code: u16) -> bool
        ensures { result ≡ is_wanted self code }
    {
        match self {
            Wanted::Greeting => code == 220,
            Wanted::Done => code == 250,
            Wanted::SignedIn => code == 235,
            Wanted::Recipient => code == 250 || code == 251,
            Wanted::Data => code == 354,
        }
    }
}

/// A step: how it begins, and the reply with which the next one follows.
#[derive(Drop)]
pub struct Step {
    pub opening: Opening,
    pub wanted: Wanted,
}

/// Returns a step that says a line.
fn say(line: Vec<u8>, wanted: Wanted) -> Step
    ensures { result ≡ say line.items wanted }
{
    Step {
        opening: Opening::Say(Bytes::from_vec(line)),
        wanted,
    }
}

fn hello_line(alloc: Global) -> Result<Vec<u8>, AllocError>
    ensures { IfOk result (λ line. line.items ≡ hello_line) }
{
    Vec::from_slice(alloc, b"EHLO webmail\r\n")
}

fn data_line(alloc: Global) -> Result<Vec<u8>, AllocError>
    ensures { IfOk result (λ line. line.items ≡ data_line) }
{
    Vec::from_slice(alloc, b"DATA\r\n")
}

/// Returns the words of AUTH PLAIN before they are encoded (RFC 4616).
fn credentials(alloc: Global, user: &str, password: &str) -> Result<Vec<u8>, AllocError>
    ensures { IfOk result (λ words. words.items ≡ credentials user.now password.now) }
{
    let mut words = Vec::new(alloc);
    words.push(0)?;
    words.extend_from_slice(user.as_bytes())?;
    words.push(0)?;
    words.extend_from_slice(password.as_bytes())?;
    Ok(words)
}

fn auth_line(alloc: Global, user: &str, password: &str) -> Result<Vec<u8>, AllocError>
    ensures { IfOk result (λ line. line.items ≡ auth_line user.now password.now) }
{
    let words = credentials(alloc, user, password)?;
    let encoded = STANDARD.encode(alloc, &words)?;
    let mut line = Vec::from_slice(alloc, b"AUTH PLAIN ")?;
    line.extend_from_slice(encoded.as_bytes())?;
    line.extend_from_slice(b"\r\n")?;
    Ok(line)
}

fn sender_line(alloc: Global, address: &str) -> Result<Vec<u8>, AllocError>
    ensures { IfOk result (λ line. line.items ≡ sender_line address.now) }
{
    let mut line = Vec::from_slice(alloc, b"MAIL FROM:<")?;
    line.extend_from_slice(address.as_bytes())?;
    line.extend_from_slice(b">\r\n")?;
    Ok(line)
}

fn recipient_line(alloc: Global, address: &str) -> Result<Vec<u8>, AllocError>
    ensures { IfOk result (λ line. line.items ≡ recipient_line address.now) }
{
    let mut line = Vec::from_slice(alloc, b"RCPT TO:<")?;
    line.extend_from_slice(address.as_bytes())?;
    line.extend_from_slice(b">\r\n")?;
    Ok(line)
}

fn recipient_step(alloc: Global, address: &str) -> Result<Step, AllocError>
    ensures { IfOk result (λ step. step ≡ recipient_step address.now) }
{
    Ok(say(recipient_line(alloc, address)?, Wanted::Recipient))
}

/// Appends the steps that name the recipients.
fn push_recipients(alloc: Global, steps: &mut Vec<Step>, to: &[Text]) -> Result<(), AllocError>
    ensures { OnOk result (steps.new.items ≡ steps.old.items ++ map recipient_step to.now) }
{
    for address in to {
        steps.push(recipient_step(alloc, address.as_str())?)?;
    }
    Ok(())
}

/// Appends the steps up to the sender.
fn push_opening(
    alloc: Global,
    steps: &mut Vec<Step>,
    user: &str,
    password: &str,
) -> Result<(), AllocError>
    ensures { OnOk result (steps.new.items ≡ steps.old.items ++ record { opening = Opening.Dial; wanted = Wanted.Greeting } ∷ say hello_line Wanted.Done ∷ say (auth_line user.now password.now) Wanted.SignedIn ∷ []) }
{
    steps.push(Step {
        opening: Opening::Dial,
        wanted: Wanted::Greeting,
    })?;
    steps.push(say(hello_line(alloc)?, Wanted::Done))?;
    steps.push(say(auth_line(alloc, user, password)?, Wanted::SignedIn))?;
    Ok(())
}

/// Returns the steps of a submission up to the message.
pub fn script(
    alloc: Global,
    user: &str,
    password: &str,
    from: &str,
    to: &[Text],
) -> Result<Vec<Step>, AllocError>
    ensures { IfOk result (λ steps. steps.items ≡ script user.now password.now from.now to.now) }
{
    let mut steps = Vec::new(alloc);
    push_opening(alloc, &mut steps, user, password)?;
    steps.push(say(sender_line(alloc, from)?, Wanted::Done))?;
    push_recipients(alloc, &mut steps, to)?;
    steps.push(say(data_line(alloc)?, Wanted::Data))?;
    Ok(steps)
}
