//! The answer of an account.
ghost use Rattle.std.specs.Prelude.{◌≡◌, true, codes, IfOk, OnOk};
ghost use Rattle.page_frames.specs.Pages.{IsFramePage};
ghost use Rattle.form_pages.specs.Others.{fault_page};
ghost use Rattle.account_answers.specs.Answers.{answer_of_cause, fault_answer, login_answer, IsSafeStop};

use crate::texts::{status_of, text_of};
use account_script::Cause;
use form_pages::fault_page;
use mail_values::{Bytes, Text};
use page_writer::{Memory, PageBytes};
use site_asks::Kind;
use std::alloc::Global;

/// The body of an answer.
#[derive(Drop)]
pub enum Body {
    Page(PageBytes),
    /// Bytes as they are. An answer that is no page and no part has none.
    Plain(Bytes),
}

/// What an account answers.
#[derive(Drop)]
pub struct Answer {
    /// The status code (RFC 9110 §15).
    pub status: u16,
    pub kind: Kind,
    pub body: Body,
}

/// Returns the answer to an ask whose script was stopped by a cause.
pub fn stopped_answer(alloc: Global, cause: &Cause) -> Result<Answer, Memory>
    ensures equals { IfOk result (λ answer. answer ≡ answer_of_cause cause.now) }
    ensures is_safe { OnOk result (IsSafeStop cause.now) }
{
    match cause {
        Cause::NoLogin { .. } => login_answer(alloc),
        _ => fault_answer(alloc, status_of(cause), &text_of(alloc, cause)?),
    }
}

/// Returns the answer if the link to the mail server failed.
pub fn unreachable_answer(alloc: Global) -> Result<Answer, Memory>
    ensures equals { IfOk result (λ answer. answer ≡ fault_answer 503 (codes "The server cannot be reached.")) }
    ensures is_safe { OnOk result (IsFramePage (fault_page 503 (codes "The server cannot be reached.") true)) }
{
    fault_answer(alloc, 503, "The server cannot be reached.")
}

/// Returns the answer if the keeper failed.
pub fn unkept_answer(alloc: Global) -> Result<Answer, Memory>
    ensures equals { IfOk result (λ answer. answer ≡ fault_answer 500 (codes "The records could not be read or written.")) }
    ensures is_safe { OnOk result (IsFramePage (fault_page 500 (codes "The records could not be read or written.") true)) }
{
    fault_answer(alloc, 500, "The records could not be read or written.")
}

/// Returns a page that says what is wrong.
pub(crate) fn fault_answer(alloc: Global, status: u16, text: &str) -> Result<Answer, Memory>
    ensures equals { IfOk result (λ answer. answer ≡ fault_answer status text.now) }
    ensures is_safe { OnOk result (IsFramePage (fault_page status text.now true)) }
{
    Ok(Answer {
        status,
        kind: Kind::Page { images: false },
        body: Body::Page(fault_page(alloc, status, text, true)?),
    })
}

/// Returns the answer that sends the browser to the login.
fn login_answer(alloc: Global) -> Result<Answer, Memory>
    ensures { IfOk result (λ answer. answer ≡ login_answer) }
{
    Ok(Answer {
        status: 303,
        kind: Kind::To(Text::from_text(alloc, "/login")?),
        body: Body::Plain(Bytes::from_vec(Vec::new(alloc))),
    })
}
