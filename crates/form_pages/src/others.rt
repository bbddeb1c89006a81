//! The page of a login, and that of a fault.
ghost use Rattle.std.specs.Prelude.{◌≡◌, encode_utf8_all, IfOk, OnOk, IsTrue};
ghost use Rattle.page_writer.specs.Page.{spell, takes_tags};
ghost use Rattle.page_frames.specs.Elements.{with_tokens};
ghost use Rattle.page_frames.specs.Pages.{IsFramePage};
ghost use Rattle.form_pages.specs.Others.{fault, fault_page, login_form, login_page};

use itoa::Buffer;
use page_frames::{
    close_form, close_page, finish_page, open_form, open_page, open_with, write_heading,
    write_password, write_visible,
};
use page_writer::{Memory, PageBytes, PageOut};
use std::alloc::Global;

/// Returns the page on which a member logs in.
#[tactic(auto, using(crate::proofs::Frame::login_frame), unfolding(page_writer::specs::Writing::literals, crate::specs::Others::login_page, page_frames::specs::Pages::framed))]
pub fn login_page(alloc: Global) -> Result<PageBytes, Memory>
    ensures equals { IfOk result (λ page. page ≡ encode_utf8_all (spell login_page)) }
    ensures is_safe { OnOk result (IsFramePage login_page) }
{
    let mut out = PageOut::new(alloc);
    open_page(alloc, &mut out, "Login", false)?;
    write_heading(alloc, &mut out, "Login")?;
    write_login_form(alloc, &mut out)?;
    close_page(&mut out)?;
    Ok(finish_page(out))
}

#[tactic(auto, unfolding(page_writer::specs::Writing::literals, crate::specs::Others::login_form))]
fn write_login_form(alloc: Global, out: &mut PageOut) -> Result<(), Memory>
    requires { IsTrue (takes_tags out.old.opened) }
    ensures { OnOk result (out.new ≡ with_tokens out.old login_form out.old.opened) }
{
    open_form(alloc, out, "/login")?;
    write_visible(alloc, out, "user", "")?;
    write_password(alloc, out, "password")?;
    close_form(alloc, out, "Log in")
}

/// Returns the page that says what is wrong. `status` is the status code of the reply; `session` tells whether the page is one of
/// a session, which begins with links.
#[tactic(auto, using(crate::proofs::Frame::fault_page_frame), unfolding(page_writer::specs::Writing::literals, crate::specs::Others::fault_page, page_frames::specs::Pages::framed))]
pub fn fault_page(
    alloc: Global,
    status: u16,
    text: &str,
    session: bool,
) -> Result<PageBytes, Memory>
    ensures equals { IfOk result (λ page. page ≡ encode_utf8_all (spell (fault_page status text.now session))) }
    ensures is_safe { OnOk result (IsFramePage (fault_page status text.now session)) }
{
    let mut number = Buffer::new();
    let title = number.format(status);
    let mut out = PageOut::new(alloc);
    open_page(alloc, &mut out, title, session)?;
    write_heading(alloc, &mut out, title)?;
    write_fault(alloc, &mut out, text)?;
    close_page(&mut out)?;
    Ok(finish_page(out))
}

#[tactic(auto, unfolding(page_writer::specs::Writing::literals, crate::specs::Others::fault))]
fn write_fault(alloc: Global, out: &mut PageOut, content: &str) -> Result<(), Memory>
    requires { IsTrue (takes_tags out.old.opened) }
    ensures { OnOk result (out.new ≡ with_tokens out.old (fault content.now) out.old.opened) }
{
    open_with(alloc, out, "p", "class", "fault")?;
    out.chars(content)?;
    out.end()
}
