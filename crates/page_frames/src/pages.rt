//! The frame of every page.
ghost use Rattle.std.specs.Prelude.{◌≡◌, [], ◌∷◌, codes, encode_utf8_all, OnOk, IsTrue};
ghost use Rattle.html_rules.specs.FrameTokens.{is_frame};
ghost use Rattle.page_writer.specs.Page.{takes_tags, spell};
ghost use Rattle.page_writer.specs.Writer.{with_token};
ghost use Rattle.page_frames.specs.Elements.{with_tokens};
ghost use Rattle.page_frames.specs.Pages.{head_start, document_start, document_head, document_end, style_link, nav, nav_links, nav_if, page_start, heading, around_content, IsFramePage};

use crate::elements::{open, open_with, open_with_two, write_element, write_link};
use page_writer::{Memory, PageBytes, PageOut};
use std::alloc::Global;

/// Writes the beginning of the document, up to its title.
#[tactic(auto, unfolding(page_writer::specs::Writing::literals))]
fn open_document(alloc: Global, out: &mut PageOut) -> Result<(), Memory>
    requires { out.old.opened ≡ [] }
    ensures { OnOk result (out.new ≡ with_tokens out.old document_start (codes "head" ∷ codes "html" ∷ [])) }
{
    out.doctype()?;
    out.chars("\n")?;
    open_with(alloc, out, "html", "lang", "en")?;
    open_head(alloc, out)
}

#[tactic(auto, unfolding(page_writer::specs::Writing::literals))]
fn open_head(alloc: Global, out: &mut PageOut) -> Result<(), Memory>
    requires { out.old.opened ≡ codes "html" ∷ [] }
    ensures { OnOk result (out.new ≡ with_tokens out.old head_start (codes "head" ∷ codes "html" ∷ [])) }
{
    open(alloc, out, "head")?;
    open_with(alloc, out, "meta", "charset", "utf-8")
}

/// Writes the head of the document.
#[tactic(auto, unfolding(page_writer::specs::Writing::literals))]
fn write_document_head(alloc: Global, out: &mut PageOut, title: &str) -> Result<(), Memory>
    requires { out.old.opened ≡ [] }
    ensures { OnOk result (out.new ≡ with_tokens out.old (document_head title.now) (codes "html" ∷ [])) }
{
    open_document(alloc, out)?;
    write_element(alloc, out, "title", title)?;
    write_style_link(alloc, out)?;
    out.end()?;
    out.chars("\n")
}

#[tactic(auto, unfolding(page_writer::specs::Writing::literals))]
fn write_style_link(alloc: Global, out: &mut PageOut) -> Result<(), Memory>
    requires { IsTrue (takes_tags out.old.opened) }
    ensures { OnOk result (out.new ≡ with_token out.old style_link) }
{
    open_with_two(
        alloc,
        out,
        "link",
        ("rel", "stylesheet"),
        ("href", "/site.css"),
    )
}

/// Writes the links that every page of a session begins with.
#[tactic(auto, unfolding(page_writer::specs::Writing::literals, crate::specs::Pages::nav))]
fn write_nav(alloc: Global, out: &mut PageOut) -> Result<(), Memory>
    requires { IsTrue (takes_tags out.old.opened) }
    ensures { OnOk result (out.new ≡ with_tokens out.old nav out.old.opened) }
{
    open_with(alloc, out, "p", "class", "nav")?;
    write_nav_links(alloc, out)?;
    out.end()?;
    out.chars("\n")
}

#[tactic(auto, unfolding(crate::specs::Pages::nav_links))]
fn write_nav_links(alloc: Global, out: &mut PageOut) -> Result<(), Memory>
    requires { IsTrue (takes_tags out.old.opened) }
    ensures { OnOk result (out.new ≡ with_tokens out.old nav_links out.old.opened) }
{
    write_link(alloc, out, "/", "Folders")?;
    out.chars(" ")?;
    write_link(alloc, out, "/compose", "Compose")?;
    out.chars(" ")?;
    write_link(alloc, out, "/identities", "Identities")
}

fn write_nav_if(alloc: Global, out: &mut PageOut, in_session: bool) -> Result<(), Memory>
    requires { IsTrue (takes_tags out.old.opened) }
    ensures { OnOk result (out.new ≡ with_tokens out.old (nav_if in_session) out.old.opened) }
{
    if in_session {
        write_nav(alloc, out)
    } else {
        Ok(())
    }
}

/// Writes all that comes before the content of a page. In a session the page begins with links.
#[tactic(auto, unfolding(page_writer::specs::Writing::literals, crate::specs::Pages::page_start))]
pub fn open_page(
    alloc: Global,
    out: &mut PageOut,
    title: &str,
    in_session: bool,
) -> Result<(), Memory>
    requires { out.old.opened ≡ [] }
    ensures { OnOk result (out.new ≡ with_tokens out.old (page_start title.now in_session) around_content) }
{
    write_document_head(alloc, out, title)?;
    open(alloc, out, "body")?;
    write_nav_if(alloc, out, in_session)
}

/// Writes the heading that a page's content begins with.
#[tactic(auto, unfolding(page_writer::specs::Writing::literals, crate::specs::Pages::heading))]
pub fn write_heading(alloc: Global, out: &mut PageOut, title: &str) -> Result<(), Memory>
    requires { IsTrue (takes_tags out.old.opened) }
    ensures { OnOk result (out.new ≡ with_tokens out.old (heading title.now) out.old.opened) }
{
    write_element(alloc, out, "h1", title)?;
    out.chars("\n")
}

/// Writes all that comes after the content of a page.
#[tactic(auto, unfolding(page_writer::specs::Writing::literals))]
pub fn close_page(out: &mut PageOut) -> Result<(), Memory>
    requires { out.old.opened ≡ around_content }
    ensures { OnOk result (out.new ≡ with_tokens out.old document_end []) }
{
    out.chars("\n")?;
    out.end()?;
    out.end()?;
    out.chars("\n")
}

/// The bytes of a page without a message. No element may be open.
pub fn finish_page(out: PageOut) -> PageBytes
    requires opened { out.opened ≡ [] }
    requires frame { IsTrue (is_frame out.written) }
    ensures spelled { result ≡ encode_utf8_all (spell out.written) }
    ensures is_safe { IsFramePage out.written }
{
    out.finish()
}
