//! Flowed text: its paragraphs in quotes.
ghost use Rattle.std.specs.Prelude.{◌≡◌, ◌++◌, drop, replicate, OnOk, IsTrue};
ghost use Rattle.page_writer.specs.Page.{takes_tags};
ghost use Rattle.flowed_text.specs.Paragraphs.{paras_of};
ghost use Rattle.page_frames.specs.Elements.{with_tokens};
ghost use Rattle.mail_pages.specs.Mail.{flowed_tokens};
ghost use Rattle.mail_pages.specs.Flowed.{AreQuotes, change_depth, closed_quotes, flowed_paras, opened_quotes, para_element, quote, shown_depth, text_or_break};

use crate::html::decoded_text;
use flowed_text::{Para, Paras};
use mime_tree::Part;
use page_frames::open;
use page_writer::{Memory, PageOut};
use std::alloc::Global;

/// Writes the paragraphs of a part, each in as many quotes as it is deep. `del_sp` is the parameter `DelSp` of flowed text.
#[tactic(auto, unfolding(crate::specs::Mail::flowed_tokens))]
pub fn write_flowed(
    alloc: Global,
    out: &mut PageOut,
    part: &Part<'_>,
    del_sp: bool,
) -> Result<(), Memory>
    requires { IsTrue (takes_tags out.old.opened) }
    ensures { OnOk result (out.new ≡ with_tokens out.old (flowed_tokens del_sp part.now) out.old.opened) }
{
    let text = decoded_text(alloc, part)?;
    write_paras(alloc, out, &text, del_sp)
}

fn write_paras(alloc: Global, out: &mut PageOut, text: &str, del_sp: bool) -> Result<(), Memory>
    requires { IsTrue (takes_tags out.old.opened) }
    ensures { OnOk result (out.new ≡ with_tokens out.old (flowed_paras (paras_of text.now del_sp)) out.old.opened) }
{
    let mut unread = Paras::new(text, del_sp);
    let mut depth: u32 = 0;
    while let Some(para) = unread.next(alloc)? {
        let shown = shown_depth(&para);
        change_depth(alloc, out, depth, shown)?;
        write_para(alloc, out, para.text.as_str())?;
        depth = shown;
    }
    close_quotes(out, depth)
}

/// The greatest number of quotes around a paragraph.
const MAX_QUOTES: u32 = 16;

/// The number of quotes in which a paragraph is shown.
fn shown_depth(para: &Para) -> u32
    ensures { result ≡ shown_depth para.now }
{
    para.depth.min(MAX_QUOTES)
}

/// Closes or opens quotes until `new` are open. `old` are open before.
fn change_depth(alloc: Global, out: &mut PageOut, old: u32, new: u32) -> Result<(), Memory>
    requires quotes { AreQuotes old out.old.opened }
    requires tags { IsTrue (takes_tags (drop old out.old.opened)) }
    ensures { OnOk result (out.new ≡ with_tokens out.old (change_depth old new) (replicate new quote ++ drop old out.old.opened)) }
{
    close_quotes(out, old.saturating_sub(new))?;
    open_quotes(alloc, out, new.saturating_sub(old))
}

fn close_quotes(out: &mut PageOut, count: u32) -> Result<(), Memory>
    requires { AreQuotes count out.old.opened }
    ensures { OnOk result (out.new ≡ with_tokens out.old (closed_quotes count) (drop count out.old.opened)) }
{
    for _ in 0..count {
        out.end()?;
    }
    Ok(())
}

#[tactic(auto, unfolding(page_writer::specs::Writing::literals))]
fn open_quotes(alloc: Global, out: &mut PageOut, count: u32) -> Result<(), Memory>
    requires { IsTrue (takes_tags out.old.opened) }
    ensures { OnOk result (out.new ≡ with_tokens out.old (opened_quotes count) (replicate count quote ++ out.old.opened)) }
{
    for _ in 0..count {
        open(alloc, out, "blockquote")?;
    }
    Ok(())
}

/// Writes a paragraph.
#[tactic(auto, unfolding(page_writer::specs::Writing::literals))]
fn write_para(alloc: Global, out: &mut PageOut, text: &str) -> Result<(), Memory>
    requires { IsTrue (takes_tags out.old.opened) }
    ensures { OnOk result (out.new ≡ with_tokens out.old (para_element text.now) out.old.opened) }
{
    open(alloc, out, "div")?;
    write_text_or_break(alloc, out, text)?;
    out.end()
}

/// Writes the text of a paragraph, or a line break if it is empty.
#[tactic(auto, unfolding(page_writer::specs::Writing::literals))]
fn write_text_or_break(alloc: Global, out: &mut PageOut, text: &str) -> Result<(), Memory>
    requires { IsTrue (takes_tags out.old.opened) }
    ensures { OnOk result (out.new ≡ with_tokens out.old (text_or_break text.now) out.old.opened) }
{
    if text.is_empty() {
        open(alloc, out, "br")
    } else {
        out.chars(text)
    }
}
