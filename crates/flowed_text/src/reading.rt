//! Reads flowed text.
ghost use Rattle.std.specs.Prelude.{◌≡◌, ◌<◌, [], ◌∷◌, ◌++◌, true, false, length, map, IfOk, IfSome, OnSome, IfNone, MatchOption, string_bytes};
ghost use Rattle.flowed_text.specs.Lines.{lines};
ghost use Rattle.flowed_text.specs.Paragraphs.{ends_in_space, first_has_depth, joinable_text, is_flowing, paras_of, read_line};
ghost use Rattle.flowed_text.specs.Reading.{EndsInSpaceIfFlowing, para_of};

use crate::lines::{split_line, strip_first};
use crate::{Memory, Para};
use mail_values::Text;
use std::alloc::Global;
use std::marker::Model;

/// A paragraph up to its last line so far, and whether that line flows.
#[derive(Drop)]
struct OpenPara {
    depth: u32,
    text: String,
    flowing: bool,
}

/// Returns the paragraphs of a text of `format=flowed` (RFC 3676 §4). `del_sp` is its parameter `DelSp`.
///
/// A line flows only into one of its own depth. If none follows, it is read as a fixed line and keeps its last space (§4.5). A
/// paragraph takes 32 bytes besides its text, so a text of empty lines takes 33 times its size: [`Paras`] reads one at a time.
pub fn read_flowed(alloc: Global, text: &str, del_sp: bool) -> Result<Vec<Para>, Memory>
    ensures { IfOk result (λ paras. paras.items ≡ paras_of text.now del_sp) }
{
    let mut paras = Vec::new(alloc);
    let mut unread = Paras::new(text, del_sp);
    while let Some(para) = unread.next(alloc)? {
        paras.push(para)?;
    }
    Ok(paras)
}

/// The paragraphs of a text that are still to be read, seen as their list.
#[derive(Drop)]
pub struct Paras<'t> {
    rest: &'t str,
    del_sp: bool,
}

impl<'t> Model for Paras<'t> {
    ghost use Rattle.std.specs.Prelude.{List};
    ghost use Rattle.flowed_text.specs.declared.Para.{Para};
    ghost use Rattle.flowed_text.specs.Paragraphs.{paras_of};

    ghost Value = { List Para };

    ghost view = { λ p. paras_of p.rest.now p.del_sp };
}

impl<'t> Paras<'t> {
    /// The paragraphs of a text of `format=flowed`. `del_sp` is its parameter `DelSp`.
    pub fn new(text: &'t str, del_sp: bool) -> Self
        ensures { result ≡ paras_of text.now del_sp }
    {
        Paras { rest: text, del_sp }
    }

    /// Reads the next paragraph; `None` if there is none.
    pub fn next(&mut self, alloc: Global) -> Result<Option<Para>, Memory>
        ensures { IfOk result (λ found. MatchOption found (self.old ≡ []) (λ para. self.old ≡ para ∷ self.new)) }
    {
        let Some((first, after)) = split_line(self.rest) else {
            return Ok(None);
        };
        let (depth, text) = read_line(first);
        let mut begun = open_para(alloc, depth, text)?;
        let mut rest = after;
        while let Some((line, after)) = joinable_line(&begun, rest) {
            begun = join_line(begun, line, self.del_sp)?;
            rest = after;
        }
        self.rest = rest;
        Ok(Some(close_para(begun)))
    }
}

/// The text of the next line and what is left after it, if the open paragraph flows into that line.
fn joinable_line<'t>(begun: &OpenPara, rest: &'t str) -> Option<(&'t str, &'t str)>
    ensures line { IfSome result (λ cut. map read_line (lines rest.now) ≡ record { depth = begun.now.depth; text = cut.0.now } ∷ map read_line (lines cut.1.now)) }
    ensures flows { OnSome result (begun.now.flowing ≡ true) }
    ensures shorter { IfSome result (λ cut. length cut.1.now < length rest.now) }
    ensures none { IfNone result (begun.now.flowing ≡ true → first_has_depth begun.now.depth (map read_line (lines rest.now)) ≡ false) }
{
    if !begun.flowing {
        return None;
    }
    let (line, after) = split_line(rest)?;
    let (depth, text) = read_line(line);
    if depth == begun.depth {
        Some((text, after))
    } else {
        None
    }
}

/// Opens a paragraph with its first line.
fn open_para(alloc: Global, depth: u32, text: &str) -> Result<OpenPara, Memory>
    ensures ends_in_space_if_flowing { IfOk result EndsInSpaceIfFlowing }
    ensures para { IfOk result (λ begun. para_of begun ≡ record { depth = depth; text = text.now }) }
    ensures flowing { IfOk result (λ begun. begun.flowing ≡ is_flowing text.now) }
{
    Ok(OpenPara {
        depth,
        text: String::from_str(alloc, text)?,
        flowing: is_flowing(text),
    })
}

/// Joins a line to the open paragraph.
fn join_line(begun: OpenPara, text: &str, del_sp: bool) -> Result<OpenPara, Memory>
    requires { ends_in_space (string_bytes begun.text) ≡ true }
    ensures ends_in_space_if_flowing { IfOk result EndsInSpaceIfFlowing }
    ensures para { IfOk result (λ next. para_of next ≡ record { depth = begun.depth; text = joinable_text del_sp (string_bytes begun.text) ++ text.now }) }
    ensures flowing { IfOk result (λ next. next.flowing ≡ is_flowing text.now) }
{
    let mut joined = begun.text;
    if del_sp {
        joined.truncate(joined.len() - 1);
    }
    joined.push_str(text)?;
    Ok(OpenPara {
        depth: begun.depth,
        text: joined,
        flowing: is_flowing(text),
    })
}

/// Closes a paragraph.
fn close_para(begun: OpenPara) -> Para
    ensures { result ≡ para_of begun }
{
    Para {
        depth: begun.depth,
        text: Text::from_string(begun.text),
    }
}

/// Returns the quote depth of a line and its text, without quote marks and stuffing (RFC 3676 §4.4, §4.5).
pub fn read_line(line: &str) -> (u32, &str)
    ensures depth { result.0 ≡ (read_line line.now).depth }
    ensures text { result.1.now ≡ (read_line line.now).text }
{
    let mut depth: u32 = 0;
    let mut rest = line;
    while let Some(after) = rest.strip_prefix('>') {
        depth = depth.saturating_add(1);
        rest = after;
    }
    (depth, strip_first(rest, ' '))
}

/// Whether a line flows into the next one of its depth.
fn is_flowing(text: &str) -> bool
    ensures { result ≡ is_flowing text.now }
{
    text.ends_with(' ') && text != "-- "
}
