//! The lines of the text that is shown of a message.
ghost use Rattle.std.specs.Prelude.{◌≡◌, ◌++◌, ◌∷◌, [], IfOk, OnOk, map, replicate, string_bytes};
ghost use Rattle.std.specs.List.{flat_map};
ghost use Rattle.flowed_text.specs.Lines.{lines};
ghost use Rattle.flowed_text.specs.Paragraphs.{paras_of};
ghost use Rattle.mail_values.specs.Ascii.{greater_than_sign};
ghost use Rattle.draft_sources.specs.Lines.{decoded_text, line_text, lines_of, mark_of, para_line, text_of};

use flowed_text::{Para, Paras, split_line};
use mail_values::Text;
use mime_tree::{Coding, Part, Shown, Tree, best, part};
use std::alloc::{AllocError, Global};
use transfer_codings::{Charset, charset_of, decode, text_of as read_text};

/// Returns the shown text of a message, line by line: with `quoting` each line has a quote mark before it.
#[tactic(auto, unfolding(crate::specs::Lines::lines_of, crate::specs::Lines::text_of))]
pub fn shown_text(alloc: Global, tree: &Tree<'_>, quoting: bool) -> Result<Text, AllocError>
    ensures { IfOk result (λ text. text ≡ text_of quoting (lines_of tree.now)) }
{
    match best(tree) {
        Shown::Plain(section) => match part(tree, &section) {
            Some(part) => plain_text(alloc, part, quoting),
            None => Ok(empty(alloc)),
        },
        Shown::Flowed(section, del_sp) => match part(tree, &section) {
            Some(part) => flowed_text(alloc, part, del_sp, quoting),
            None => Ok(empty(alloc)),
        },
        Shown::Html(_) | Shown::Unread(_) | Shown::Nothing => Ok(empty(alloc)),
    }
}

/// Returns the lines of a plain text.
fn plain_text(alloc: Global, part: &Part<'_>, quoting: bool) -> Result<Text, AllocError>
    ensures { IfOk result (λ text. text ≡ text_of quoting (lines (decoded_text part.now))) }
{
    let text = decoded_text(alloc, part)?;
    let mut out = String::new(alloc);
    push_lines(&mut out, &text, quoting)?;
    Ok(Text::from_string(out))
}

/// Returns the paragraphs of a flowed text, each as a line.
fn flowed_text(
    alloc: Global,
    part: &Part<'_>,
    del_sp: bool,
    quoting: bool,
) -> Result<Text, AllocError>
    ensures { IfOk result (λ text. text ≡ text_of quoting (map para_line (paras_of (decoded_text part.now) del_sp))) }
{
    let text = decoded_text(alloc, part)?;
    let mut out = String::new(alloc);
    push_paras(alloc, &mut out, &text, del_sp, quoting)?;
    Ok(Text::from_string(out))
}

/// Returns the text of a part: decoded by its coding and its charset. Bytes of no coding are read in place.
fn decoded_text(alloc: Global, part: &Part<'_>) -> Result<String, AllocError>
    ensures { IfOk result (λ text. string_bytes text ≡ decoded_text part.now) }
{
    let charset = charset_of(part.charset().as_bytes()).unwrap_or(Charset::Utf8);
    match part.coding() {
        Coding::Plain => read_text(alloc, charset, part.bytes()),
        coding => {
            let bytes = decode(alloc, coding, part.bytes())?;
            read_text(alloc, charset, &bytes)
        }
    }
}

/// Appends the lines of a text.
#[tactic(auto, unfolding(crate::specs::Lines::text_of))]
fn push_lines(out: &mut String, text: &str, quoting: bool) -> Result<(), AllocError>
    ensures { OnOk result (string_bytes out.new ≡ string_bytes out.old ++ text_of quoting (lines text.now)) }
{
    let mut rest = text;
    while let Some((line, after)) = split_line(rest) {
        push_line(out, line, quoting)?;
        rest = after;
    }
    Ok(())
}

/// Appends the paragraphs of a text, each as a line.
#[tactic(auto, unfolding(crate::specs::Lines::text_of))]
fn push_paras(
    alloc: Global,
    out: &mut String,
    text: &str,
    del_sp: bool,
    quoting: bool,
) -> Result<(), AllocError>
    ensures { OnOk result (string_bytes out.new ≡ string_bytes out.old ++ text_of quoting (map para_line (paras_of text.now del_sp))) }
{
    let mut paras = Paras::new(text, del_sp);
    while let Some(para) = paras.next(alloc)? {
        push_line(out, &para_line(alloc, &para)?, quoting)?;
    }
    Ok(())
}

/// Returns a paragraph as one line.
fn para_line(alloc: Global, para: &Para) -> Result<String, AllocError>
    ensures { IfOk result (λ line. string_bytes line ≡ para_line para.now) }
{
    let mut line = String::new(alloc);
    push_marks(&mut line, para.depth)?;
    if para.depth > 0 {
        line.push(' ')?;
    }
    line.push_str(para.text.as_str())?;
    Ok(line)
}

fn push_marks(line: &mut String, depth: u32) -> Result<(), AllocError>
    ensures { OnOk result (string_bytes line.new ≡ string_bytes line.old ++ replicate depth greater_than_sign) }
{
    for _ in 0..depth {
        line.push('>')?;
    }
    Ok(())
}

/// Appends a line with its end, and with `quoting` after a quote mark.
fn push_line(out: &mut String, line: &str, quoting: bool) -> Result<(), AllocError>
    ensures { OnOk result (string_bytes out.new ≡ string_bytes out.old ++ line_text quoting line.now) }
{
    if quoting {
        out.push_str(mark_of(line))?;
    }
    out.push_str(line)?;
    out.push('\n')
}

/// Returns the mark before a quoted line.
fn mark_of(line: &str) -> &'static str
    ensures { result.now ≡ mark_of line.now }
{
    if line.starts_with('>') { ">" } else { "> " }
}

fn empty(alloc: Global) -> Text
    ensures { result ≡ [] }
{
    Text::from_string(String::new(alloc))
}
