//! The body of a message: the paragraphs of a draft's text, as flowed text.
ghost use Rattle.std.specs.Prelude.{◌≡◌, ◌++◌, false, IfOk, OnOk, codes, string_bytes};
ghost use Rattle.std.specs.List.{list_all};
ghost use Rattle.flowed_text.specs.Flow.{flow};
ghost use Rattle.flowed_text.specs.Paragraphs.{paras_of};
ghost use Rattle.compose_drafts.specs.Bodies.{CodesBack};
ghost use Rattle.compose_drafts.specs.Paragraphs.{coded, has_short_lines, is_ascii, is_seven_bit, is_short, paragraph_of, paragraphs_of, trimmed};

use flowed_text::{Para, read_line, split_line, write_flowed};
use mail_addresses::{skip_spaces, trim_end};
use mail_values::Text;
use std::alloc::{AllocError, Global};
use transfer_codings::encode_quoted;

/// The most bytes of a line of a body that is sent as it is, with its CR.
const LINE: usize = 999;

/// Returns a line without its outer spaces, unless it is the line before a signature.
fn trimmed(line: &str) -> &str
    ensures { result.now ≡ trimmed line.now }
{
    if line == "-- " {
        return line;
    }
    trim_end(skip_spaces(line))
}

/// Returns the paragraph of a line.
fn paragraph_of(alloc: Global, line: &str) -> Result<Para, AllocError>
    ensures { IfOk result (λ para. para ≡ paragraph_of line.now) }
{
    let (depth, text) = read_line(trimmed(line));
    let text = Text::from_text(alloc, skip_spaces(text))?;
    Ok(Para { depth, text })
}

/// Returns the paragraphs of a text: its lines.
#[tactic(auto, unfolding(crate::specs::Paragraphs::paragraphs_of))]
fn paragraphs_of(alloc: Global, text: &str) -> Result<Vec<Para>, AllocError>
    ensures { IfOk result (λ paras. paras.items ≡ paragraphs_of text.now) }
{
    let mut paras = Vec::new(alloc);
    let mut rest = text;
    while let Some((line, more)) = split_line(rest) {
        paras.push(paragraph_of(alloc, line)?)?;
        rest = more;
    }
    Ok(paras)
}

/// Returns the text of a draft as flowed text.
pub fn body_of(alloc: Global, text: &str) -> Result<String, AllocError>
    ensures equals { IfOk result (λ body. string_bytes body ≡ flow (paragraphs_of text.now)) }
    ensures parses { IfOk result (λ body. paras_of (string_bytes body) false ≡ paragraphs_of text.now) }
{
    let paras = paragraphs_of(alloc, text)?;
    write_flowed(alloc, &paras)
}

fn is_ascii(body: &[u8]) -> bool
    ensures { result ≡ list_all is_ascii body.now }
{
    body.iter().all(|byte| *byte < 128)
}

fn is_short(line: &[u8]) -> bool
    ensures { result ≡ is_short line.now }
{
    line.len() <= LINE
}

fn has_short_lines(body: &[u8]) -> bool
    ensures { result ≡ has_short_lines body.now }
{
    body.split(|byte| *byte == b'\n').all(|line| is_short(line))
}

/// Whether a body can be sent as it is.
#[tactic(auto, unfolding(crate::specs::Paragraphs::is_seven_bit))]
pub fn is_seven_bit(body: &[u8]) -> bool
    ensures { result ≡ is_seven_bit body.now }
{
    is_ascii(body) && has_short_lines(body)
}

/// Appends a body, as it is or as quoted-printable.
pub fn push_coded(
    alloc: Global,
    out: &mut Vec<u8>,
    seven_bit: bool,
    body: &[u8],
) -> Result<(), AllocError>
    ensures appends { OnOk result (out.new.items ≡ out.old.items ++ coded seven_bit body.now) }
    ensures decodes { OnOk result (CodesBack seven_bit body.now) }
{
    if seven_bit {
        return out.extend_from_slice(body);
    }
    let quoted = encode_quoted(alloc, body)?;
    out.extend_from_slice(&quoted)
}
