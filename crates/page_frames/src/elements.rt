//! Elements of a page, each written by one call.
ghost use Rattle.std.specs.Prelude.{◌≡◌, [], ◌∷◌, chars, OnOk, IsTrue, false};
ghost use Rattle.html_syntax.specs.Token.Token.{Start};
ghost use Rattle.page_writer.specs.Page.{MayStart, takes_tags};
ghost use Rattle.html_rules.specs.Tokens.{replace_nulls};
ghost use Rattle.page_writer.specs.Writer.{with_token};
ghost use Rattle.html_rules.specs.Tokens.{start_tag};
ghost use Rattle.html_rules.specs.Tables.{is_void};
ghost use Rattle.page_frames.specs.Elements.{with_tokens, element, link};

use html_syntax::Attributes;
use page_writer::{Memory, PageOut};
use std::alloc::Global;

/// Opens an element that has no attribute.
pub fn open(alloc: Global, out: &mut PageOut, name: &str) -> Result<(), Memory>
    requires { MayStart out.old.opened (chars name.now) [] }
    ensures { OnOk result (out.new ≡ with_token out.old (start_tag (chars name.now))) }
{
    out.start(alloc, name, &Attributes::new(alloc))
}

/// Opens an element with one attribute.
pub fn open_with(
    alloc: Global,
    out: &mut PageOut,
    name: &str,
    attribute: &str,
    value: &str,
) -> Result<(), Memory>
    requires { MayStart out.old.opened (chars name.now) (record { name = chars attribute.now; value = chars value.now } ∷ []) }
    ensures { OnOk result (out.new ≡ with_token out.old (Start (chars name.now) (replace_nulls (record { name = chars attribute.now; value = chars value.now } ∷ [])))) }
{
    let mut attributes = Attributes::new(alloc);
    attributes.push(alloc, attribute, value)?;
    out.start(alloc, name, &attributes)
}

/// Opens an element with two attributes.
pub fn open_with_two(
    alloc: Global,
    out: &mut PageOut,
    name: &str,
    first: (&str, &str),
    second: (&str, &str),
) -> Result<(), Memory>
    requires { MayStart out.old.opened (chars name.now) (record { name = chars first.0.now; value = chars first.1.now } ∷ record { name = chars second.0.now; value = chars second.1.now } ∷ []) }
    ensures { OnOk result (out.new ≡ with_token out.old (Start (chars name.now) (replace_nulls (record { name = chars first.entry.0.now; value = chars first.entry.1.now } ∷ record { name = chars second.entry.0.now; value = chars second.entry.1.now } ∷ [])))) }
{
    let mut attributes = Attributes::new(alloc);
    attributes.push(alloc, first.0, first.1)?;
    attributes.push(alloc, second.0, second.1)?;
    out.start(alloc, name, &attributes)
}

/// Opens an element with three attributes.
pub fn open_with_three(
    alloc: Global,
    out: &mut PageOut,
    name: &str,
    first: (&str, &str),
    second: (&str, &str),
    third: (&str, &str),
) -> Result<(), Memory>
    requires { MayStart out.old.opened (chars name.now) (record { name = chars first.0.now; value = chars first.1.now } ∷ record { name = chars second.0.now; value = chars second.1.now } ∷ record { name = chars third.0.now; value = chars third.1.now } ∷ []) }
    ensures { OnOk result (out.new ≡ with_token out.old (Start (chars name.now) (replace_nulls (record { name = chars first.entry.0.now; value = chars first.entry.1.now } ∷ record { name = chars second.entry.0.now; value = chars second.entry.1.now } ∷ record { name = chars third.entry.0.now; value = chars third.entry.1.now } ∷ [])))) }
{
    let mut attributes = Attributes::new(alloc);
    attributes.push(alloc, first.0, first.1)?;
    attributes.push(alloc, second.0, second.1)?;
    attributes.push(alloc, third.0, third.1)?;
    out.start(alloc, name, &attributes)
}

/// Writes an element with a text in it.
pub fn write_element(
    alloc: Global,
    out: &mut PageOut,
    name: &str,
    content: &str,
) -> Result<(), Memory>
    requires may { MayStart out.old.opened (chars name.now) [] }
    requires holds { is_void (chars name.now) ≡ false }
    ensures { OnOk result (out.new ≡ with_tokens out.old (element (chars name.now) content.now) out.old.opened) }
{
    open(alloc, out, name)?;
    out.chars(content)?;
    out.end()
}

/// Writes a link to an address, with a text in it.
#[tactic(auto, unfolding(page_writer::specs::Writing::literals))]
pub fn write_link(
    alloc: Global,
    out: &mut PageOut,
    address: &str,
    content: &str,
) -> Result<(), Memory>
    requires { IsTrue (takes_tags out.old.opened) }
    ensures { OnOk result (out.new ≡ with_tokens out.old (link address.now content.now) out.old.opened) }
{
    open_with(alloc, out, "a", "href", address)?;
    out.chars(content)?;
    out.end()
}
