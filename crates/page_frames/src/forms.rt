//! Forms and their controls.
ghost use Rattle.std.specs.Prelude.{◌≡◌, [], ◌∷◌, codes, OnOk, IsTrue};
ghost use Rattle.html_rules.specs.Tables.{Name};
ghost use Rattle.page_writer.specs.Page.{takes_tags, outer};
ghost use Rattle.page_frames.specs.Elements.{with_tokens};
ghost use Rattle.page_frames.specs.Forms.{form_start, form_end, hidden, visible, password, text_area_start, text_area};

use crate::elements::{open_with_three, open_with_two, write_element};
use page_writer::{Memory, PageOut};
use std::alloc::Global;

/// Opens a form that is sent to a path.
#[tactic(auto, unfolding(page_writer::specs::Writing::literals, crate::specs::Forms::form_start))]
pub fn open_form(alloc: Global, out: &mut PageOut, path: &str) -> Result<(), Memory>
    requires { IsTrue (takes_tags out.old.opened) }
    ensures { OnOk result (out.new ≡ with_tokens out.old (form_start path.now ∷ []) (codes "form" ∷ out.old.opened)) }
{
    open_with_two(alloc, out, "form", ("method", "post"), ("action", path))
}

/// Writes the button of the open form, and closes the form.
#[tactic(auto, unfolding(page_writer::specs::Writing::literals, crate::specs::Forms::form_end))]
pub fn close_form(alloc: Global, out: &mut PageOut, label: &str) -> Result<(), Memory>
    requires { out.old.opened ≡ codes "form" ∷ outer out.old.opened }
    ensures { OnOk result (out.new ≡ with_tokens out.old (form_end label.now) (outer out.old.opened)) }
{
    write_element(alloc, out, "button", label)?;
    out.end()
}

/// Writes a hidden input.
#[tactic(auto, unfolding(page_writer::specs::Writing::literals, crate::specs::Forms::hidden))]
pub fn write_hidden(alloc: Global, out: &mut PageOut, name: &str, value: &str) -> Result<(), Memory>
    requires { IsTrue (takes_tags out.old.opened) }
    ensures { OnOk result (out.new ≡ with_tokens out.old (hidden name.now value.now ∷ []) out.old.opened) }
{
    open_with_three(
        alloc,
        out,
        "input",
        ("type", "hidden"),
        ("name", name),
        ("value", value),
    )
}

/// Writes an input of a text.
#[tactic(auto, unfolding(page_writer::specs::Writing::literals, crate::specs::Forms::visible))]
pub fn write_visible(
    alloc: Global,
    out: &mut PageOut,
    name: &str,
    value: &str,
) -> Result<(), Memory>
    requires { IsTrue (takes_tags out.old.opened) }
    ensures { OnOk result (out.new ≡ with_tokens out.old (visible name.now value.now ∷ []) out.old.opened) }
{
    open_with_three(
        alloc,
        out,
        "input",
        ("type", "text"),
        ("name", name),
        ("value", value),
    )
}

/// Writes an empty input of a password.
#[tactic(auto, unfolding(page_writer::specs::Writing::literals, crate::specs::Forms::password))]
pub fn write_password(alloc: Global, out: &mut PageOut, name: &str) -> Result<(), Memory>
    requires { IsTrue (takes_tags out.old.opened) }
    ensures { OnOk result (out.new ≡ with_tokens out.old (password name.now ∷ []) out.old.opened) }
{
    open_with_three(
        alloc,
        out,
        "input",
        ("type", "password"),
        ("name", name),
        ("value", ""),
    )
}

/// Writes a text to edit.
#[tactic(auto, unfolding(page_writer::specs::Writing::literals, crate::specs::Forms::text_area, crate::specs::Forms::text_area_start))]
pub fn write_text_area(alloc: Global, out: &mut PageOut, content: &str) -> Result<(), Memory>
    requires { IsTrue (takes_tags out.old.opened) }
    ensures { OnOk result (out.new ≡ with_tokens out.old (text_area content.now) out.old.opened) }
{
    open_with_three(
        alloc,
        out,
        "textarea",
        ("name", "text"),
        ("rows", "20"),
        ("cols", "76"),
    )?;
    out.chars("\n")?;
    out.chars(content)?;
    out.end()
}
