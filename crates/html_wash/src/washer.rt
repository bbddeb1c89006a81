//! The washer: washes a message token by token as it is scanned.
ghost use Rattle.std.specs.Prelude.{◌≡◌, OnOk};
ghost use Rattle.html_tokens.specs.Scanned.{span_tokens, IsSpan};
ghost use Rattle.page_writer.specs.Writer.{with_all_tokens};
ghost use Rattle.wash_attributes.specs.Addresses.{given_of};
ghost use Rattle.html_wash.specs.Elements.{name_of};
ghost use Rattle.html_wash.specs.Wash.{start, settled_state, step_at_element, step_at_start, wash_part, close_all};
ghost use Rattle.html_wash.specs.Writing.{outside, IsInside, Took};

use crate::Memory;
use crate::element::{Element, element_named, is_dropped};
use crate::open_elements::OpenElements;
use crate::runs::write_run;
use crate::styling::Styling;
use crate::tags::{close, end_tag, start_tag};
use cid_parts::References;
use html_tokens::{Part, Scanner, Span, StartTag};
use page_writer::PageOut;
use std::alloc::Global;
use std::marker::Model;
use wash_attributes::Place;

/// A washer between two tokens, seen as its open elements, the rules that it read, what becomes of characters, and whether it shows
/// remote pictures.
///
/// The page that it writes into has its elements innermost open. It has to be given up after an error.
#[derive(Drop)]
pub struct Washer {
    opened: OpenElements,
    styling: Styling,
    images: bool,
}

impl Model for Washer {
    ghost use Rattle.html_wash.specs.Writing.{WasherState};

    ghost Value = { WasherState };

    ghost view = { λ w. record { state = record { opened = w.opened; styling = w.styling }; images = w.images } };
}

impl Washer {
    /// Returns a washer before the first token of a message. `images` tells whether remote pictures are shown.
    pub fn new(alloc: Global, images: bool) -> Washer
        ensures { result ≡ record { state = start; images = images } }
    {
        Washer {
            opened: OpenElements::new(alloc),
            styling: Styling::new(alloc),
            images,
        }
    }

    /// Writes what the tokens of a span are washed to.
    pub fn take(
        &mut self,
        alloc: Global,
        scanner: &Scanner,
        span: &Span,
        references: &References,
        place: &Place,
        out: &mut PageOut,
    ) -> Result<(), Memory>
        requires span { IsSpan scanner.now.text span.now }
        requires inside { IsInside self.old.state.opened out.old.opened (outside self.old.state.opened out.old.opened) }
        ensures took { OnOk result (Took (wash_part (given_of references.now place.now self.old.images) self.old.state (span_tokens scanner.now.text span.now)) (outside self.old.state.opened out.old.opened) out.old out.new self.new.state) }
        ensures images { OnOk result (self.new.images ≡ self.old.images) }
    {
        match span.part() {
            Part::StartTag => {
                let tag = scanner.start_tag(span);
                self.take_start_tag(alloc, &tag, references, place, out)
            }
            Part::EndTag => {
                self.styling.settle(alloc)?;
                end_tag(&scanner.end_tag(span), &mut self.opened, out)
            }
            Part::Run(_) => {
                if self.styling.drops_text() {
                    return self.styling.take_run(alloc, scanner, span);
                }
                write_run(alloc, scanner, span, out)
            }
            Part::Comment(_, _) => self.styling.settle(alloc),
            Part::Doctype => self.styling.settle(alloc),
        }
    }

    /// Writes what a start tag is washed to.
    fn take_start_tag(
        &mut self,
        alloc: Global,
        tag: &StartTag,
        references: &References,
        place: &Place,
        out: &mut PageOut,
    ) -> Result<(), Memory>
        requires { IsInside self.old.state.opened out.old.opened (outside self.old.state.opened out.old.opened) }
        ensures took { OnOk result (Took (step_at_start (given_of references.now place.now self.old.images) (settled_state self.old.state) tag.now.name tag.now.attributes) (outside self.old.state.opened out.old.opened) out.old out.new self.new.state) }
        ensures images { OnOk result (self.new.images ≡ self.old.images) }
    {
        self.styling.settle(alloc)?;
        let name = tag.name();
        if is_dropped(&name) {
            return self.styling.drop_text(alloc, tag);
        }
        match element_named(&name) {
            None => Ok(()),
            Some(element) => self.take_element(alloc, element, tag, references, place, out),
        }
    }

    /// Writes what the start tag of an element is washed to.
    fn take_element(
        &mut self,
        alloc: Global,
        element: Element,
        tag: &StartTag,
        references: &References,
        place: &Place,
        out: &mut PageOut,
    ) -> Result<(), Memory>
        requires { IsInside self.old.state.opened out.old.opened (outside self.old.state.opened out.old.opened) }
        ensures took { OnOk result (Took (step_at_element (given_of references.now place.now self.old.images) self.old.state (name_of element) tag.now.attributes) (outside self.old.state.opened out.old.opened) out.old out.new self.new.state) }
        ensures images { OnOk result (self.new.images ≡ self.old.images) }
    {
        let declared = self.styling.declared(alloc, element, tag)?;
        start_tag(
            alloc,
            element,
            tag,
            declared.as_str(),
            references,
            place,
            self.images,
            &mut self.opened,
            out,
        )
    }

    /// Closes all elements that are open.
    pub fn close(self, out: &mut PageOut) -> Result<(), Memory>
        requires { IsInside self.state.opened out.old.opened (outside self.state.opened out.old.opened) }
        ensures page { OnOk result (out.new ≡ with_all_tokens out.old (close_all self.state.opened)) }
        ensures opened { OnOk result (out.new.opened ≡ outside self.state.opened out.old.opened) }
    {
        let Washer {
            mut opened,
            styling: _,
            images: _,
        } = self;
        close(opened.len(), &mut opened, out)
    }
}
