//! What tags close: the lookups of start tags, and what end tags look past.
ghost use Rattle.std.specs.Prelude.{◌≡◌, map};
ghost use Rattle.html_syntax.specs.Tokenizer.{is_among};
ghost use Rattle.html_wash.specs.Elements.{name_of};
ghost use Rattle.html_wash.specs.Closings.{lookups_of, paragraph_lookup, table_parts, blocks as blocks_name};
ghost use Rattle.html_wash.specs.Seen.{lookup_of};

use crate::element::Element;

/// A lookup of a start tag, by the first element that it is for.
#[derive(Clone, Copy)]
pub enum LookupKind {
    Paragraph,
    Item,
    Definition,
    Link,
    Cell,
    Row,
    RowGroup,
}

impl LookupKind {
    /// The elements that the lookup closes.
    #[tactic(auto, unfolding(crate::specs::Closings::lookups_of, crate::specs::Closings::closing_rows))]
    pub fn closed(self) -> &'static [Element]
        ensures { map name_of result.now ≡ (lookup_of self).closes }
    {
        match self {
            LookupKind::Paragraph => &[Element::P],
            LookupKind::Item => &[Element::Li],
            LookupKind::Definition => &[Element::Dt, Element::Dd],
            LookupKind::Link => &[Element::A],
            LookupKind::Cell => &[
                Element::Td,
                Element::Th,
                Element::Caption,
                Element::Colgroup,
            ],
            LookupKind::Row => &[Element::Tr, Element::Caption, Element::Colgroup],
            LookupKind::RowGroup => &[
                Element::Tbody,
                Element::Thead,
                Element::Tfoot,
                Element::Tr,
                Element::Caption,
                Element::Colgroup,
            ],
        }
    }

    /// Whether the lookup closes the element.
    #[tactic(auto, unfolding(crate::specs::Closings::lookups_of, crate::specs::Closings::closing_rows))]
    pub fn closes(self, element: Element) -> bool
        ensures { result ≡ is_among (lookup_of self).closes (name_of element) }
    {
        match self {
            LookupKind::Paragraph => matches!(element, Element::P),
            LookupKind::Item => matches!(element, Element::Li),
            LookupKind::Definition => matches!(element, Element::Dt | Element::Dd),
            LookupKind::Link => matches!(element, Element::A),
            LookupKind::Cell => matches!(
                element,
                Element::Td | Element::Th | Element::Caption | Element::Colgroup
            ),
            LookupKind::Row => {
                matches!(element, Element::Tr | Element::Caption | Element::Colgroup)
            }
            LookupKind::RowGroup => matches!(
                element,
                Element::Tbody
                    | Element::Thead
                    | Element::Tfoot
                    | Element::Tr
                    | Element::Caption
                    | Element::Colgroup
            ),
        }
    }

    /// Whether the lookup doesn't look past the element.
    #[tactic(auto, unfolding(crate::specs::Closings::lookups_of, crate::specs::Closings::closing_rows))]
    pub fn stops(self, element: Element) -> bool
        ensures { result ≡ is_among (lookup_of self).stops (name_of element) }
    {
        match self {
            LookupKind::Paragraph | LookupKind::Link => is_cell_border(element),
            LookupKind::Item => {
                is_cell_border(element)
                    || matches!(element, Element::Ul | Element::Ol | Element::Blockquote)
            }
            LookupKind::Definition => {
                is_cell_border(element) || matches!(element, Element::Dl | Element::Blockquote)
            }
            LookupKind::Cell => matches!(element, Element::Table | Element::Tr),
            LookupKind::Row | LookupKind::RowGroup => matches!(element, Element::Table),
        }
    }
}

/// Whether the element is a table, or what a table has text in.
fn is_cell_border(element: Element) -> bool
    ensures { result ≡ is_among paragraph_lookup.stops (name_of element) }
{
    matches!(
        element,
        Element::Table | Element::Caption | Element::Td | Element::Th
    )
}

/// Returns the lookups of a start tag, in order.
#[tactic(auto, unfolding(crate::specs::Closings::lookups_of, crate::specs::Closings::closing_rows))]
pub fn lookups(element: Element) -> &'static [LookupKind]
    ensures { map lookup_of result.now ≡ lookups_of (name_of element) }
{
    match element {
        Element::Address
        | Element::Blockquote
        | Element::Center
        | Element::Div
        | Element::Dl
        | Element::H1
        | Element::H2
        | Element::H3
        | Element::H4
        | Element::H5
        | Element::H6
        | Element::Hr
        | Element::Ol
        | Element::P
        | Element::Pre
        | Element::Table
        | Element::Ul => &[LookupKind::Paragraph],
        Element::Li => &[LookupKind::Item, LookupKind::Paragraph],
        Element::Dt | Element::Dd => &[LookupKind::Definition, LookupKind::Paragraph],
        Element::A => &[LookupKind::Link],
        Element::Td | Element::Th => &[LookupKind::Cell],
        Element::Tr => &[LookupKind::Row],
        Element::Tbody | Element::Thead | Element::Tfoot => &[LookupKind::RowGroup],
        _ => &[],
    }
}

/// Whether an end tag of the name looks past a caption and cells: one of a table's parts.
fn is_table_part(element: Element) -> bool
    ensures { result ≡ is_among table_parts (name_of element) }
{
    matches!(
        element,
        Element::Caption
            | Element::Colgroup
            | Element::Table
            | Element::Tbody
            | Element::Td
            | Element::Tfoot
            | Element::Th
            | Element::Thead
            | Element::Tr
    )
}

/// Whether an end tag of `ended` doesn't look past the element.
#[tactic(auto, unfolding(crate::specs::Closings::blocks))]
pub fn blocks(ended: Element, element: Element) -> bool
    ensures { result ≡ blocks_name (name_of ended) (name_of element) }
{
    match element {
        Element::Table => true,
        Element::Caption | Element::Td | Element::Th => !is_table_part(ended),
        _ => false,
    }
}
