//! The elements that a message may have.
ghost use Rattle.std.specs.Prelude.{◌<◌, ◌≡◌, false, MatchOption, map};
ghost use Rattle.html_syntax.specs.Tokenizer.{same, is_among};
ghost use Rattle.html_tokens.specs.Tags.{initial as initial_of};
ghost use Rattle.html_rules.specs.Tables.{Name, is_void as is_void_name, is_message_element, is_dropped_element};
ghost use Rattle.html_wash.specs.Elements.{name_of, number_of};

use html_tokens::WrittenName;

/// An element that a message may have.
#[derive(Clone, Copy)]
pub enum Element {
    A,
    Abbr,
    Address,
    B,
    Bdo,
    Big,
    Blockquote,
    Br,
    Caption,
    Center,
    Cite,
    Code,
    Col,
    Colgroup,
    Dd,
    Del,
    Dfn,
    Div,
    Dl,
    Dt,
    Em,
    Font,
    H1,
    H2,
    H3,
    H4,
    H5,
    H6,
    Hr,
    I,
    Img,
    Ins,
    Kbd,
    Li,
    Ol,
    P,
    Pre,
    Q,
    S,
    Samp,
    Small,
    Span,
    Strike,
    Strong,
    Sub,
    Sup,
    Table,
    Tbody,
    Td,
    Tfoot,
    Th,
    Thead,
    Tr,
    Tt,
    U,
    Ul,
    Var,
    Wbr,
}

impl Element {
    /// Returns the element's name.
    pub fn name(self) -> &'static str
        ensures { result.now ≡ name_of self }
    {
        match self {
            Element::A => "a",
            Element::Abbr => "abbr",
            Element::Address => "address",
            Element::B => "b",
            Element::Bdo => "bdo",
            Element::Big => "big",
            Element::Blockquote => "blockquote",
            Element::Br => "br",
            Element::Caption => "caption",
            Element::Center => "center",
            Element::Cite => "cite",
            Element::Code => "code",
            Element::Col => "col",
            Element::Colgroup => "colgroup",
            Element::Dd => "dd",
            Element::Del => "del",
            Element::Dfn => "dfn",
            Element::Div => "div",
            Element::Dl => "dl",
            Element::Dt => "dt",
            Element::Em => "em",
            Element::Font => "font",
            Element::H1 => "h1",
            Element::H2 => "h2",
            Element::H3 => "h3",
            Element::H4 => "h4",
            Element::H5 => "h5",
            Element::H6 => "h6",
            Element::Hr => "hr",
            Element::I => "i",
            Element::Img => "img",
            Element::Ins => "ins",
            Element::Kbd => "kbd",
            Element::Li => "li",
            Element::Ol => "ol",
            Element::P => "p",
            Element::Pre => "pre",
            Element::Q => "q",
            Element::S => "s",
            Element::Samp => "samp",
            Element::Small => "small",
            Element::Span => "span",
            Element::Strike => "strike",
            Element::Strong => "strong",
            Element::Sub => "sub",
            Element::Sup => "sup",
            Element::Table => "table",
            Element::Tbody => "tbody",
            Element::Td => "td",
            Element::Tfoot => "tfoot",
            Element::Th => "th",
            Element::Thead => "thead",
            Element::Tr => "tr",
            Element::Tt => "tt",
            Element::U => "u",
            Element::Ul => "ul",
            Element::Var => "var",
            Element::Wbr => "wbr",
        }
    }

    /// Whether the element is void.
    #[tactic(auto, unfolding(html_rules::specs::Tables::is_void, html_rules::specs::Tables::message_void_elements, html_rules::specs::Tables::frame_void_elements))]
    pub fn is_void(self) -> bool
        ensures { result ≡ is_void_name (name_of self) }
    {
        matches!(
            self,
            Element::Br | Element::Col | Element::Hr | Element::Img | Element::Wbr
        )
    }

    /// The place of the element in the table of elements, from 0.
    #[tactic(auto, using(crate::proofs::Elements::number_is_tag, crate::proofs::Elements::number_below))]
    pub fn number(self) -> usize
        ensures number { result ≡ number_of self }
        ensures bound { result < 58 }
    {
        self as usize
    }

    /// Whether the other element is the same.
    pub fn is(self, other: Element) -> bool
        ensures { result ≡ same (name_of self) (name_of other) }
    {
        self as u8 == other as u8
    }
}

static ELEMENTS: [Element; 58] = [
    Element::A,
    Element::Abbr,
    Element::Address,
    Element::B,
    Element::Bdo,
    Element::Big,
    Element::Blockquote,
    Element::Br,
    Element::Caption,
    Element::Center,
    Element::Cite,
    Element::Code,
    Element::Col,
    Element::Colgroup,
    Element::Dd,
    Element::Del,
    Element::Dfn,
    Element::Div,
    Element::Dl,
    Element::Dt,
    Element::Em,
    Element::Font,
    Element::H1,
    Element::H2,
    Element::H3,
    Element::H4,
    Element::H5,
    Element::H6,
    Element::Hr,
    Element::I,
    Element::Img,
    Element::Ins,
    Element::Kbd,
    Element::Li,
    Element::Ol,
    Element::P,
    Element::Pre,
    Element::Q,
    Element::S,
    Element::Samp,
    Element::Small,
    Element::Span,
    Element::Strike,
    Element::Strong,
    Element::Sub,
    Element::Sup,
    Element::Table,
    Element::Tbody,
    Element::Td,
    Element::Tfoot,
    Element::Th,
    Element::Thead,
    Element::Tr,
    Element::Tt,
    Element::U,
    Element::Ul,
    Element::Var,
    Element::Wbr,
];

/// The one of these elements that has the name.
fn named_in(elements: &[Element], name: &WrittenName) -> Option<Element>
    ensures { MatchOption result (is_among (map name_of elements.now) name.now ≡ false) (λ e. name_of e ≡ name.now) }
{
    for element in elements {
        if name.reads_as(element.name()) {
            return Some(*element);
        }
    }
    None
}

/// The elements whose names begin with the letter, or all elements. Those that messages have most often come first.
fn elements_with(initial: u8) -> &'static [Element]
    ensures { (name : Name) → initial_of name ≡ initial → is_among (map name_of result.now) name ≡ is_message_element name }
{
    match initial {
        b'a' => &[Element::A, Element::Abbr, Element::Address],
        b'b' => &[
            Element::Br,
            Element::B,
            Element::Blockquote,
            Element::Bdo,
            Element::Big,
        ],
        b'c' => &[
            Element::Center,
            Element::Col,
            Element::Caption,
            Element::Colgroup,
            Element::Cite,
            Element::Code,
        ],
        b'd' => &[
            Element::Div,
            Element::Dd,
            Element::Dt,
            Element::Dl,
            Element::Del,
            Element::Dfn,
        ],
        b'f' => &[Element::Font],
        b'h' => &[
            Element::H1,
            Element::H2,
            Element::H3,
            Element::Hr,
            Element::H4,
            Element::H5,
            Element::H6,
        ],
        b'i' => &[Element::Img, Element::I, Element::Ins],
        b'l' => &[Element::Li],
        b'p' => &[Element::P, Element::Pre],
        b's' => &[
            Element::Span,
            Element::Strong,
            Element::Small,
            Element::S,
            Element::Strike,
            Element::Sub,
            Element::Sup,
            Element::Samp,
        ],
        b't' => &[
            Element::Td,
            Element::Tr,
            Element::Table,
            Element::Tbody,
            Element::Th,
            Element::Thead,
            Element::Tfoot,
            Element::Tt,
        ],
        b'u' => &[Element::Ul, Element::U],
        _ => &ELEMENTS,
    }
}

/// Returns the element of this name, if a message may have it.
pub fn element_named(name: &WrittenName) -> Option<Element>
    ensures { MatchOption result (is_message_element name.now ≡ false) (λ e. name_of e ≡ name.now) }
{
    named_in(elements_with(name.initial()), name)
}

/// Whether an element of this name is dropped with its text.
#[tactic(auto, unfolding(html_rules::specs::Tables::is_dropped_element, html_rules::specs::Tables::dropped_elements))]
pub fn is_dropped(name: &WrittenName) -> bool
    ensures { result ≡ is_dropped_element name.now }
{
    name.reads_as("script")
        || name.reads_as("style")
        || name.reads_as("title")
        || name.reads_as("iframe")
        || name.reads_as("noembed")
        || name.reads_as("noframes")
}
