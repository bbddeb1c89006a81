//! The attributes that an element of a message may have, and the kinds of their values.
ghost use Rattle.std.specs.Prelude.{◌≡◌, ◌++◌, true, false, Some, None, List, ℕ, MatchOption, IfSome, map};
ghost use Rattle.std.specs.List.{list_all};
ghost use Rattle.html_tokens.specs.Tags.{is_word_char};
ghost use Rattle.html_syntax.specs.Tokenizer.{same, is_among};
ghost use Rattle.html_rules.specs.Tables.{common_attributes, is_listed_attribute, kind_among, kind_of};
ghost use Rattle.wash_attributes.specs.Listed.{texts_seen, row_seen, kind_row_seen, are_words, attributes_in, FindsName, IsFrequentKind};

use html_rules::ValueKind;
use html_tokens::WrittenName;

/// Elements, and the attributes that they may have beside the common ones.
pub struct AttributeRow {
    pub elements: &'static [&'static str],
    pub attributes: &'static [&'static str],
}

/// A kind of value, and the attributes that have it.
pub struct KindRow {
    pub kind: ValueKind,
    pub attributes: &'static [&'static str],
}

static COMMON: [&str; 4] = ["dir", "lang", "style", "title"];

static ROWS: [AttributeRow; 14] = [
    AttributeRow {
        elements: &["a"],
        attributes: &["href"],
    },
    AttributeRow {
        elements: &["img"],
        attributes: &[
            "src", "alt", "width", "height", "align", "border", "hspace", "vspace",
        ],
    },
    AttributeRow {
        elements: &["table"],
        attributes: &[
            "width",
            "height",
            "border",
            "cellpadding",
            "cellspacing",
            "align",
            "bgcolor",
        ],
    },
    AttributeRow {
        elements: &["td", "th"],
        attributes: &[
            "width", "height", "align", "valign", "bgcolor", "colspan", "rowspan", "nowrap",
        ],
    },
    AttributeRow {
        elements: &["tr"],
        attributes: &["align", "valign", "bgcolor"],
    },
    AttributeRow {
        elements: &["tbody", "thead", "tfoot"],
        attributes: &["align", "valign"],
    },
    AttributeRow {
        elements: &["col", "colgroup"],
        attributes: &["span", "width", "align", "valign"],
    },
    AttributeRow {
        elements: &["caption", "div", "p", "h1", "h2", "h3", "h4", "h5", "h6"],
        attributes: &["align"],
    },
    AttributeRow {
        elements: &["hr"],
        attributes: &["align", "size", "width", "color", "noshade"],
    },
    AttributeRow {
        elements: &["br"],
        attributes: &["clear"],
    },
    AttributeRow {
        elements: &["font"],
        attributes: &["color", "face", "size"],
    },
    AttributeRow {
        elements: &["ol"],
        attributes: &["start", "type"],
    },
    AttributeRow {
        elements: &["ul"],
        attributes: &["type"],
    },
    AttributeRow {
        elements: &["li"],
        attributes: &["type", "value"],
    },
];

static KINDS: [KindRow; 7] = [
    KindRow {
        kind: ValueKind::Number,
        attributes: &[
            "width",
            "height",
            "border",
            "cellpadding",
            "cellspacing",
            "hspace",
            "vspace",
            "size",
            "colspan",
            "rowspan",
            "span",
            "start",
            "value",
        ],
    },
    KindRow {
        kind: ValueKind::Word,
        attributes: &[
            "align", "valign", "bgcolor", "color", "clear", "type", "dir", "lang",
        ],
    },
    KindRow {
        kind: ValueKind::Flag,
        attributes: &["nowrap", "noshade"],
    },
    KindRow {
        kind: ValueKind::Text,
        attributes: &["title", "alt", "face"],
    },
    KindRow {
        kind: ValueKind::Link,
        attributes: &["href"],
    },
    KindRow {
        kind: ValueKind::Source,
        attributes: &["src"],
    },
    KindRow {
        kind: ValueKind::Style,
        attributes: &["style"],
    },
];

/// Whether the name is one of some names.
pub fn is_among(names: &[&str], name: &str) -> bool
    ensures { result ≡ is_among (texts_seen names.now) name.now }
{
    let mut rest = names;
    while let [first, more @ ..] = rest {
        if name == *first {
            return true;
        }
        rest = more;
    }
    false
}

/// The one of some words that a name reads as.
fn word_in(words: &'static [&'static str], name: &WrittenName<'_>) -> Option<&'static str>
    requires { are_words (texts_seen words.now) ≡ true }
    ensures finds { FindsName (texts_seen words.now) name.now result }
    ensures word { IfSome result (λ word. list_all is_word_char word.now ≡ true) }
{
    let mut rest = words;
    while let [word, more @ ..] = rest {
        if name.reads_as(word) {
            return Some(*word);
        }
        rest = more;
    }
    None
}

/// The attributes of the first row that has the element.
fn attributes_in(rows: &'static [AttributeRow], element: &str) -> &'static [&'static str]
    ensures { texts_seen result.now ≡ attributes_in (map row_seen rows.now) element.now }
{
    let mut rest = rows;
    while let [row, more @ ..] = rest {
        if is_among(row.elements, element) {
            return row.attributes;
        }
        rest = more;
    }
    &[]
}

/// The attributes that the element may have beside the common ones.
#[tactic(auto, unfolding(html_rules::specs::Tables::attribute_rows))]
pub fn own_attributes(element: &str) -> &'static [&'static str]
    ensures listed { (name : List ℕ) → is_listed_attribute element.now name ≡ is_among (common_attributes ++ texts_seen result.now) name }
    ensures words { are_words (texts_seen result.now) ≡ true }
{
    attributes_in(&ROWS, element)
}

/// The common attribute that a name reads as.
#[tactic(auto, unfolding(html_rules::specs::Tables::common_attributes))]
fn common_attribute(name: &WrittenName<'_>) -> Option<&'static str>
    ensures finds { FindsName common_attributes name.now result }
    ensures word { IfSome result (λ word. list_all is_word_char word.now ≡ true) }
{
    word_in(&COMMON, name)
}

/// The one of the common attributes and of an element's own ones that a name reads as.
pub fn listed_attribute(
    own: &'static [&'static str],
    name: &WrittenName<'_>,
) -> Option<&'static str>
    requires { are_words (texts_seen own.now) ≡ true }
    ensures finds { FindsName (common_attributes ++ texts_seen own.now) name.now result }
    ensures word { IfSome result (λ word. list_all is_word_char word.now ≡ true) }
{
    match word_in(own, name) {
        Some(word) => Some(word),
        None => common_attribute(name),
    }
}

fn kind_in(rows: &[KindRow], name: &str) -> Option<ValueKind>
    ensures { result ≡ kind_among (map kind_row_seen rows.now) name.now }
{
    let mut rest = rows;
    while let [row, more @ ..] = rest {
        if is_among(row.attributes, name) {
            return Some(row.kind);
        }
        rest = more;
    }
    None
}

/// The kind of the attributes that most messages have. The others are looked up.
fn frequent_kind(name: &str) -> Option<ValueKind>
    ensures { IsFrequentKind name.now result }
{
    if name == "style" {
        return Some(ValueKind::Style);
    }
    if name == "href" {
        return Some(ValueKind::Link);
    }
    if name == "src" {
        return Some(ValueKind::Source);
    }
    None
}

/// The kind of an attribute's values.
#[tactic(auto, unfolding(html_rules::specs::Tables::kind_of, html_rules::specs::Tables::value_kind_rows))]
pub fn kind_of(name: &str) -> Option<ValueKind>
    ensures { result ≡ kind_of name.now }
{
    match frequent_kind(name) {
        Some(kind) => Some(kind),
        None => kind_in(&KINDS, name),
    }
}
