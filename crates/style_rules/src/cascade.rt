//! What rules declare for an element.
ghost use Rattle.std.specs.Prelude.{◌≡◌, [], IfOk, OnOk, map, string_bytes};
ghost use Rattle.style_rules.specs.Cascade.{declared as declared_style, entries_of, has_class, has_property as has_property_in, joined};
ghost use Rattle.style_rules.specs.Seen.{entries_seen, entry_seen, rule_seen, selector_seen};
ghost use Rattle.style_rules.specs.Steps.{AddsClass, AddsKnown, AddsWord, AreKnown, AreRight, HasClasses, HasKnownClasses, before_later, found, has_of, has_word, is_in_group};

use crate::blocks::find_white;
use crate::entries::Entry;
use crate::rule_list::Rule;
use crate::selectors::Selector;
use std::alloc::{AllocError as Memory, Global};
use std::collections::BTreeMap;

/// Which rules come together: those by name, by class, or by both.
#[derive(Clone, Copy)]
pub enum Group {
    Name,
    Class,
    Both,
}

/// The classes of an element. A map in order, since whoever writes a message could make a hash table slow.
type Words<'c> = BTreeMap<&'c [u8], bool>;

/// The classes of an element: the text of a short `class` itself, or a map of its words.
#[derive(Drop)]
pub enum Classes<'c> {
    Text(&'c [u8]),
    Words(Words<'c>),
}

/// The most bytes that rules may declare.
const DECLARED_LIMIT: usize = 1024;

/// Returns what rules declare for an element of a name, and of the classes in a text.
pub fn declared(alloc: Global, rules: &[Rule], name: &str, classes: &str) -> Result<String, Memory>
    ensures { IfOk result (λ style. string_bytes style ≡ declared_style (map rule_seen rules.now) name.now classes.now) }
{
    let classes = classes_of(alloc, rules, classes.as_bytes())?;
    let mut last = Vec::new(alloc);
    add_group(rules, Group::Both, name, &classes, &mut last)?;
    add_group(rules, Group::Class, name, &classes, &mut last)?;
    add_group(rules, Group::Name, name, &classes, &mut last)?;
    let style = join(alloc, &last)?;
    if style.len() > DECLARED_LIMIT {
        return Ok(String::new(alloc));
    }
    Ok(style)
}

/// The length in bytes of a `class` that is searched for each rule, which is faster than making a map of its words.
const SEARCHED_CLASSES: usize = 16;

/// The length in bytes of a `class` of which all words are kept. Of a longer one only those are kept that are classes of rules.
const SHORT_CLASSES: usize = 4096;

/// Returns the classes of an element, or those that rules name.
fn classes_of<'c>(alloc: Global, rules: &[Rule], classes: &'c [u8]) -> Result<Classes<'c>, Memory>
    ensures { IfOk result (λ found. AreRight found classes.now (map rule_seen rules.now)) }
{
    if classes.len() <= SEARCHED_CLASSES {
        return Ok(Classes::Text(classes));
    }
    if classes.len() <= SHORT_CLASSES {
        return Ok(Classes::Words(all_words(alloc, classes)?));
    }
    let known = rule_classes(alloc, rules)?;
    Ok(Classes::Words(known_words(alloc, &known, classes)?))
}

/// Returns the classes that rules name.
fn rule_classes(alloc: Global, rules: &[Rule]) -> Result<Words<'_>, Memory>
    ensures { IfOk result (λ known. AreKnown known (map rule_seen rules.now)) }
{
    let mut known = BTreeMap::new(alloc);
    for rule in rules {
        add_class(&mut known, &rule.selector)?;
    }
    Ok(known)
}

fn add_class<'r>(known: &mut Words<'r>, selector: &'r Selector) -> Result<(), Memory>
    ensures { OnOk result (AddsClass known.old (selector_seen selector.now) known.new) }
{
    match selector {
        Selector::ByName(_) => Ok(()),
        Selector::ByClass(class) => add_word(known, class),
        Selector::ByBoth(_, class) => add_word(known, class),
    }
}

/// Returns those words of a text, between white space, that are known.
fn known_words<'c>(alloc: Global, known: &Words<'_>, classes: &'c [u8]) -> Result<Words<'c>, Memory>
    ensures { IfOk result (λ words. HasKnownClasses known.now words classes.now) }
{
    let mut words = BTreeMap::new(alloc);
    let mut rest = classes;
    'words: loop {
        let size = find_white(rest);
        add_known(known, &rest[..size], &mut words)?;
        if size == rest.len() {
            return Ok(words);
        }
        rest = &rest[size + 1..];
    }
}

fn add_known<'c>(known: &Words<'_>, word: &'c [u8], words: &mut Words<'c>) -> Result<(), Memory>
    ensures { OnOk result (AddsKnown known.now words.old word.now words.new) }
{
    if has_word_of(known, word) {
        add_word(words, word)
    } else {
        Ok(())
    }
}

/// Returns the words of a text, between white space.
fn all_words(alloc: Global, classes: &[u8]) -> Result<Words<'_>, Memory>
    ensures { IfOk result (λ words. HasClasses words classes.now) }
{
    let mut words = BTreeMap::new(alloc);
    let mut rest = classes;
    'words: loop {
        let size = find_white(rest);
        add_word(&mut words, &rest[..size])?;
        if size == rest.len() {
            return Ok(words);
        }
        rest = &rest[size + 1..];
    }
}

fn add_word<'c>(words: &mut Words<'c>, word: &'c [u8]) -> Result<(), Memory>
    ensures { OnOk result (AddsWord words.old word.now words.new) }
{
    match words.insert(word, true) {
        Ok(_) => Ok(()),
        Err(_) => Err(Memory),
    }
}

fn has_word_of(words: &Words<'_>, word: &[u8]) -> bool
    ensures { result ≡ has_word words.now word.now }
{
    words.contains_key(word)
}

/// Whether a class is one of those in a text, between white space.
fn has_class(classes: &[u8], class: &[u8]) -> bool
    ensures { result ≡ has_class classes.now class.now }
{
    let mut rest = classes;
    'words: loop {
        let size = find_white(rest);
        let here = &rest[..size] == class;
        if size == rest.len() {
            return here;
        }
        if here {
            return true;
        }
        rest = &rest[size + 1..];
    }
}

/// Whether an element has a class.
fn has_class_of(classes: &Classes<'_>, class: &[u8]) -> bool
    ensures { result ≡ has_of classes.now class.now }
{
    match classes {
        Classes::Text(text) => has_class(text, class),
        Classes::Words(words) => has_word_of(words, class),
    }
}

/// Whether a rule of the group is for an element.
fn is_for(selector: &Selector, group: Group, name: &str, classes: &Classes<'_>) -> bool
    ensures { result ≡ is_in_group group name.now (has_of classes.now) (selector_seen selector.now) }
{
    match (group, selector) {
        (Group::Name, Selector::ByName(own)) => own.as_bytes() == name.as_bytes(),
        (Group::Class, Selector::ByClass(class)) => has_class_of(classes, class),
        (Group::Both, Selector::ByBoth(own, class)) => {
            own.as_bytes() == name.as_bytes() && has_class_of(classes, class)
        }
        _ => false,
    }
}

/// Adds the declarations of the rules of a group, from the last one back.
fn add_group<'r>(
    rules: &'r [Rule],
    group: Group,
    name: &str,
    classes: &Classes<'_>,
    last: &mut Vec<&'r Entry>,
) -> Result<(), Memory>
    ensures { OnOk result (found last.new.items ≡ before_later (entries_of (is_in_group group name.now (has_of classes.now)) (map rule_seen rules.now)) (found last.old.items)) }
{
    let mut at = rules.len();
    while at > 0 {
        at -= 1;
        let rule = &rules[at];
        if is_for(&rule.selector, group, name, classes) {
            add_entries(&rule.entries, last)?;
        }
    }
    Ok(())
}

/// Adds those declarations whose property was not added before, from the last one back.
fn add_entries<'r>(entries: &'r [Entry], last: &mut Vec<&'r Entry>) -> Result<(), Memory>
    ensures { OnOk result (found last.new.items ≡ before_later (entries_seen entries.now) (found last.old.items)) }
{
    let mut at = entries.len();
    while at > 0 {
        at -= 1;
        let entry = &entries[at];
        if !has_property(last, &entry.property) {
            last.push(entry)?;
        }
    }
    Ok(())
}

fn has_property(last: &[&Entry], property: &[u8]) -> bool
    ensures { result ≡ has_property_in property.now (found last.now) }
{
    let mut rest = last;
    while let [entry, more @ ..] = rest {
        if entry.property.as_slice() == property {
            return true;
        }
        rest = more;
    }
    false
}

/// Joins declarations that were found from the last one back.
fn join(alloc: Global, last: &[&Entry]) -> Result<String, Memory>
    ensures { IfOk result (λ style. string_bytes style ≡ joined (found last.now)) }
{
    let mut style = String::new(alloc);
    let mut at = last.len();
    while at > 0 {
        at -= 1;
        if at + 1 < last.len() {
            style.push_str("; ")?;
        }
        style.push_str(last[at].text.as_str())?;
    }
    Ok(style)
}
