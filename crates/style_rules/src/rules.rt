//! The rules of a message's style blocks.
ghost use Rattle.std.specs.Prelude.{◌≡◌, ◌<◌, ◌≤◌, ◌↔◌, ◌||◌, [], false, true, nat_le, IfOk, IsTrue, OnOk, length, map, string_bytes};
ghost use Rattle.std.specs.List.{after_last, filter_map, list_any, slice_split};
ghost use Rattle.style_wash.specs.Characters.{is_comma};
ghost use Rattle.style_wash.specs.Declarations.{declarations, stylewash};
ghost use Rattle.style_rules.specs.Blocks.{is_left_brace};
ghost use Rattle.style_rules.specs.Rules.{entry_of, is_at_rule as is_at_rule_text, is_rule_style as is_rule_style_text, is_semicolon, last_statement as last_statement_of, option_list, rule_with, rules as rules_of, rules_limit, rules_of_block, with_rules};
ghost use Rattle.style_rules.specs.Cascade.{declared as declared_style};
ghost use Rattle.style_rules.specs.Seen.{block_seen};

use crate::blocks::{Block, find_byte, first_block};
use crate::cascade::declared;
use crate::comments::space_comments;
use crate::entries::read_entries;
use crate::rule_list::Rule;
use crate::selectors::read_selector;
use std::alloc::{AllocError as Memory, Global};
use std::marker::Model;
use style_wash::wash_style;

/// The most rules of a message.
const RULES_LIMIT: usize = 200;

/// The most bytes that the washed style of a rule may have.
const STYLE_LIMIT: usize = 512;

/// The rules of a message's style blocks, in order.
#[derive(Drop)]
pub struct Rules {
    rules: Vec<Rule>,
}

impl Model for Rules {
    ghost use Rattle.std.specs.Prelude.{List, map};
    ghost use Rattle.style_rules.specs.Rules.{Rule as RuleValue};
    ghost use Rattle.style_rules.specs.Seen.{rule_seen};

    ghost Value = { List RuleValue };

    ghost view = { λ r. map rule_seen r.rules.items };
}

impl Rules {
    /// Returns no rules.
    pub fn new(alloc: Global) -> Rules
        ensures { result ≡ [] }
    {
        Rules {
            rules: Vec::new(alloc),
        }
    }

    /// Whether there are no rules.
    pub fn is_empty(&self) -> bool
        ensures { IsTrue result ↔ (self.now ≡ []) }
    {
        self.rules.is_empty()
    }

    /// Whether there are as many rules as a message may have.
    fn is_full(&self) -> bool
        ensures full { result ≡ true → rules_limit ≤ length self.now }
        ensures room { result ≡ false → length self.now < rules_limit }
    {
        self.rules.len() >= RULES_LIMIT
    }

    /// Adds the rule of a selector, if the text is one.
    fn add_rule(&mut self, alloc: Global, text: &[u8], style: &str) -> Result<(), Memory>
        requires washed { stylewash style.now ≡ style.now }
        requires some { 0 < length style.now }
        ensures { OnOk result (self.new ≡ with_rules self.old (option_list (rule_with (map entry_of (declarations style.now)) text.now))) }
    {
        if self.is_full() {
            return Ok(());
        }
        match read_selector(alloc, text)? {
            None => Ok(()),
            Some(selector) => {
                let entries = read_entries(alloc, style)?;
                self.rules.push(Rule { selector, entries })?;
                Ok(())
            }
        }
    }

    /// Adds the rules of selectors between commas.
    fn add_rules(&mut self, alloc: Global, prelude: &[u8], style: &str) -> Result<(), Memory>
        requires washed { stylewash style.now ≡ style.now }
        requires some { 0 < length style.now }
        ensures { OnOk result (self.new ≡ with_rules self.old (filter_map (rule_with (map entry_of (declarations style.now))) (slice_split is_comma prelude.now))) }
    {
        let mut rest = prelude;
        'selectors: loop {
            let size = find_byte(b',', rest);
            self.add_rule(alloc, &rest[..size], style)?;
            if size == rest.len() {
                return Ok(());
            }
            rest = &rest[size + 1..];
        }
    }

    /// Adds the rules of a block. Its body is washed once.
    fn read_block(&mut self, alloc: Global, block: Block<'_>) -> Result<(), Memory>
        ensures { OnOk result (self.new ≡ with_rules self.old (rules_of_block (block_seen block.entry))) }
    {
        if self.is_full() {
            return Ok(());
        }
        if has_no_rules(&block) {
            return Ok(());
        }
        let style = wash_style(alloc, block.body)?;
        if !is_rule_style(style.as_str()) {
            return Ok(());
        }
        self.add_rules(alloc, selectors(&block), style.as_str())
    }

    /// Adds the rules of a style block, as long as there are not too many.
    pub fn read(&mut self, alloc: Global, text: &str) -> Result<(), Memory>
        ensures { OnOk result (self.new ≡ with_rules self.old (rules_of text.now)) }
    {
        let spaced = space_comments(alloc, text)?;
        let mut rest = spaced.as_str();
        while let Some((block, after)) = first_block(rest) {
            self.read_block(alloc, block)?;
            rest = after;
        }
        Ok(())
    }

    /// Returns what the rules declare for an element: declarations with `; ` between each two. It is empty if they declare nothing, or
    /// more than 1,024 bytes. `name` is in lower case; `classes` is the value of its `class`.
    pub fn declared(&self, alloc: Global, name: &str, classes: &str) -> Result<String, Memory>
        ensures { IfOk result (λ style. string_bytes style ≡ declared_style self.now name.now classes.now) }
    {
        declared(alloc, &self.rules, name, classes)
    }
}

/// The selectors of a block: what counts of its prelude.
fn selectors<'a>(block: &Block<'a>) -> &'a [u8]
    ensures { result.now ≡ last_statement_of (block_seen block.now).prelude }
{
    last_statement(block.prelude.as_bytes())
}

/// Whether a block gives no rules, whatever it declares.
fn has_no_rules(block: &Block<'_>) -> bool
    ensures { result ≡ (is_at_rule_text (last_statement_of (block_seen block.now).prelude) || list_any is_left_brace (block_seen block.now).body) }
{
    is_at_rule(selectors(block)) || has_left_brace(block.body.as_bytes())
}

/// What counts of a prelude: the text after its last `;`.
fn last_statement(prelude: &[u8]) -> &[u8]
    ensures { result.now ≡ after_last is_semicolon prelude.now }
{
    let mut start = prelude.len();
    while start > 0 && prelude[start - 1] != b';' {
        start -= 1;
    }
    &prelude[start..]
}

/// Whether a text begins with `@` after white space.
#[tactic(auto, unfolding(crate::specs::Rules::is_at_rule))]
fn is_at_rule(text: &[u8]) -> bool
    ensures { result ≡ is_at_rule_text text.now }
{
    text.trim_ascii_start().starts_with(b"@")
}

fn has_left_brace(text: &[u8]) -> bool
    ensures { result ≡ list_any is_left_brace text.now }
{
    text.iter().any(|c| *c == b'{')
}

/// Whether a rule may have a washed style.
fn is_rule_style(style: &str) -> bool
    ensures { result ≡ is_rule_style_text style.now }
{
    1 <= style.len() && style.len() <= STYLE_LIMIT
}
