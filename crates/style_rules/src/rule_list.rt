//! Rules in the order in which they were read.
use crate::entries::Entry;
use crate::selectors::Selector;

/// Which elements a rule is for, and its declarations.
#[derive(Drop)]
pub struct Rule {
    pub selector: Selector,
    pub entries: Vec<Entry>,
}
