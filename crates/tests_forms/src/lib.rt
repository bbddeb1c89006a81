//! Tests of dates, of drafts made from messages, and of pages with forms.
#![tactic(auto)]

#[cfg(test)]
mod dates;
#[cfg(test)]
mod drafts;
#[cfg(test)]
mod pages;
