//! Tests of the pages and the runs, by their public calls alone. Each file has the tests of one subject.
#![tactic(auto)]

#[cfg(test)]
mod flowed;
#[cfg(test)]
mod html;
#[cfg(test)]
mod mails;
#[cfg(test)]
mod session;
#[cfg(test)]
mod show;
