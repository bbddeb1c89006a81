//! A scanner of HTML texts. It returns the span of each token, and makes the token of a span on demand.
//!
//! The crate `html_syntax` defines the tokens of a text. Its `Token` and `Attributes` are exported here too.
#![tactic(auto)]

mod attribute_list;
mod comments;
mod cuts;
pub mod laws;
pub mod lexeme;
mod markup;
pub mod mode;
mod name_set;
mod raw;
pub mod scanner;
mod script;
pub mod span;
pub mod start_tag;
mod step;
mod tags;
mod text;
pub mod whole;
pub mod written;

pub use html_syntax::{Attributes, Memory, Token};
pub use laws::runs_are_separate;
pub use lexeme::Lexeme;
pub use scanner::Scanner;
pub use span::{Part, Span};
pub use start_tag::{AttributeReader, StartTag};
pub use whole::read_tokens;
pub use written::{WrittenAttribute, WrittenName};
