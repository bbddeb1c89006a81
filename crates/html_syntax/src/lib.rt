//! The tokens of an HTML text: the definition of the HTML Standard's tokenization chapter (13.2.5), and the types that hold them.
//!
//! The definition is in `specs/`: `Token` and `Tokenizer` first, then `States` and `Rows`, `References` and `Names`. It is made to
//! be read beside the Standard; `docs/TOKENIZER.md` of the repository leads through it.
#![tactic(auto)]

pub mod attributes;
pub mod laws;
pub mod token;

pub use attributes::Attributes;
pub use laws::three_looks_suffice;
pub use std::alloc::AllocError as Memory;
pub use token::Token;
