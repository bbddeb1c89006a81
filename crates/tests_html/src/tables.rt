// Texts, and the tokens that html5lib's tokenizer gives of them. `tools/check-tokens --table` writes the tokens.
pub mod contents;
pub mod messages;
pub mod more_prefixes;
pub mod prefixes;
pub mod tags;
pub mod texts;
