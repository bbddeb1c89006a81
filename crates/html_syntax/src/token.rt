//! The token type of the code.
use crate::Attributes;
use mail_values::Text;
use std::fmt;

/// A token of an HTML text. `Chars` is one character token for each of its characters.
///
/// Names of tags and of attributes have their ASCII letters lowered, and the attributes of a start tag have distinct names.
#[derive(Drop)]
pub enum Token {
    Start { name: Text, attributes: Attributes },
    End { name: Text },
    Chars(Text),
    Comment(Text),
    Doctype,
}

/// Writes the kind of the token and its texts in quotes, escaped as by `{:?}`: `Start "a" "href"="x"`.
impl fmt::Display for Token {
    fn fmt<W: fmt::Write>(&self, f: &mut fmt::Formatter<W>) -> fmt::Result {
        match self {
            Token::Start { name, attributes } => {
                write!(f, "Start {:?}{attributes}", name.as_str())
            }
            Token::End { name } => write!(f, "End {:?}", name.as_str()),
            Token::Chars(text) => write!(f, "Chars {:?}", text.as_str()),
            Token::Comment(text) => write!(f, "Comment {:?}", text.as_str()),
            Token::Doctype => write!(f, "Doctype"),
        }
    }
}
