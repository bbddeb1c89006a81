//! Tags of commands, and their texts.
ghost use Rattle.std.specs.Prelude.{◌≡◌, ◌&&◌, ◌==◌};
ghost use Rattle.imap_commands.specs.Pieces.{is_plain, is_quotable};
ghost use Rattle.std.specs.List.{list_all};
ghost use Rattle.mail_values.specs.Ascii.{is_digit};
ghost use Rattle.mailbox_view.specs.View.{is_tag, is_numeral, numeral_value};

/// Whether a tag is that of the command with a number.
pub fn is_tag(tag: &[u8], number: u32) -> bool
    ensures { result ≡ is_tag tag.now number }
{
    match tag {
        [b'A', digits @ ..] => is_numeral_of(digits, number),
        _ => false,
    }
}

/// Whether some bytes are the numeral of a number, without leading zeros.
fn is_numeral_of(digits: &[u8], number: u32) -> bool
    ensures { result ≡ (is_numeral digits.now && numeral_value digits.now == number) }
{
    match digits {
        [] | [b'0', ..] => false,
        _ => has_value(digits, number),
    }
}

/// Whether some bytes are digits of a number, which may have leading zeros.
#[tactic(auto, using(crate::proofs::TagLemmas::too_great))]
fn has_value(digits: &[u8], number: u32) -> bool
    ensures { result ≡ (list_all is_digit digits.now && numeral_value digits.now == number) }
{
    let mut value: u64 = 0;
    let mut rest = digits;
    while let [digit, more @ ..] = rest {
        if !digit.is_ascii_digit() {
            return false;
        }
        value = 10 * value + u64::from(*digit - b'0');
        if u64::from(number) < value {
            return false;
        }
        rest = more;
    }
    value == u64::from(number)
}

/// Whether a text is said within quotation marks. Another is a literal.
pub fn is_quotable(text: &[u8]) -> bool
    ensures { result ≡ is_quotable text.now }
{
    text.len() <= 1000 && is_plain(text)
}

fn is_plain(text: &[u8]) -> bool
    ensures { result ≡ list_all is_plain text.now }
{
    text.iter().all(|b| *b >= 32 && *b <= 126)
}
