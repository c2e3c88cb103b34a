ghost use Rattle.std.specs.Prelude.{◌≡◌, true};
ghost use Rattle.std.specs.Char.{is_ascii_digit};
ghost use Rattle.dns_names.specs.TextReading.{token_at, escape_at, decimal_at};

use crate::NameRefusal;
use crate::part::decimal_byte;

/// What a text begins with: its end, a dot, a label's byte that so many bytes spell, or what is refused.
pub(crate) enum Token {
    End,
    Dot,
    Byte { byte: u8, count: usize },
    Stop { reason: NameRefusal },
}

/// What a text begins with.
pub(crate) fn token_at(text: &[u8]) -> Token
    ensures { result ≡ token_at text.now }
{
    let [first, rest @ ..] = text else {
        return Token::End;
    };
    if *first == b'.' {
        Token::Dot
    } else if *first == b'\\' {
        escape_at(rest)
    } else if first.is_ascii_graphic() {
        Token::Byte {
            byte: *first,
            count: 1,
        }
    } else {
        Token::Stop {
            reason: NameRefusal::BadByte,
        }
    }
}

// What stands behind a backslash.
fn escape_at(text: &[u8]) -> Token
    ensures { result ≡ escape_at text.now }
{
    let [first, rest @ ..] = text else {
        return Token::Stop {
            reason: NameRefusal::BadEscape,
        };
    };
    if first.is_ascii_digit() {
        decimal_at(*first, rest)
    } else if first.is_ascii_graphic() {
        Token::Byte {
            byte: *first,
            count: 2,
        }
    } else {
        Token::Stop {
            reason: NameRefusal::BadEscape,
        }
    }
}

// What stands behind a backslash and a digit.
fn decimal_at(hundreds: u8, text: &[u8]) -> Token
    requires { is_ascii_digit hundreds ≡ true }
    ensures { result ≡ decimal_at hundreds text.now }
{
    match text {
        [tens, ones, ..] => match decimal_byte(hundreds, *tens, *ones) {
            Some(byte) => Token::Byte { byte, count: 4 },
            None => Token::Stop {
                reason: NameRefusal::BadEscape,
            },
        },
        _ => Token::Stop {
            reason: NameRefusal::BadEscape,
        },
    }
}
