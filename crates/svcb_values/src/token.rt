ghost use Rattle.std.specs.Prelude.{◌≡◌, true};
ghost use Rattle.std.specs.Char.{is_ascii_digit};
ghost use Rattle.field_text.specs.BlanksGrammar.{is_blank};
ghost use Rattle.svcb_values.specs.StringGrammar.{is_escapable};
ghost use Rattle.svcb_values.specs.StringReading.{raw_class, token_at, token_at_end, escape_at, decimal_at, is_end};

use alt_base::ClassTable;
use dns_names::decimal_byte;

/// How a value's string stands (RFC 9460 appendix A).
#[derive(Clone, Copy)]
pub enum Style {
    /// Up to a blank or the end of the text.
    Contiguous,
    /// Between quotes.
    InQuotes,
}

/// What a string goes on with: its end, a byte that so many bytes spell, or what is no part of a string.
pub(crate) enum Token {
    End,
    Raw { byte: u8 },
    Escaped { byte: u8, count: usize },
    Wrong,
}

/// Whether a byte is a space or a tab.
pub(crate) fn is_blank(byte: u8) -> bool
    ensures { result ≡ is_blank byte }
{
    byte == b' ' || byte == b'\t'
}

// Whether a byte may stand behind a backslash.
fn is_escapable(style: Style, byte: u8) -> bool
    ensures { result ≡ is_escapable style byte }
{
    match style {
        Style::Contiguous => byte.is_ascii_graphic(),
        Style::InQuotes => byte.is_ascii_graphic() || is_blank(byte),
    }
}

// Whether a byte ends a string.
fn is_end(style: Style, byte: u8) -> bool
    ensures { result ≡ is_end style byte }
{
    match style {
        Style::Contiguous => is_blank(byte),
        Style::InQuotes => byte == b'"',
    }
}

// What the end of the text is.
fn token_at_end(style: Style) -> Token
    ensures { result ≡ token_at_end style }
{
    match style {
        Style::Contiguous => Token::End,
        Style::InQuotes => Token::Wrong,
    }
}

/// What a string goes on with, by the table of the bytes that stand for themselves in it.
#[tactic(auto, using(crate::proofs::ClassLaws::raw_by_class))]
pub(crate) fn token_at<const N: usize>(style: Style, raw: &ClassTable<N>, text: &[u8]) -> Token
    requires { raw.now ≡ raw_class style }
    ensures { result ≡ token_at style text.now }
{
    let [first, rest @ ..] = text else {
        return token_at_end(style);
    };
    if is_end(style, *first) {
        Token::End
    } else if *first == b'\\' {
        escape_at(style, rest)
    } else if raw.has(*first) {
        Token::Raw { byte: *first }
    } else {
        Token::Wrong
    }
}

// What stands behind a backslash.
fn escape_at(style: Style, text: &[u8]) -> Token
    ensures { result ≡ escape_at style text.now }
{
    let [first, rest @ ..] = text else {
        return Token::Wrong;
    };
    if first.is_ascii_digit() {
        decimal_at(*first, rest)
    } else if is_escapable(style, *first) {
        Token::Escaped {
            byte: *first,
            count: 2,
        }
    } else {
        Token::Wrong
    }
}

// What stands behind a backslash and a digit.
fn decimal_at(hundreds: u8, text: &[u8]) -> Token
    requires { is_ascii_digit hundreds ≡ true }
    ensures { result ≡ decimal_at hundreds text.now }
{
    match text {
        [tens, ones, ..] => match decimal_byte(hundreds, *tens, *ones) {
            Some(byte) => Token::Escaped { byte, count: 4 },
            None => Token::Wrong,
        },
        _ => Token::Wrong,
    }
}
