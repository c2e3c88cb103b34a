ghost use Rattle.std.specs.Prelude.{◌≡◌, ◌≤◌, ◌+◌, length, drop};
ghost use Rattle.svcb_values.specs.StringAnswers.{AnswersString, IsWithin};
ghost use Rattle.svcb_values.specs.StringGrammar.{BeginsStyle, opening};
ghost use Rattle.svcb_values.specs.StringReading.{raw_class, with_end, string_ends, read_string};

use crate::Unescaped;
use crate::string_fault::StringFault;
use crate::token::{Style, Token, is_blank, token_at};
use alt_base::{Bytes, ClassTable, contiguous_value_table, quoted_value_table};
use std::alloc::Global;

/// The string at the front of a text, and how many bytes it takes (RFC 9460 appendix A): it ends before a blank or at the
/// end of the text.
pub fn read_string(alloc: Global, text: &[u8]) -> Result<(Unescaped, usize), StringFault>
    ensures reading { AnswersString result (read_string text.now) }
    ensures within { IsWithin result (length text.now) }
{
    match text {
        [b'"', ..] => read_styled(alloc, text, Style::InQuotes, &quoted_value_table(), 1),
        _ => read_styled(alloc, text, Style::Contiguous, &contiguous_value_table(), 0),
    }
}

// The string at the front of a text, whose parts begin at a place, by the table of the bytes that stand for themselves.
fn read_styled<const N: usize>(
    alloc: Global,
    text: &[u8],
    style: Style,
    raw: &ClassTable<N>,
    start: usize,
) -> Result<(Unescaped, usize), StringFault>
    requires begins { BeginsStyle style text.now }
    requires raw { raw.now ≡ raw_class style }
    requires opening { start ≡ length (opening style) }
    ensures reading { AnswersString result (read_string text.now) }
    ensures within { IsWithin result (length text.now) }
{
    let mut bytes = Bytes::new(alloc);
    let mut plain = true;
    let mut place = start;
    loop {
        match token_at(style, raw, &text[place..]) {
            Token::End => return string_ends(style, Unescaped { bytes, plain }, text, place),
            Token::Wrong => return Err(StringFault::At { place }),
            Token::Raw { byte } => {
                bytes.push(byte)?;
                place += 1;
            }
            Token::Escaped { byte, count } => {
                bytes.push(byte)?;
                plain = false;
                place += count;
            }
        }
    }
}

// What was read up to a place, where the string ends; a closing quote belongs to it.
fn string_ends(
    style: Style,
    value: Unescaped,
    text: &[u8],
    place: usize,
) -> Result<(Unescaped, usize), StringFault>
    requires { length (opening style) + place ≤ length text.now }
    ensures reading { AnswersString result (string_ends style value place (drop place text.now)) }
    ensures within { IsWithin result (length text.now) }
{
    match style {
        Style::Contiguous => Ok((value, place)),
        Style::InQuotes => with_end(value, place + 1, &text[place + 1..]),
    }
}

// A string of so many bytes, where it may end before this.
fn with_end(value: Unescaped, count: usize, text: &[u8]) -> Result<(Unescaped, usize), StringFault>
    ensures reading { AnswersString result (with_end value count text.now) }
    ensures within { IsWithin result count }
{
    match text {
        [first, ..] if !is_blank(*first) => Err(StringFault::At { place: count }),
        _ => Ok((value, count)),
    }
}
