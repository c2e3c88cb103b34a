ghost use Rattle.std.specs.Prelude.{◌≡◌, ◌≤◌, ◌<◌, ◌^◌, ◌+◌, length, drop, false, IfOk, IfErr};
ghost use Rattle.field_text.specs.QuotedGrammar.{SpellsQuoted, QuotedRefusedAt};
ghost use Rattle.field_text.specs.QuotedReading.{read_quoted, read_body, after_quoted};

use crate::TextRefusal;
use alt_base::{At, after_backslash_table, quoted_text_table};

/// The place after the closing quote of the quoted string at a place (RFC 9110 5.6.4). `Empty` at the place where no
/// quote stands there; `BadByte` at the first byte that may not stand where it stands; `Unclosed` at the length where
/// the input ends before the closing quote.
pub fn quoted(input: &[u8], place: u32) -> Result<u32, At<TextRefusal>>
    requires place { place ≤ length input.now }
    requires small { length input.now < 2 ^ 32 }
    ensures reading { result ≡ read_quoted place (drop place input.now) }
    ensures ok { IfOk result (λ end. SpellsQuoted place (drop place input.now) end) }
    ensures err { IfErr result (λ at. QuotedRefusedAt place (drop place input.now) at.place at.reason) }
    ensures rest { IfOk result (λ end. drop end input.now ≡ after_quoted (drop place input.now)) }
    ensures above { IfOk result (λ end. place + 2 ≤ end) }
    ensures within { IfOk result (λ end. end ≤ length input.now) }
{
    quoted_at(&input[place as usize..], place)
}

fn quoted_at(rest: &[u8], place: u32) -> Result<u32, At<TextRefusal>>
    requires { place + length rest.now < 2 ^ 32 }
    ensures { result ≡ read_quoted place rest.now }
{
    match rest {
        [b'"', body @ ..] => body_end(body, place + 1),
        _ => Err(At {
            place,
            reason: TextRefusal::Empty,
        }),
    }
}

// The place after the closing quote, in the text behind the opening one.
fn body_end(body: &[u8], place: u32) -> Result<u32, At<TextRefusal>>
    requires { place + length body.now < 2 ^ 32 }
    ensures { result ≡ read_body false place body.now }
{
    let quoted_text = quoted_text_table();
    let after_backslash = after_backslash_table();
    let mut escaped = false;
    for (i, byte) in body.iter().enumerate() {
        let here = place + i as u32;
        if escaped {
            if !after_backslash.has(*byte) {
                return Err(At {
                    place: here,
                    reason: TextRefusal::BadByte,
                });
            }
            escaped = false;
        } else if *byte == b'"' {
            return Ok(here + 1);
        } else if *byte == b'\\' {
            escaped = true;
        } else if !quoted_text.has(*byte) {
            return Err(At {
                place: here,
                reason: TextRefusal::BadByte,
            });
        }
    }
    Err(At {
        place: place + body.len() as u32,
        reason: TextRefusal::Unclosed,
    })
}
