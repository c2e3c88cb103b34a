ghost use Rattle.std.specs.Prelude.{◌≡◌, ◌≤◌, ◌<◌, ◌^◌, ◌+◌, length, drop, IfOk, IfErr};
ghost use Rattle.field_text.specs.TokenGrammar.{SpellsToken, TokenRefusedAt};
ghost use Rattle.field_text.specs.TokenReading.{read_token, token_of, after_token};

use crate::TextRefusal;
use alt_base::{At, token_table};

/// The end of the token at a place (RFC 9110 5.6.2): the longest run of token bytes that begins there. `Empty` at the
/// place where no token byte stands there.
pub fn token(input: &[u8], place: u32) -> Result<u32, At<TextRefusal>>
    requires place { place ≤ length input.now }
    requires small { length input.now < 2 ^ 32 }
    ensures reading { result ≡ read_token place (drop place input.now) }
    ensures ok { IfOk result (λ end. SpellsToken place (drop place input.now) end) }
    ensures err { IfErr result (λ at. TokenRefusedAt place (drop place input.now) at.place at.reason) }
    ensures rest { IfOk result (λ end. drop end input.now ≡ after_token (drop place input.now)) }
    ensures above { IfOk result (λ end. place < end) }
    ensures within { IfOk result (λ end. end ≤ length input.now) }
{
    let run = token_len(&input[place as usize..]);
    if run == 0 {
        return Err(At {
            place,
            reason: TextRefusal::Empty,
        });
    }
    Ok(place + run as u32)
}

// How many token bytes stand in front.
fn token_len(rest: &[u8]) -> usize
    ensures run { result ≡ length (token_of rest.now) }
    ensures within { result ≤ length rest.now }
{
    let table = token_table();
    for (i, byte) in rest.iter().enumerate() {
        if !table.has(*byte) {
            return i;
        }
    }
    rest.len()
}
