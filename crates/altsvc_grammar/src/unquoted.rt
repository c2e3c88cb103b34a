ghost use Rattle.std.specs.Prelude.{◌≡◌, ◌≤◌, ◌<◌, ◌^◌, ◌+◌, length, drop, false, IfOk};
ghost use Rattle.field_text.specs.QuotedGrammar.{SpellsQuoted};
ghost use Rattle.field_text.specs.QuotedReading.{unquoted, unquoted_body};

use alt_base::NoMemory;
use std::alloc::Global;

// The text that the quoted string from a place to an end stands for.
pub(crate) fn unquoted(
    alloc: Global,
    input: &[u8],
    place: u32,
    end: u32,
) -> Result<Vec<u8>, NoMemory>
    requires quoted { SpellsQuoted place (drop place input.now) end }
    requires above { place + 2 ≤ end }
    requires within { end ≤ length input.now }
    ensures { IfOk result (λ text. text.items ≡ unquoted (drop place input.now)) }
{
    unquoted_body(alloc, &input[place as usize + 1..end as usize - 1])
}

// What stands between the quotes, without its backslashes.
fn unquoted_body(alloc: Global, body: &[u8]) -> Result<Vec<u8>, NoMemory>
    ensures { IfOk result (λ text. text.items ≡ unquoted_body false body.now) }
{
    let mut text = Vec::new(alloc);
    let mut escaped = false;
    for byte in body {
        if escaped {
            text.push(*byte)?;
            escaped = false;
        } else if *byte == b'"' {
            return Ok(text);
        } else if *byte == b'\\' {
            escaped = true;
        } else {
            text.push(*byte)?;
        }
    }
    Ok(text)
}
