ghost use Rattle.std.specs.Prelude.{IfOk};
ghost use Rattle.alt_base.specs.Answers.{Answers, IfRefused};
ghost use Rattle.altsvc_grammar.specs.ValueGrammar.{SpellsValue};
ghost use Rattle.altsvc_grammar.specs.ValueRefusals.{ValueRefusedAt};
ghost use Rattle.altsvc_grammar.specs.ValueReading.{read_value};

use crate::elements::read_elements;
use crate::{AltRefusal, AltSvc};
use alt_base::Refused;
use std::alloc::Global;

/// The most bytes of a value.
const MOST_BYTES: usize = 16_384;

/// The value of an Alt-Svc field (RFC 7838 3), which is the whole input. `clear` counts wherever it stands, and of
/// alternatives of one key the first stays.
///
/// The refusals, in the order in which they are tried: `TooLong` at 16,384 where there are more bytes; then from left
/// to right, in each element, `BadToken` at its first byte where no token stands there; `NoEquals` behind a token other
/// than `clear` that no `=` follows; `BadPercent` at the first `%` of a protocol that isn't followed by two upper-case
/// hex digits of a byte that is `%` or no token byte; `BadToken` at the first byte of a protocol of more than 255
/// decoded bytes; `BadQuoted` where the quoted string behind `=` is refused; `BadAuthority` at its opening quote where
/// its text is no host and port; `BadParameter` at the first byte of a parameter that is missing or wrong; `Trailing` at
/// a byte behind an element that is no comma; and last `Empty` at the length where there is no element.
pub fn parse(alloc: Global, input: &[u8]) -> Result<AltSvc, Refused<AltRefusal>>
    ensures reading { Answers result (read_value input.now) }
    ensures ok { IfOk result (λ value. SpellsValue input.now value) }
    ensures refused { IfRefused result (λ place reason. ValueRefusedAt input.now place reason) }
{
    read_value(alloc, input)
}

fn read_value(alloc: Global, input: &[u8]) -> Result<AltSvc, Refused<AltRefusal>>
    ensures { Answers result (read_value input.now) }
{
    if input.len() > MOST_BYTES {
        return Err(Refused::At {
            place: 16_384,
            reason: AltRefusal::TooLong,
        });
    }
    let seen = read_elements(alloc, input)?;
    seen.into_value(alloc, input.len() as u32)
}
