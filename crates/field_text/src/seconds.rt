ghost use Rattle.std.specs.Prelude.{◌≡◌, ◌≤◌, IfSome, IfNone};
ghost use Rattle.field_text.specs.DeltaGrammar.{SpellsDelta, IsNoDelta, greatest_delta_seconds};
ghost use Rattle.field_text.specs.DeltaReading.{read_delta_seconds};

const GREATEST: u64 = 2_147_483_648;

/// The number of seconds that the whole input writes (RFC 9111 1.2.2), and 2,147,483,648 for every larger one. None
/// where the input is empty or holds a byte other than a digit.
pub fn delta_seconds(input: &[u8]) -> Option<u32>
    ensures reading { result ≡ read_delta_seconds input.now }
    ensures some { IfSome result (λ seconds. SpellsDelta input.now seconds) }
    ensures none { IfNone result (IsNoDelta input.now) }
    ensures capped { IfSome result (λ seconds. seconds ≤ greatest_delta_seconds) }
{
    if input.is_empty() {
        return None;
    }
    let mut seconds = 0;
    for digit in input {
        if !digit.is_ascii_digit() {
            return None;
        }
        let longer = u64::from(seconds) * 10 + u64::from(*digit - b'0');
        seconds = longer.min(GREATEST) as u32;
    }
    Some(seconds)
}
