ghost use Rattle.std.specs.Prelude.{◌≡◌, ◌≤◌, ◌<◌, ◌^◌, ◌+◌, length, drop};
ghost use Rattle.field_text.specs.Runs.{run_of};
ghost use Rattle.field_text.specs.BlanksGrammar.{is_blank, SpellsBlanks};
ghost use Rattle.field_text.specs.BlanksReading.{read_blanks, after_blanks};

/// The end of the blanks at a place (RFC 9110 5.6.3, `OWS`): the longest run of spaces and tabs that begins there,
/// maybe empty.
pub fn ows(input: &[u8], place: u32) -> u32
    requires place { place ≤ length input.now }
    requires small { length input.now < 2 ^ 32 }
    ensures reading { result ≡ read_blanks place (drop place input.now) }
    ensures spelled { SpellsBlanks place (drop place input.now) result }
    ensures rest { drop result input.now ≡ after_blanks (drop place input.now) }
    ensures above { place ≤ result }
    ensures within { result ≤ length input.now }
{
    place + blanks_len(&input[place as usize..]) as u32
}

// How many blanks stand in front.
fn blanks_len(rest: &[u8]) -> usize
    ensures run { result ≡ length (run_of is_blank rest.now) }
    ensures within { result ≤ length rest.now }
{
    for (i, byte) in rest.iter().enumerate() {
        if *byte != b' ' && *byte != b'\t' {
            return i;
        }
    }
    rest.len()
}
