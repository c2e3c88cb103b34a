ghost use Rattle.std.specs.Prelude.{◌≡◌};
ghost use Rattle.event_lines.specs.ActionTexts.{protos_text};

use origin_values::Protos;

// The names of protocols, joined by commas.
pub(crate) fn protos_text(protos: Protos) -> &'static [u8]
    ensures { result.now ≡ protos_text protos }
{
    match (protos.h2, protos.h3, protos.http11) {
        (true, true, true) => b"h2,h3,http/1.1",
        (true, true, false) => b"h2,h3",
        (true, false, true) => b"h2,http/1.1",
        (true, false, false) => b"h2",
        (false, true, true) => b"h3,http/1.1",
        (false, true, false) => b"h3",
        (false, false, true) => b"http/1.1",
        (false, false, false) => b"",
    }
}
