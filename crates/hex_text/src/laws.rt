ghost use Rattle.std.specs.Prelude.{◌≡◌, ℕ, List};
ghost use Rattle.hex.specs.Hex.{decode_of};
ghost use Rattle.hex_text.specs.HexGrammar.{SpellsHex};

/// The octets that hex digits are decoded to are those that they spell, and what is spelled is decoded.
pub fn hex_is_read()
    ensures read { (digits octets : List ℕ) → decode_of digits ≡ Ok octets → SpellsHex digits octets }
    ensures spelled { (digits octets : List ℕ) → SpellsHex digits octets → decode_of digits ≡ Ok octets }
{}
