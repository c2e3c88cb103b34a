ghost use Rattle.std.specs.Prelude.{◌≡◌, ◌≢◌, ◌<◌, ◌↔◌, ℕ, List, [], Some};
ghost use Rattle.dns_names.specs.Names.{AreBytes};
ghost use Rattle.field_text.specs.Runs.{AllIn};
ghost use Rattle.svcb_wire.specs.declared.param.Param.{Param};
ghost use Rattle.svcb_wire.specs.Forms.{HasForm};
ghost use Rattle.svcb_wire.specs.Octets.{key_of};
ghost use Rattle.svcb_values.specs.declared.unescaped.Unescaped.{Unescaped};
ghost use Rattle.svcb_values.specs.KeyNames.{key_name, key_named, is_key_byte};
ghost use Rattle.svcb_values.specs.ValueGrammar.{SpellsValue};
ghost use Rattle.svcb_values.specs.ValueReading.{read_value};

/// A text names a key exactly where it is the key's name, which is some bytes of keys' names (RFC 9460 2.1).
pub fn keys_are_named()
    ensures named { (text : List ℕ) (key : ℕ) → (key_named text ≡ Some key) ↔ ((text ≡ key_name key) × (key < 65536)) }
    ensures bytes { (key : ℕ) → key < 65536 → AllIn is_key_byte (key_name key) }
    ensures some { (key : ℕ) → key < 65536 → key_name key ≢ [] }
{}

/// What a string's value is read as by a key is spelled so (RFC 9460 7, 8 and appendix A.1), what is spelled is read, and
/// it is a parameter of the key in the key's form.
pub fn values_are_read()
    ensures read { (key : ℕ) (value : Unescaped) (param : Param) → key < 65536 → AreBytes value.bytes → read_value key value ≡ Some param → SpellsValue key value param }
    ensures spelled { (key : ℕ) (value : Unescaped) (param : Param) → SpellsValue key value param → read_value key value ≡ Some param }
    ensures of_key { (key : ℕ) (value : Unescaped) (param : Param) → SpellsValue key value param → key_of param ≡ key }
    ensures form { (key : ℕ) (value : Unescaped) (param : Param) → key < 65536 → AreBytes value.bytes → SpellsValue key value param → HasForm param }
{}
