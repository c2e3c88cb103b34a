ghost use Rattle.std.specs.Prelude.{◌≡◌, ◌≤◌, length, Ok};
ghost use Rattle.svcb_wire.specs.declared.svcb.Svcb.{Svcb};
ghost use Rattle.svcb_wire.specs.Records.{IsRecord, record_octets};
ghost use Rattle.svcb_text.specs.TextGrammar.{IsAllowed, SpellsRecordText};
ghost use Rattle.svcb_text.specs.TextReading.{read_record_text};
ghost use Rattle.svcb_text.specs.Written.{record_text};

/// What is written for a record that is consistent or has the priority 0 spells it and is read back, where the text and
/// the wire form have at most 65,535 bytes.
pub fn written_record_texts_are_read_back()
    ensures spelled { (value : Svcb) → IsRecord value → IsAllowed value → length (record_octets value) ≤ 65535 → length (record_text value) ≤ 65535 → SpellsRecordText (record_text value) value }
    ensures read { (value : Svcb) → IsRecord value → IsAllowed value → length (record_octets value) ≤ 65535 → length (record_text value) ≤ 65535 → read_record_text (record_text value) ≡ Ok value }
{}
