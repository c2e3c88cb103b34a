ghost use Rattle.std.specs.Prelude.{◌≡◌, ℕ, List};
ghost use Rattle.event_lines.specs.EventTexts.{event_text};
ghost use Rattle.event_lines.specs.HaveLines.{HasLine};
ghost use Rattle.event_lines.specs.Valid.{IsEvent};
ghost use Rattle.event_lines.specs.LineGrammar.{SpellsLine};
ghost use Rattle.event_lines.specs.LineRefusals.{LineRefusedAt, OneLine};
ghost use Rattle.event_lines.specs.LineReading.{line_reading};
ghost use Rattle.event_lines.specs.declared.event.Event.{Event};
ghost use Rattle.event_lines.specs.declared.refusal.LineRefusal.{LineRefusal};

/// What is read of a line is spelled so, what is spelled is read, what is refused is refused by the table, at the
/// table's place, and what the table refuses is refused.
pub fn lines_are_read()
    ensures read { (line : List ℕ) (now : ℕ) (event : Event) → line_reading line ≡ Ok (now, event) → SpellsLine line now event }
    ensures spelled { (line : List ℕ) (now : ℕ) (event : Event) → SpellsLine line now event → line_reading line ≡ Ok (now, event) }
    ensures refusal { (line : List ℕ) (place : ℕ) (reason : LineRefusal) →
        line_reading line ≡ Err (record { place = place; reason = reason }) → LineRefusedAt line place reason }
    ensures refused { (line : List ℕ) (place : ℕ) (reason : LineRefusal) → LineRefusedAt line place reason →
        line_reading line ≡ Err (record { place = place; reason = reason }) }
{}

/// Each line spells exactly one event at one moment or is refused at exactly one place for one reason, and never both.
pub fn one_line()
    ensures { (line : List ℕ) → OneLine line }
{}

/// What a line says is in the bounds that its kind sets.
pub fn spelled_events_are_valid()
    ensures { (line : List ℕ) (now : ℕ) (event : Event) → SpellsLine line now event → IsEvent now event }
{}

/// The line that an event is written as says it, and is read back as it: each event that a line may say, but for a
/// response whose value of Alt-Svc is joined from several fields and ends with a space, and for an offer whose
/// alternatives have a text of more than 16,384 bytes, which is no value of Alt-Svc.
pub fn written_events_are_read_back()
    ensures spelled { (now : ℕ) (event : Event) → HasLine now event → SpellsLine (event_text now event) now event }
    ensures back { (now : ℕ) (event : Event) → HasLine now event → line_reading (event_text now event) ≡ Ok (now, event) }
{}
