ghost use Rattle.std.specs.Prelude.{◌≡◌, ◌≤◌, ℕ, List, length, Ok, Err};
ghost use Rattle.alt_base.specs.declared.refusal.At.{At};
ghost use Rattle.altsvc_grammar.specs.Written.{value_text};
ghost use Rattle.altsvc_grammar.specs.ValueGrammar.{most_value_bytes};
ghost use Rattle.altsvc_frame.specs.FrameGrammar.{SpellsFrame, FrameRefusedAt, OneFrame};
ghost use Rattle.altsvc_frame.specs.FrameReading.{read_frame, refused};
ghost use Rattle.altsvc_frame.specs.FrameWritten.{payload_of, IsAltFrame, IsStreamOf};
ghost use Rattle.altsvc_frame.specs.declared.frame.AltFrame.{AltFrame};
ghost use Rattle.altsvc_frame.specs.declared.refusal.AltFrameRefusal.{AltFrameRefusal};

/// On each stream: what is read is spelled so, what is spelled is read and in its form, and what is refused is
/// refused so.
pub fn payloads_are_read()
    ensures read { (stream : ℕ) (payload : List ℕ) (frame : AltFrame) →
        read_frame stream payload ≡ Ok frame → SpellsFrame stream payload frame }
    ensures refusal { (stream : ℕ) (payload : List ℕ) (at : At AltFrameRefusal) →
        read_frame stream payload ≡ Err at → FrameRefusedAt stream payload at.place at.reason }
    ensures spelled { (stream : ℕ) (payload : List ℕ) (frame : AltFrame) →
        SpellsFrame stream payload frame → read_frame stream payload ≡ Ok frame }
    ensures refused { (stream : ℕ) (payload : List ℕ) (place : ℕ) (reason : AltFrameRefusal) →
        FrameRefusedAt stream payload place reason → read_frame stream payload ≡ refused place reason }
    ensures valid { (stream : ℕ) (payload : List ℕ) (frame : AltFrame) →
        SpellsFrame stream payload frame → IsAltFrame frame }
{}

/// On each stream each payload says exactly one frame or is refused at exactly one place, and never both.
pub fn one_alt_frame()
    ensures { (stream : ℕ) (payload : List ℕ) → OneFrame stream payload }
{}

/// The payload that says a frame gives it back on stream 0 where it has an origin, and on each other stream where it
/// has none, if the field's text has at most 16,384 bytes.
pub fn written_frames_are_read()
    ensures spelled { (stream : ℕ) (frame : AltFrame) → IsAltFrame frame → IsStreamOf frame.origin stream →
        length (value_text frame.value) ≤ most_value_bytes → SpellsFrame stream (payload_of frame) frame }
    ensures back { (stream : ℕ) (frame : AltFrame) → IsAltFrame frame → IsStreamOf frame.origin stream →
        length (value_text frame.value) ≤ most_value_bytes → read_frame stream (payload_of frame) ≡ Ok frame }
{}
