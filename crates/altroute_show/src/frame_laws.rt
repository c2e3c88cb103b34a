//! Laws of what `show frames` writes, stated over its definitions alone.
ghost use Rattle.std.specs.Prelude.{◌≡◌, ◌≤◌, ◌<◌, ◌-◌, ◌++◌, [], ℕ, List, Bool, true, false, length, Some};
ghost use Rattle.h2_framing.specs.Frames.{AreFrames, IsTooLarge, IsUnfinished};
ghost use Rattle.h2_framing.specs.declared.frame.Frame.{Frame};
ghost use Rattle.altroute_show.specs.FrameLines.{frame_lines};
ghost use Rattle.altroute_show.specs.FrameOutcome.{FrameStop, AtTooLarge, AtUnfinished, goes_on, stops, frame_outcome};
ghost use Rattle.altroute_show.specs.Given.{refused_at};

/// Octets within the limit of an input that are whole frames give the lines of these; behind them a head that is too large
/// is refused at its first octet, and an unfinished frame at the end of the input.
pub fn frames_are_shown()
    ensures whole { (octets : List ℕ) (frames : List Frame) → AreFrames octets frames [] → length octets ≤ 67108864 →
        frame_outcome octets true ≡ goes_on (frame_lines frames) }
    ensures too_large { (octets rest : List ℕ) (frames : List Frame) (n : ℕ) → AreFrames octets frames rest → IsTooLarge rest n → length octets ≤ 67108864 →
        frame_outcome octets false ≡ stops (frame_lines frames ++ refused_at 1 (length octets - length rest)) AtTooLarge }
    ensures unfinished { (octets rest : List ℕ) (frames : List Frame) → AreFrames octets frames rest → IsUnfinished rest → 0 < length rest → length octets ≤ 67108864 →
        frame_outcome octets true ≡ stops (frame_lines frames ++ refused_at 2 (length octets)) AtUnfinished }
{}

/// More octets only add to the text.
pub fn frames_text_grows()
    ensures { (octets more : List ℕ) (ended : Bool) → (extra : List ℕ) × ((frame_outcome (octets ++ more) ended).text ≡ (frame_outcome octets false).text ++ extra) }
{}

/// What stops a run stops it there, whatever octets follow.
pub fn frames_stop_stays()
    ensures { (octets more : List ℕ) (ended : Bool) (why : FrameStop) → (frame_outcome octets false).stop ≡ Some why → frame_outcome (octets ++ more) ended ≡ frame_outcome octets false }
{}
