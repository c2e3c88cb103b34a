ghost use Rattle.std.specs.Prelude.{◌≡◌, ◌≤◌, ◌<◌, ◌^◌, ◌++◌, [], ℕ, List, Option, Some, None, Result, Ok, length};
ghost use Rattle.alt_base.specs.declared.refusal.NoMemory.{NoMemory};
ghost use Rattle.h2_framing.specs.declared.head.Head.{Head};
ghost use Rattle.h2_framing.specs.declared.frame.Frame.{Frame};
ghost use Rattle.h2_framing.specs.declared.reader.FrameReader.{FrameReader};
ghost use Rattle.h2_framing.specs.declared.fed.Fed.{Fed};
ghost use Rattle.h2_framing.specs.declared.fed.Fed.TheVariants.{Going, TooLarge};
ghost use Rattle.h2_framing.specs.Frames.{IsFrame, frame_of, octets_of};
ghost use Rattle.h2_framing.specs.Streams.{HasOneSplit, split_of, with_frame, frames_of, too_large_of};
ghost use Rattle.h2_framing.specs.Reading.{AnswersPiece, Brings, BringAll, joined, with_frames};

/// Each stream is split into whole frames and a rest in exactly one way.
pub fn stream_has_one_split()
    ensures { (stream : List ℕ) → HasOneSplit stream }
{}

/// What is written of a frame is that frame; and at the front of a stream it is read as that frame, and what follows
/// as if it stood alone.
pub fn written_frame_is_read()
    ensures frame { (head : Head) (payload : List ℕ) → length payload ≡ head.length → head.length ≤ 16384 → head.stream < 2 ^ 31 → IsFrame (octets_of head payload) (frame_of head payload) }
    ensures front { (head : Head) (payload more : List ℕ) → length payload ≡ head.length → head.length ≤ 16384 → head.stream < 2 ^ 31 → split_of (octets_of head payload ++ more) ≡ with_frame (frame_of head payload) (split_of more) }
{}

/// Behind a length above the limit no octets bring a frame or change that length.
pub fn too_large_stays()
    ensures { (x p : List ℕ) (n : ℕ) → too_large_of x ≡ Some n → Brings x p [] (Some n) }
{}

/// What two pieces give, one after the other, both of them joined give as one piece.
pub fn two_pieces_are_one()
    ensures going { (reader : FrameReader) (frames : List Frame) (answer : Result Fed NoMemory) (x p q : List ℕ) → AnswersPiece (Ok (Going reader frames)) x p → AnswersPiece answer (x ++ p) q → AnswersPiece (with_frames frames answer) x (p ++ q) }
    ensures too_large { (frames : List Frame) (n : ℕ) (x p q : List ℕ) → AnswersPiece (Ok (TooLarge frames n)) x p → AnswersPiece (Ok (TooLarge frames n)) x (p ++ q) }
{}

/// What pieces give in all, fed one by one up to a length above the limit, are the frames of the pieces joined, up to
/// the first length above the limit.
pub fn pieces_bring_the_frames_of_the_whole()
    ensures from_empty { (pieces : List (List ℕ)) (frames : List Frame) (too_large : Option ℕ) → BringAll [] pieces frames too_large → (frames ≡ frames_of (joined pieces)) × (too_large ≡ too_large_of (joined pieces)) }
    ensures from_any { (x : List ℕ) (pieces : List (List ℕ)) (frames : List Frame) (too_large : Option ℕ) → too_large_of x ≡ None → BringAll x pieces frames too_large → Brings x (joined pieces) frames too_large }
{}
