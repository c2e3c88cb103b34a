ghost use Rattle.std.specs.Prelude.{◌≡◌, ◌≤◌, ◌+◌, ◌∷◌, ◌↔◌, ℕ, List, length, true, false, Some, Ok};
ghost use Rattle.std.specs.Option.{is_some};
ghost use Rattle.h2_framing.specs.Frames.{IsFrame, octets_of};
ghost use Rattle.h2_framing.specs.declared.frame.Frame.TheVariants.{Kept};
ghost use Rattle.origin_values.specs.declared.origin.Origin.{Origin};
ghost use Rattle.altsvc_grammar.specs.declared.alt_svc.AltSvc.{AltSvc};
ghost use Rattle.altsvc_frame.specs.FrameReading.{read_frame};
ghost use Rattle.origin_frame.specs.PayloadReading.{read_listed};
ghost use Rattle.origin_frame.specs.PayloadWritten.{payload_of as origins_payload};
ghost use Rattle.advertiser_core.specs.declared.message.Message.{Message};
ghost use Rattle.advertiser_core.specs.Acts.{Act, Announce, Advertise};
ghost use Rattle.advertiser_core.specs.ServedList.{is_served, served_since, served_list, IsServedList};
ghost use Rattle.advertiser_core.specs.Messages.{messages, numbered, origins_message, value_message, value_payload, IsWhole};
ghost use Rattle.advertiser_core.specs.Refusals.{most_messages, AreAccepted};

/// The served list holds exactly the origins that are served, each once, by the oldest act that serves it since it was
/// last unserved; and it is the only list that does.
pub fn one_served_list()
    ensures since { (acts : List Act) (o : Origin) → is_served acts o ≡ is_some (served_since acts o) }
    ensures some { (acts : List Act) → IsServedList acts (served_list acts) }
    ensures only { (acts : List Act) (origins : List Origin) → IsServedList acts origins → origins ≡ served_list acts }
{}

/// No later act changes a message or its number, and a new message has the next number.
pub fn messages_stay()
    ensures stay { (act : Act) (acts : List Act) (n : ℕ) (made : Message) → numbered (messages acts) n ≡ Some made →
        numbered (messages (act ∷ acts)) n ≡ Some made }
    ensures announced { (acts : List Act) →
        numbered (messages (Announce ∷ acts)) (length (messages acts) + 1) ≡ Some (origins_message (served_list acts)) }
    ensures advertised { (acts : List Act) (origin : Origin) (value : AltSvc) →
        numbered (messages (Advertise origin value ∷ acts)) (length (messages acts) + 1) ≡ Some (value_message origin value) }
{}

/// Each message that accepted acts have made is a whole frame (RFC 9113 4.1) within the limit, on stream 0; and there are
/// no more of them than may be.
pub fn messages_are_whole()
    ensures whole { (acts : List Act) (n : ℕ) (made : Message) → AreAccepted acts → numbered (messages acts) n ≡ Some made → IsWhole made }
    ensures frame { (acts : List Act) (n : ℕ) (made : Message) → AreAccepted acts → numbered (messages acts) n ≡ Some made →
        IsFrame (octets_of made.head made.payload) (Kept made.head made.payload) }
    ensures few { (acts : List Act) → AreAccepted acts → length (messages acts) ≤ most_messages }
{}

/// What an accepted act announces or advertises is read back on stream 0: the origins that are served, or the origin and
/// its value.
pub fn messages_are_read()
    ensures announced { (acts : List Act) → AreAccepted (Announce ∷ acts) →
        read_listed 0 0 (origins_payload (served_list acts)) ≡ Ok (record { origins = served_list acts; skipped = 0 }) }
    ensures advertised { (acts : List Act) (origin : Origin) (value : AltSvc) → AreAccepted (Advertise origin value ∷ acts) →
        read_frame 0 (value_payload origin value) ≡ Ok (record { origin = Some origin; value = value }) }
{
    origin_frame::written_origins_are_listed();
    altsvc_frame::written_frames_are_read();
}
