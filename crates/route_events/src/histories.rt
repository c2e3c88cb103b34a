ghost use Rattle.std.specs.Prelude.{◌≡◌, [], ◌∷◌, ◌++◌, Some, codes};
ghost use Rattle.route_events.specs.Step.{run, actions, refusal};
ghost use Rattle.route_events.specs.WorkedHistories.{site, two_requests, two_sends, closed_connection, both_lost, busy_connection, second_waits, failed_attempt, wrong_name, refused_then_opened, two_schemes, one_each, misdirected_request, turned_away};
ghost use Rattle.route_events.specs.WorkedAlternatives.{first_sent, alternative_used, sent_by_alternative, alternative_stale, sent_directly, alternative_cleared, sent_elsewhere, network_changed, persistent_opened, alternative_failed, opened_again, alternative_misdirected, sent_again, no_value, plain_value, plain_ignored};
ghost use Rattle.route_events.specs.WorkedFrames.{value_by_frame, value_is_taken, value_for_other, value_on_stream, once_cleared, frames_in_pieces, second_accepted, frame_beside, both_delivered, frame_too_large, closed_and_lost, frame_within, gated_by_frame, sent_beside, misdirection_lifted, sent_on_it_again, frames_without_tls, none_taken, other_payloads, each_with_its_reason};
ghost use Rattle.route_events.specs.WorkedAnswers.{by_alias, alias_opened, by_port, one_by_one, one_malformed, second_named, in_time, too_late, moved_on, replaced, record_used, sent_by_record, record_failed, record_opened_again, all_routes, in_their_order};
ghost use Rattle.route_events.specs.Alike.{Alike};
ghost use Rattle.route_events.specs.WorkedAlike.{ended_value, without_value, ended_answer, without_answer, replaced_by, only_by, given_up_of, behind_both, behind_none, set_closed, other_closed};
ghost use Rattle.route_events.specs.WorkedCoalescing.{coalesced, sent_together, other_port, opened_apart, other_address, other_certificate, other_protocol, not_shared, by_address, sent_by_address, by_address6, counted, how_many};

use crate::{Action, Fact, Route, StepRefusal};

/// What the rules say of some small histories, computed by the checker.
pub fn worked_histories()
    ensures two_requests { actions (run [] two_requests) ≡ two_sends }
    ensures closed_connection { actions (run [] closed_connection) ≡ both_lost }
    ensures busy_connection { actions (run [] busy_connection) ≡ second_waits }
    ensures failed_attempt { actions (run [] failed_attempt) ≡ Action.OpenTo 1 site Route.Direct ∷ Action.Refuse 1 ∷ [] }
    ensures wrong_name { actions (run [] wrong_name) ≡ refused_then_opened }
    ensures two_schemes { actions (run [] two_schemes) ≡ one_each }
    ensures misdirected { actions (run [] misdirected_request) ≡ turned_away }
{}

/// What the rules say of some small histories with alternatives, computed by the checker.
pub fn worked_alternatives()
    ensures used { actions (run [] alternative_used) ≡ sent_by_alternative }
    ensures stale { actions (run [] alternative_stale) ≡ sent_directly }
    ensures cleared { actions (run [] alternative_cleared) ≡ sent_elsewhere }
    ensures network { actions (run [] network_changed) ≡ persistent_opened }
    ensures failed { actions (run [] alternative_failed) ≡ opened_again }
    ensures misdirected { actions (run [] alternative_misdirected) ≡ sent_again }
    ensures no_value { actions (run [] no_value) ≡ first_sent ++ (Action.Field 1 3 1 ∷ []) }
    ensures plain { actions (run [] plain_value) ≡ plain_ignored }
{}

/// What the rules say of some small histories with frames, computed by the checker.
pub fn worked_frames()
    ensures taken { actions (run [] value_by_frame) ≡ value_is_taken }
    ensures other { actions (run [] value_for_other) ≡ first_sent ++ (Action.Ignored 1 10 7 0 ∷ []) }
    ensures stream { actions (run [] value_on_stream) ≡ once_cleared }
    ensures pieces { actions (run [] frames_in_pieces) ≡ second_accepted }
    ensures beside { actions (run [] frame_beside) ≡ both_delivered }
    ensures too_large { actions (run [] frame_too_large) ≡ closed_and_lost }
    ensures within { actions (run [] frame_within) ≡ first_sent ++ (Action.Who site (1 ∷ []) ∷ []) }
    ensures gated { actions (run [] gated_by_frame) ≡ sent_beside }
    ensures lifted { actions (run [] misdirection_lifted) ≡ sent_on_it_again }
    ensures payloads { actions (run [] other_payloads) ≡ each_with_its_reason }
    ensures without_tls { actions (run [] frames_without_tls) ≡ none_taken }
    ensures not_framed { refusal (run [] busy_connection) 4 (Fact.Input 1 (0 ∷ [])) ≡ Some StepRefusal.NotFramed }
    ensures not_open { refusal (run [] frame_too_large) 4 (Fact.Input 1 (0 ∷ [])) ≡ Some StepRefusal.NoSuchConn }
{}

/// What the rules say of some small histories with HTTPS records, computed by the checker.
pub fn worked_answers()
    ensures alias_ { actions (run [] by_alias) ≡ alias_opened }
    ensures port { actions (run [] by_port) ≡ one_by_one }
    ensures malformed { actions (run [] one_malformed) ≡ second_named }
    ensures in_time { actions (run [] in_time) ≡ alias_opened }
    ensures too_late { actions (run [] too_late) ≡ Action.OpenTo 1 site Route.Direct ∷ [] }
    ensures moved_on { actions (run [] moved_on) ≡ Action.OpenTo 1 site Route.Direct ∷ [] }
    ensures replaced { actions (run [] replaced) ≡ Action.OpenTo 1 site Route.Direct ∷ [] }
    ensures used { actions (run [] record_used) ≡ sent_by_record }
    ensures failed { actions (run [] record_failed) ≡ record_opened_again }
    ensures order { actions (run [] all_routes) ≡ in_their_order }
{}

/// What the rules say of some small histories in which one connection serves several origins, and of counts, computed by the
/// checker.
pub fn worked_coalescing()
    ensures coalesced { actions (run [] coalesced) ≡ sent_together }
    ensures port { actions (run [] other_port) ≡ opened_apart 8443 }
    ensures address { actions (run [] other_address) ≡ opened_apart 443 }
    ensures certificate { actions (run [] other_certificate) ≡ opened_apart 443 }
    ensures protocol { actions (run [] other_protocol) ≡ not_shared }
    ensures by_address { actions (run [] by_address) ≡ sent_by_address }
    ensures by_address6 { actions (run [] by_address6) ≡ sent_by_address }
    ensures counts { actions (run [] counted) ≡ how_many }
{}

/// What may be forgotten, one pair for each way: the second history has something else in place of what ended, was cleared,
/// was replaced, was given up, or went with the network or with its connection.
pub fn worked_forgetting()
    ensures expired { Alike (run [] ended_value) (run [] without_value) }
    ensures purged { Alike (run [] ended_answer) (run [] without_answer) }
    ensures cleared { Alike (run [] (replaced_by (codes "clear"))) (run [] (only_by (codes "clear"))) }
    ensures replaced { Alike (run [] (replaced_by (codes "h2=\":9443\""))) (run [] (only_by (codes "h2=\":9443\""))) }
    ensures given_up { Alike (run [] (given_up_of (codes "h2=\":8443\"; ma=60"))) (run [] (given_up_of (codes "h2=\":8443\"; ma=90"))) }
    ensures network { Alike (run [] behind_both) (run [] behind_none) }
    ensures closed { Alike (run [] set_closed) (run [] other_closed) }
{}
