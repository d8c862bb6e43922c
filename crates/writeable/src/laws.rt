//! What holds of all events. The functions do nothing: each is its contract.
ghost use Rattle.writeable.specs.Laws.{JoinedTextsJoinTheirEvents, EventsTellTheText, JoinedEventsJoinTheirTexts, PartsHaveNoText, ClosedEventsKeepTheirSpans};

/// Writing a text in two pieces writes the same events as writing it whole.
// promise: The events of a joined text are those of its two texts.
#[tactic(auto, using(crate::proofs::LawLemmas::law_steps))]
pub fn joined_texts_join_their_events()
    ensures { JoinedTextsJoinTheirEvents }
{}

/// The events of a text have that text.
#[tactic(auto, using(crate::proofs::LawLemmas::law_steps))]
pub fn events_tell_the_text()
    ensures { EventsTellTheText }
{}

/// Values written one after the other have their texts one after the other.
#[tactic(auto, using(crate::proofs::LawLemmas::law_steps))]
pub fn joined_events_join_their_texts()
    ensures { JoinedEventsJoinTheirTexts }
{}

/// Leaving the parts out leaves the text as it is.
#[tactic(auto, using(crate::proofs::LawLemmas::law_steps))]
pub fn parts_have_no_text()
    ensures { PartsHaveNoText }
{}

/// What closes its parts has the same spans wherever it is written, and moves the spans of what
/// follows.
// promise: Closed events keep their spans in front of others.
#[tactic(auto, using(crate::proofs::LawLemmas::law_steps))]
pub fn closed_events_keep_their_spans()
    ensures { ClosedEventsKeepTheirSpans }
{}
