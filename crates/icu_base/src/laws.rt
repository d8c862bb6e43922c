//! The laws of events and operands.

pub use icu_plurals::laws::{exactly_is_the_number, moving_the_point_multiplies};
pub use writeable::laws::{
    closed_events_keep_their_spans, events_tell_the_text, joined_events_join_their_texts,
    joined_texts_join_their_events, parts_have_no_text,
};
