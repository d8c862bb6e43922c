//! The order in which a provider is asked, and which of its answers counts.

ghost use Rattle.std.specs.Prelude.{Ok, [], if◌then◌else◌, bytes_eq, codes, length, unwrap_or, map, slice_index_or};
ghost use Rattle.icu_provider.specs.Answer.{as_answer, refused};
ghost use Rattle.icu_provider.specs.declared.error.DataErrorKind.TheVariants.{IdentifierNotFound};

use icu_decimal_data::load_with_fallback;
use icu_provider::{
    DataError, DataErrorKind, DataIdentifierBorrowed, DataLocale, DataMarker, DataProvider,
    DataRequest,
};
use std::alloc::Global;
use std::cell::Cell;

struct NumberV1;

impl DataMarker for NumberV1 {
    type DataStruct = u8;
}

/// A number, or why there is none.
type Answer = Result<u8, DataError>;

/// Systems whose names are as long as their places.
const SYSTEMS: [&str; 3] = ["", "a", "ab"];

/// Answers as it is asked to, one system after another, and keeps what it hears: a digit for each
/// request, 2 where it is silent, else 1.
#[derive(Drop)]
struct Told {
    answers: &'static [Answer],
    heard: Cell<u16>,
}

impl DataProvider<NumberV1> for Told {
    ghost answer = { λ keeper id. slice_index_or (map as_answer keeper.answers.now)
        (length (unwrap_or id.system [])) (refused IdentifierNotFound) };

    fn load(&self, _alloc: Global, request: &DataRequest<'_>) -> Result<u8, DataError> {
        let digit = if request.silent { 2 } else { 1 };
        self.heard
            .set(self.heard.get().wrapping_mul(10).wrapping_add(digit));
        match self.answers.get(request.id.system().unwrap_or("").len()) {
            Some(Ok(number)) => Ok(*number),
            Some(Err(error)) => Err(*error),
            None => Err(DataError::from(DataErrorKind::IdentifierNotFound)),
        }
    }
}

/// What is decided of these answers, and what was heard of the requests.
fn decided(alloc: Global, answers: &'static [Answer]) -> (Answer, u16) {
    let told = Told {
        answers,
        heard: Cell::new(0),
    };
    let ids = SYSTEMS.map(DataIdentifierBorrowed::for_marker_attributes);
    let count = answers.len().min(ids.len());
    let answer = load_with_fallback::<NumberV1, Told>(alloc, &told, ids.split_at(count).0);
    (answer, told.heard.get())
}

const MISSING: Answer = Err(DataError {
    kind: DataErrorKind::IdentifierNotFound,
    context: "nothing here",
});

const NO_MARKER: Answer = Err(DataError {
    kind: DataErrorKind::MarkerNotFound,
    context: "no numbers",
});

const NO_REQUEST: Answer = Err(DataError {
    kind: DataErrorKind::InvalidRequest,
    context: "what is that",
});

const CUSTOM: Answer = Err(DataError {
    kind: DataErrorKind::Custom,
    context: "closed today",
});

const NO_MEMORY: Answer = Err(DataError {
    kind: DataErrorKind::OutOfMemory,
    context: "all is taken",
});

/// Made by the call itself, and so without a text.
const NOTHING_ASKED: Answer = Err(DataError {
    kind: DataErrorKind::InvalidRequest,
    context: "",
});

/// Answers in turn, what is decided of them, and what is heard.
const DECIDED: [(&[Answer], Answer, u16); 14] = [
    (&[MISSING, Ok(7)], Ok(7), 21),
    (&[MISSING, MISSING], MISSING, 21),
    (&[CUSTOM, Ok(7)], CUSTOM, 2),
    (&[NO_MARKER, Ok(7)], NO_MARKER, 2),
    (&[NO_MEMORY, Ok(7)], NO_MEMORY, 2),
    (&[NO_REQUEST, Ok(7)], NO_REQUEST, 2),
    (&[Ok(7), CUSTOM], Ok(7), 2),
    (&[], NOTHING_ASKED, 0),
    (&[Ok(7)], Ok(7), 1),
    (&[MISSING], MISSING, 1),
    (&[CUSTOM], CUSTOM, 1),
    (&[MISSING, MISSING, Ok(7)], Ok(7), 221),
    (&[MISSING, Ok(7), Ok(8)], Ok(7), 22),
    (&[MISSING, CUSTOM, Ok(8)], CUSTOM, 22),
];

#[test]
fn the_first_answer_that_is_found_or_fails_otherwise_counts(rt: HostRuntime) {
    for &(answers, want, _) in &DECIDED {
        assert!(rt; decided(rt.alloc(), answers).0 == want, "{answers:?}");
    }
}

#[test]
fn all_but_the_last_are_asked_silently_and_none_after_the_one_that_counts(rt: HostRuntime) {
    for &(answers, _, want) in &DECIDED {
        assert!(rt; decided(rt.alloc(), answers).1 == want, "{answers:?}");
    }
}

/// Has a number for one locale alone.
#[derive(Drop)]
struct Numbers;

impl DataProvider<NumberV1> for Numbers {
    ghost answer = { λ _ id. if bytes_eq id.locale (codes "L") then Ok 7
        else refused IdentifierNotFound };

    fn load(&self, _alloc: Global, request: &DataRequest<'_>) -> Result<u8, DataError> {
        if request.id.locale() == "L" {
            Ok(7)
        } else {
            Err(DataErrorKind::IdentifierNotFound.into())
        }
    }
}

/// What is found by ten identifiers, of which the last alone has a number.
fn found_by_the_last(alloc: Global) -> Result<u8, DataError> {
    let known = DataLocale::try_from_str("L").unwrap_or_default();
    let unknown = DataLocale::default();
    let mut ids = [DataIdentifierBorrowed::for_locale(&unknown); 10];
    ids[9] = DataIdentifierBorrowed::for_locale(&known);
    load_with_fallback::<NumberV1, Numbers>(alloc, &Numbers, &ids)
}

#[test]
fn the_last_of_ten_identifiers_answers(rt: HostRuntime) {
    assert!(rt; found_by_the_last(rt.alloc()) == Ok(7));
}
