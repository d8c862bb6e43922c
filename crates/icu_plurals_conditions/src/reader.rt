//! Reading a condition: first a search for its fault, which takes no memory, and then the reading.
ghost use Rattle.std.specs.Prelude.{◌≡◌, Ok, None, IfOk, IfSome, IfNone, IsOkUnless};
ghost use Rattle.icu_plurals_conditions.specs.Grammar.{IsTextOf, IsConditionText, IsTextFault};
ghost use Rattle.icu_plurals_conditions.specs.Reading.{fault_byte, condition_of};
ghost use Rattle.icu_plurals_conditions.specs.Owned.{condition_in};

use crate::condition::Condition;
use crate::draft::Draft;
use crate::error::RulesError;
use crate::lexer::{first_token, part};
use crate::progress::Progress;
use std::alloc::Global;

/// The byte offset at which reading a text stops, if a token may not follow or the text ends too
/// early.
fn stop_in(text: &str) -> Option<usize>
    ensures { result ≡ fault_byte (condition_of text.now) }
{
    let part = part(text);
    let end = part.len();
    let mut rest = part;
    let mut at = 0;
    let mut progress = Progress::Nothing;
    while let Some(found) = first_token(rest) {
        match progress.next(found.token) {
            Some(next) => progress = next,
            None => return Some(at + found.start),
        }
        at += found.end;
        rest = rest.split_at(found.end).1;
    }
    if progress.may_end() { None } else { Some(end) }
}

/// The byte offset of the first fault of a text; none if the text spells a condition.
// promise: The byte is that of the first fault, if the text has one.
// mutations: first_fault_told_behind_the_token
pub fn first_fault(text: &str) -> Option<usize>
    ensures found { result ≡ fault_byte (condition_of text.now) }
    ensures fault { IfSome result (λ byte. IsTextFault text.now byte) }
    ensures spells { IfNone result (IsConditionText text.now) }
{
    stop_in(text)
}

/// The condition that a text spells. The text must have no fault.
// promise: The condition is the one that the text spells.
// mutations: read_condition_range_end_dropped
pub fn read_condition(alloc: Global, text: &str) -> Result<Condition, RulesError>
    requires { fault_byte (condition_of text.now) ≡ None }
    ensures read { IfOk result (λ c. condition_of text.now ≡ Ok (condition_in c)) }
    ensures spelled { IfOk result (λ c. IsTextOf text.now (condition_in c)) }
    ensures memory { IsOkUnless result RulesError.OutOfMemory }
{
    let mut rest = part(text);
    let mut progress = Progress::Nothing;
    let mut draft = Draft::new(alloc);
    while let Some(found) = first_token(rest) {
        draft.take(alloc, progress, found.token)?;
        match progress.next(found.token) {
            Some(next) => progress = next,
            None => unreachable!(),
        }
        rest = rest.split_at(found.end).1;
    }
    draft.finish(alloc, progress)
}
