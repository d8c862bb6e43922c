//! Reading a pattern: first a fault is sought, which takes no memory, and then the pattern is read.

ghost use Rattle.std.specs.Prelude.{◌≡◌, Ok, Err, IfNone, IfSome, IfOk, IsOk, IsOkUnless};
ghost use Rattle.icu_dimension_data.specs.Reading.{pattern_of};

use crate::affix_token::AffixToken;
use crate::cldr_pattern::CldrPattern;
use crate::error::PatternFault;
use crate::stepping::{Added, Section, State};
use crate::subpattern::Subpattern;
use std::alloc::Global;
use std::marker::Model;
use std::mem;

/// The first fault of a text, unless it is a pattern.
pub(crate) fn first_fault(text: &str) -> Option<PatternFault>
    ensures fault { IfSome result (λ fault. pattern_of text.now ≡ Err fault) }
    ensures none { IfNone result (IsOk (pattern_of text.now)) }
{
    let mut state = State::start();
    for (at, character) in text.char_indices() {
        match state.step(at, character) {
            Ok(step) => state = step.state,
            Err(fault) => return Some(fault),
        }
    }
    state.end_fault(text.len())
}

/// A pattern while it is read: the first subpattern, if the second has begun, and the current one.
#[derive(Drop)]
pub(crate) struct Draft {
    whole: Option<Subpattern>,
    current: Subpattern,
}

impl Model for Draft {
    ghost use Rattle.icu_dimension_data.specs.Reading.{Drafted};

    ghost Value = { Drafted };

    ghost view = { λ d. record { whole = d.whole; current = d.current } };
}

impl Subpattern {
    ghost use Rattle.std.specs.Prelude.{◌≡◌, IsOkUnless, OnOk};
    ghost use Rattle.icu_dimension_data.specs.Reading.{token_in};

    fn push(&mut self, section: Section, token: AffixToken) -> Result<(), PatternFault>
        ensures pushed { OnOk result (self.new ≡ token_in section token self.old) }
        ensures memory { IsOkUnless result PatternFault.OutOfMemory }
    {
        match section {
            Section::Before => self.before.push(token)?,
            Section::Number | Section::After => self.after.push(token)?,
        }
        Ok(())
    }
}

impl Draft {
    ghost use Rattle.std.specs.Prelude.{◌≡◌, IsOkUnless, OnOk};
    ghost use Rattle.icu_dimension_data.specs.Reading.{completed, empty_draft, with_added};

    fn new(alloc: Global) -> Self
        ensures { result ≡ empty_draft }
    {
        Draft {
            whole: None,
            current: Subpattern::new(alloc),
        }
    }

    /// Adds what a character adds.
    fn take(&mut self, alloc: Global, section: Section, added: Added) -> Result<(), PatternFault>
        ensures taken { OnOk result (self.new ≡ with_added section added self.old) }
        ensures memory { IsOkUnless result PatternFault.OutOfMemory }
    {
        match added {
            Added::Nothing => Ok(()),
            Added::Token(token) => self.current.push(section, token),
            Added::Subpattern => {
                let whole = mem::replace(&mut self.current, Subpattern::new(alloc));
                self.whole = Some(whole);
                Ok(())
            }
        }
    }

    /// The pattern, where the text ends.
    fn finish(self) -> CldrPattern
        ensures { result ≡ completed self }
    {
        let Draft { whole, current } = self;
        match whole {
            None => CldrPattern {
                first: current,
                second: None,
            },
            Some(first) => CldrPattern {
                first,
                second: Some(current),
            },
        }
    }
}

/// The pattern of a text that is one.
pub(crate) fn read(alloc: Global, text: &str) -> Result<CldrPattern, PatternFault>
    requires { IsOk (pattern_of text.now) }
    ensures read { IfOk result (λ p. pattern_of text.now ≡ Ok p) }
    ensures memory { IsOkUnless result PatternFault.OutOfMemory }
{
    let mut state = State::start();
    let mut draft = Draft::new(alloc);
    for (at, character) in text.char_indices() {
        match state.step(at, character) {
            Ok(step) => {
                draft.take(alloc, step.state.section, step.added)?;
                state = step.state;
            }
            Err(_) => unreachable!(),
        }
    }
    Ok(draft.finish())
}
