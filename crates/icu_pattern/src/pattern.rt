//! Patterns, owned and borrowed.

ghost use Rattle.std.specs.Prelude.{IsTrue};

pub use crate::backend::{NoPlaceholder, PatternBackend, SinglePlaceholder};
pub use crate::error::PatternError;
use std::alloc::{AllocError, Global};
use std::marker::{Model, PhantomData};

/// A pattern that owns its literal (ICU4X, `Pattern`).
#[derive(Drop)]
#[derive_where(Debug)]
pub struct Pattern<P: PatternBackend> {
    placeholder: Option<usize>,
    literal: String,
    backend: PhantomData<P>,
}

impl<P: PatternBackend> Model for Pattern<P> {
    ghost use Rattle.std.specs.Prelude.{IsTrue};
    ghost use Rattle.std.specs.String.{string_bytes};
    ghost use Rattle.icu_pattern.specs.Patterns.{PatternText};

    ghost Value = { PatternText };

    ghost view = { λ p. record { placeholder = p.placeholder; literal = string_bytes p.literal } };

    ghost invariant = { λ p.
        IsTrue (P.accepted (record {
          placeholder = p.placeholder;
          literal = string_bytes p.literal;
        })) };
}

impl<P: PatternBackend> Pattern<P> {
    ghost use Rattle.std.specs.Prelude.{◌≡◌, ◌↔◌, false, IsTrue, IfOk, IsErrOf, IsOkUnless};
    ghost use Rattle.icu_pattern.specs.Refs.{text_of_ref};

    /// The pattern with this placeholder and this literal.
    // promise: `BadPlace` comes exactly where the backend rejects it.
    // mutations: try_new_place_not_judged
    pub fn try_new(
        alloc: Global,
        placeholder: Option<usize>,
        literal: &str,
    ) -> Result<Self, PatternError>
        ensures given { IfOk result
            (λ p. p ≡ record { placeholder = placeholder; literal = literal.now }) }
        ensures bad_place { IsErrOf result PatternError.BadPlace
            ↔ (P.accepted (record { placeholder = placeholder; literal = literal.now }) ≡ false) }
    {
        if !P::accepts(placeholder, literal) {
            return Err(PatternError::BadPlace);
        }
        Ok(Pattern {
            placeholder,
            literal: String::from_str(alloc, literal)?,
            backend: PhantomData,
        })
    }

    /// An equal pattern, with memory of its own.
    pub fn copy(&self, alloc: Global) -> Result<Self, PatternError>
        ensures equal { IfOk result (λ p. p ≡ self.now) }
        ensures memory { IsOkUnless result PatternError.OutOfMemory }
    {
        let placeholder = self.placeholder;
        let literal = String::from_str(alloc, self.literal.as_str())?;
        Ok(Pattern {
            placeholder,
            literal,
            backend: PhantomData,
        })
    }

    /// The pattern, borrowed.
    pub fn as_ref(&self) -> PatternRef<'_, P>
        ensures lent { text_of_ref result ≡ self.now }
        ensures accepted { IsTrue (P.accepted self.now) }
    {
        PatternRef {
            placeholder: self.placeholder,
            literal: self.literal.as_str(),
            backend: PhantomData,
        }
    }
}

impl Pattern<SinglePlaceholder> {
    ghost use Rattle.std.specs.Prelude.{◌≡◌, List};
    ghost use Rattle.writeable.specs.Events.{Event};
    ghost use Rattle.icu_pattern.specs.Patterns.{placeholder_alone, interpolated};

    /// The pattern that is a placeholder alone: it writes a value as it is. It takes no memory.
    // promise: The place alone writes every value as it is.
    // mutations: pass_through_nothing
    #[tactic(auto, using(crate::proofs::Boundaries::interpolated_alone))]
    pub fn pass_through(alloc: Global) -> Self
        ensures alone { result ≡ placeholder_alone }
        ensures as_it_is { (es : List Event) → interpolated result es ≡ es }
    {
        Pattern {
            placeholder: Some(0),
            literal: String::new(alloc),
            backend: PhantomData,
        }
    }
}

impl<P: PatternBackend> PartialEq for Pattern<P> {
    ghost use Rattle.std.specs.Prelude.{◌≡◌, ◌↔◌, IsTrue};
    ghost use Rattle.std.specs.Cmp.{partial_equiv_from_equiv};
    ghost use Rattle.icu_pattern.specs.Patterns.{same_pattern};
    ghost use Rattle.icu_pattern.specs.Backends.{same_pattern_equiv};

    // promise: Patterns are equal exactly where place and literal are.
    // mutations: eq_by_literal
    ghost eq = { same_pattern };

    ghost laws = { partial_equiv_from_equiv same_pattern_equiv };

    /// Whether both the placeholders and the literals are equal.
    fn eq(&self, other: &Self) -> bool
        ensures computed { result ≡ same_pattern self.now other.now }
        ensures same { IsTrue result ↔ (self.now ≡ other.now) }
    {
        self.as_ref() == other.as_ref()
    }
}

impl<P: PatternBackend> Eq for Pattern<P> {
    ghost use Rattle.icu_pattern.specs.Backends.{same_pattern_equiv};

    ghost laws = { same_pattern_equiv };
}

/// A pattern that borrows its literal.
#[derive_where(Debug)]
pub struct PatternRef<'a, P: PatternBackend> {
    placeholder: Option<usize>,
    literal: &'a str,
    backend: PhantomData<P>,
    ghost accepted: { IsTrue (P.accepted
        (record { placeholder = placeholder; literal = literal.now })) },
}

impl<P: PatternBackend> Clone for PatternRef<'_, P> {
    ghost use Rattle.std.specs.Prelude.{◌≡◌, ⊤};

    ghost is_clone = { λ s r. r ≡ s };

    ghost is_infallible = { λ _. ⊤ };

    fn clone(&self) -> Result<Self, AllocError> {
        Ok(*self)
    }
}

impl<P: PatternBackend> Copy for PatternRef<'_, P> {}

impl<'a, P: PatternBackend> PatternRef<'a, P> {
    ghost use Rattle.std.specs.Prelude.{◌≡◌, ◌↔◌, false, IfOk, IsErrOf, IsOkUnless, IsTrue};
    ghost use Rattle.icu_pattern.specs.Refs.{text_of_ref};

    /// The pattern with this placeholder in a borrowed literal. It takes no memory.
    // promise: Nothing but a bad place keeps a literal from being lent.
    // mutations: lent_place_not_judged, lent_any_place_refused
    pub fn try_new(placeholder: Option<usize>, literal: &'a str) -> Result<Self, PatternError>
        ensures given { IfOk result (λ p.
            text_of_ref p ≡ record { placeholder = placeholder; literal = literal.now }) }
        ensures bad_place { IsErrOf result PatternError.BadPlace
            ↔ (P.accepted (record { placeholder = placeholder; literal = literal.now }) ≡ false) }
        ensures no_memory { IsOkUnless result PatternError.BadPlace }
    {
        if P::accepts(placeholder, literal) {
            Ok(PatternRef {
                placeholder,
                literal,
                backend: PhantomData,
            })
        } else {
            Err(PatternError::BadPlace)
        }
    }

    /// The placeholder, if the pattern has one: how many bytes of the literal stand before the
    /// value.
    pub fn placeholder(&self) -> Option<usize>
        ensures placeholder { result ≡ (text_of_ref self.now).placeholder }
        ensures accepted { IsTrue (P.accepted (text_of_ref self.now)) }
    {
        self.placeholder
    }

    /// The literal.
    pub fn literal(&self) -> &'a str
        ensures { result.now ≡ (text_of_ref self.now).literal }
    {
        self.literal
    }
}

impl<P: PatternBackend> PartialEq for PatternRef<'_, P> {
    ghost use Rattle.std.specs.Prelude.{◌≡◌, ◌↔◌, IsTrue};
    ghost use Rattle.std.specs.Cmp.{partial_equiv_from_equiv};
    ghost use Rattle.std.specs.Ordering.{on};
    ghost use Rattle.std.proofs.lemmas.Cmp.{on_equiv};
    ghost use Rattle.icu_pattern.specs.Patterns.{same_pattern};
    ghost use Rattle.icu_pattern.specs.Backends.{same_pattern_equiv};
    ghost use Rattle.icu_pattern.specs.Refs.{text_of_ref};

    ghost eq = { on text_of_ref same_pattern };

    ghost laws = { partial_equiv_from_equiv (on_equiv text_of_ref same_pattern_equiv) };

    /// Whether both the placeholders and the literals are equal.
    fn eq(&self, other: &Self) -> bool
        ensures computed { result ≡ same_pattern (text_of_ref self.now) (text_of_ref other.now) }
        ensures same { IsTrue result ↔ (text_of_ref self.now ≡ text_of_ref other.now) }
    {
        (self.placeholder, self.literal) == (other.placeholder, other.literal)
    }
}

impl<P: PatternBackend> Eq for PatternRef<'_, P> {
    ghost use Rattle.std.proofs.lemmas.Cmp.{on_equiv};
    ghost use Rattle.icu_pattern.specs.Backends.{same_pattern_equiv};
    ghost use Rattle.icu_pattern.specs.Refs.{text_of_ref};

    ghost laws = { on_equiv text_of_ref same_pattern_equiv };
}
