//! Backends: which placeholder a pattern may have.

ghost use Rattle.std.specs.Prelude.{◌≡◌, ◌↔◌, Bool, None, IsSome, IsTrue};
ghost use Rattle.icu_pattern.specs.Patterns.{PatternText, PlaceholderFits, has_fitting_placeholder, has_no_placeholder, placeholder_alone};
ghost use Rattle.icu_pattern.specs.Backends.{PlaceholderFits-tested, PlaceholderFits-without, placeholder_alone-fits, placeholder_alone-without};

/// A backend of patterns: it decides which placeholder is accepted in which literal.
///
/// A placeholder is a byte offset into the literal; the value is inserted there. Two laws hold of
/// each backend.
pub trait PatternBackend: Eq {
    /// Whether a pattern is accepted.
    ghost accepted: { PatternText → Bool };

    /// Whether this placeholder, or none, is accepted in this literal.
    fn accepts(placeholder: Option<usize>, literal: &str) -> bool
        ensures { result ≡ accepted (record { placeholder = placeholder; literal = literal.now }) };

    /// An accepted placeholder is where a character of the literal begins, or at the literal's end.
    // promise: An accepted place is where a character begins, or the end.
    ghost fits: { (p : PatternText) → IsTrue (accepted p) → PlaceholderFits p };

    /// Where any pattern with a placeholder is accepted, the placeholder alone is accepted too.
    ghost opens: { (p : PatternText) → IsTrue (accepted p) → IsSome p.placeholder →
        IsTrue (accepted placeholder_alone) };
}

/// Patterns with one placeholder or none (ICU4X, `SinglePlaceholder`).
#[derive(Clone, Copy, Debug, PartialEq, Eq)]
pub struct SinglePlaceholder;

/// Patterns without a placeholder: texts.
#[derive(Clone, Copy, Debug, PartialEq, Eq)]
pub struct NoPlaceholder;

impl PatternBackend for SinglePlaceholder {
    ghost accepted = { has_fitting_placeholder };

    ghost fits = { PlaceholderFits-tested };

    ghost opens = { placeholder_alone-fits };

    /// Accepts no placeholder, or one where a character of the literal begins or at the literal's
    /// end.
    // promise: Exactly a place where a character begins, or the end, fits.
    // mutations: accepts_a_place_inside_a_character
    #[tactic(auto, using(crate::proofs::Boundaries::is_boundary_of))]
    fn accepts(placeholder: Option<usize>, literal: &str) -> bool
        ensures accepted { result
            ≡ has_fitting_placeholder (record {
              placeholder = placeholder;
              literal = literal.now;
            }) }
        ensures fits { IsTrue result ↔ PlaceholderFits
            (record { placeholder = placeholder; literal = literal.now }) }
    {
        match placeholder {
            Some(placeholder) => literal.is_char_boundary(placeholder),
            None => true,
        }
    }
}

impl PatternBackend for NoPlaceholder {
    ghost accepted = { has_no_placeholder };

    ghost fits = { PlaceholderFits-without };

    ghost opens = { placeholder_alone-without };

    /// Accepts a literal without a placeholder, and nothing else.
    fn accepts(placeholder: Option<usize>, literal: &str) -> bool
        ensures accepted { result ≡ has_no_placeholder
            (record { placeholder = placeholder; literal = literal.now }) }
        ensures without { IsTrue result ↔ (placeholder ≡ None) }
    {
        let _ = literal;
        placeholder.is_none()
    }
}
