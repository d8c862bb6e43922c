//! Names of numbering systems.

ghost use Rattle.std.specs.Prelude.{◌≡◌, ◌↔◌, IsTrue, IsOk, IfOk, ⊤, nat_eq};
ghost use Rattle.std.specs.List.{list_all};
ghost use Rattle.icu_provider.specs.Ascii.{is_lower_alphanumeric};
ghost use Rattle.icu_provider.specs.NumberingSystem.{is_numbering_system, IsNumberingSystem};

use crate::short_text::ShortText;
use std::alloc::AllocError;
use std::marker::Model;
use thiserror::Error;

/// The text isn't the name of a numbering system: it isn't 3 to 8 ASCII lower-case letters or
/// digits.
#[derive(Clone, Copy, Debug, PartialEq, Eq, Error)]
#[error("not the name of a numbering system")]
pub struct BadNumberingSystem;

/// The name of a numbering system, as `latn`: a type of the Unicode locale extension `nu` (UTS 35),
/// in lower case. It is a small value that takes no memory.
#[derive(Debug)]
pub struct NumberingSystem {
    name: ShortText<8>,
}

impl Model for NumberingSystem {
    ghost use Rattle.std.specs.Prelude.{ℕ, List};
    ghost use Rattle.icu_provider.specs.NumberingSystem.{IsNumberingSystem};

    ghost Value = { List ℕ };

    ghost view = { λ s. s.name };

    ghost invariant = { λ s. IsNumberingSystem s.name };

    ghost inverse = { λ text. record { name = text } };
}

fn is_lower_alphanumeric_byte(byte: u8) -> bool
    ensures { result ≡ is_lower_alphanumeric byte }
{
    byte.is_ascii_lowercase() || byte.is_ascii_digit()
}

fn are_lower_alphanumeric(bytes: &[u8]) -> bool
    ensures { result ≡ list_all is_lower_alphanumeric bytes.now }
{
    bytes.iter().all(|byte| is_lower_alphanumeric_byte(*byte))
}

#[tactic(auto, unfolding(crate::specs::NumberingSystem::is_numbering_system))]
fn is_name(bytes: &[u8]) -> bool
    ensures { result ≡ is_numbering_system bytes.now }
{
    3 <= bytes.len() && bytes.len() <= 8 && are_lower_alphanumeric(bytes)
}

impl NumberingSystem {
    /// The numbering system of this name.
    // promise: Exactly 3 to 8 ASCII small letters or digits are accepted.
    // mutations: numbering_system_two_letters_accepted
    pub fn try_from_str(text: &str) -> Result<Self, BadNumberingSystem>
        ensures accepted { IsOk result ↔ IsNumberingSystem text.now }
        ensures name { IfOk result (λ system. system ≡ text.now) }
    {
        if !is_name(text.as_bytes()) {
            return Err(BadNumberingSystem);
        }
        Ok(Self::of(text))
    }

    fn of(name: &str) -> Self
        requires { IsNumberingSystem name.now }
        ensures { result ≡ name.now }
    {
        NumberingSystem {
            name: ShortText::new(name),
        }
    }

    /// The name.
    pub fn as_str(&self) -> &str
        ensures name { result.now ≡ self.now }
        ensures valid { IsNumberingSystem self.now }
    {
        self.name.as_str()
    }
}

impl Clone for NumberingSystem {
    ghost is_clone = { λ s r. r ≡ s };

    ghost is_infallible = { λ _. ⊤ };

    fn clone(&self) -> Result<NumberingSystem, AllocError> {
        Ok(*self)
    }
}

impl Copy for NumberingSystem {}

impl PartialEq for NumberingSystem {
    ghost use Rattle.std.specs.Prelude.{◌≡◌, ◌↔◌, IsTrue, nat_eq};
    ghost use Rattle.std.specs.Cmp.{partial_equiv_from_equiv};
    ghost use Rattle.std.specs.Cmp.Lexicographic.{pointwise};
    ghost use Rattle.std.proofs.lemmas.Cmp.{nat_list_eq_equiv};

    ghost eq = { pointwise nat_eq };

    ghost laws = { partial_equiv_from_equiv nat_list_eq_equiv };

    fn eq(&self, other: &Self) -> bool
        ensures computed { result ≡ pointwise nat_eq self.now other.now }
        ensures same { IsTrue result ↔ (self.now ≡ other.now) }
    {
        self.as_str() == other.as_str()
    }
}

impl Eq for NumberingSystem {
    ghost use Rattle.std.proofs.lemmas.Cmp.{nat_list_eq_equiv};

    ghost laws = { nat_list_eq_equiv };
}
