//! What stands around the number of one subpattern.

use crate::affix_token::AffixToken;
use std::alloc::Global;
use std::marker::Model;

/// What stands before and after a number.
#[derive(Drop)]
pub(crate) struct Subpattern {
    pub(crate) before: Vec<AffixToken>,
    pub(crate) after: Vec<AffixToken>,
}

impl Model for Subpattern {
    ghost use Rattle.icu_dimension_data.specs.Patterns.{Affixes};

    ghost Value = { Affixes };

    ghost view = { λ s. record { before = s.before.items; after = s.after.items } };
}

impl Subpattern {
    ghost use Rattle.std.specs.Prelude.{◌≡◌};
    ghost use Rattle.icu_dimension_data.specs.Patterns.{no_affixes};

    /// A number with nothing around it.
    pub(crate) fn new(alloc: Global) -> Self
        ensures { result ≡ no_affixes }
    {
        Subpattern {
            before: Vec::new(alloc),
            after: Vec::new(alloc),
        }
    }
}
