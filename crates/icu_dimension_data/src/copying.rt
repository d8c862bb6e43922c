//! Equal data, with memory of their own.

ghost use Rattle.std.specs.Prelude.{◌≡◌, IfOk};

use crate::affix_texts::KeptTexts;
use crate::cldr_pattern::CldrPattern;
use crate::currency_digits::CurrencyDigits;
use crate::signed_patterns::SignedPatterns;
use crate::subpattern::Subpattern;
use std::alloc::{AllocError, Global};

impl Subpattern {
    pub(crate) fn copy(&self, alloc: Global) -> Result<Self, AllocError>
        ensures { IfOk result (λ s. s ≡ self.now) }
    {
        Ok(Subpattern {
            before: Vec::from_slice(alloc, &self.before)?,
            after: Vec::from_slice(alloc, &self.after)?,
        })
    }
}

impl KeptTexts {
    fn copy(&self, alloc: Global) -> Result<Self, AllocError>
        ensures { IfOk result (λ t. t ≡ self.now) }
    {
        Ok(KeptTexts {
            minus_sign: String::from_str(alloc, self.minus_sign.as_str())?,
            plus_sign: String::from_str(alloc, self.plus_sign.as_str())?,
            percent_sign: String::from_str(alloc, self.percent_sign.as_str())?,
            currency: String::from_str(alloc, self.currency.as_str())?,
        })
    }
}

impl CldrPattern {
    /// An equal pattern, with memory of its own.
    pub fn copy(&self, alloc: Global) -> Result<Self, AllocError>
        ensures { IfOk result (λ p. p ≡ self.now) }
    {
        let first = self.first.copy(alloc)?;
        let second = match &self.second {
            Some(second) => Some(second.copy(alloc)?),
            None => None,
        };
        Ok(CldrPattern { first, second })
    }
}

impl SignedPatterns {
    /// Equal patterns, with memory of their own.
    pub fn copy(&self, alloc: Global) -> Result<Self, AllocError>
        ensures { IfOk result (λ p. p ≡ self.now) }
    {
        Ok(SignedPatterns {
            none: self.none.copy(alloc)?,
            minus: self.minus.copy(alloc)?,
            plus: self.plus.copy(alloc)?,
            texts: self.texts.copy(alloc)?,
        })
    }
}

impl CurrencyDigits {
    /// Equal digits, with memory of their own.
    pub fn copy(&self, alloc: Global) -> Result<Self, AllocError>
        ensures { IfOk result (λ d. d ≡ self.now) }
    {
        Ok(CurrencyDigits {
            entries: Vec::from_slice(alloc, &self.entries)?,
            others: self.others,
        })
    }
}
