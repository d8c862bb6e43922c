//! One value for each plural category.

ghost use Rattle.std.specs.Prelude.{◌≡◌, ◌<◌};
ghost use Rattle.icu_plurals.specs.Elements.{number_at};

use crate::category::PluralCategory;
use crate::operands::PluralOperands;
use crate::rules::PluralRules;
use std::marker::Model;

/// A value for exactly zero and for exactly one, for each plural category that has its own, and one
/// for all other numbers (ICU4X, `icu_plurals::PluralElements`).
///
/// Each value is kept as it is given, even if it equals the value for all other numbers.
#[derive(Debug, Drop)]
pub struct PluralElements<T> {
    explicit_zero: Option<T>,
    explicit_one: Option<T>,
    zero: Option<T>,
    one: Option<T>,
    two: Option<T>,
    few: Option<T>,
    many: Option<T>,
    other: T,
}

impl<T> Model for PluralElements<T> {
    ghost use Rattle.icu_plurals.specs.Elements.{Elements};

    ghost Value = { Elements T };

    ghost view = { λ e. record {
      explicit_zero = e.explicit_zero;
      explicit_one = e.explicit_one;
      zero = e.zero;
      one = e.one;
      two = e.two;
      few = e.few;
      many = e.many;
      other = e.other;
    } };

    ghost inverse = { λ e. record {
      explicit_zero = e.explicit_zero;
      explicit_one = e.explicit_one;
      zero = e.zero;
      one = e.one;
      two = e.two;
      few = e.few;
      many = e.many;
      other = e.other;
    } };
}

impl<T> PluralElements<T> {
    ghost use Rattle.std.specs.Prelude.{◌≡◌, ◌<◌, IfSome, IfNone, None, slice_index_or};
    ghost use Rattle.std.specs.Option.{option_copied};
    ghost use Rattle.icu_plurals.specs.Operands.{Operands};
    ghost use Rattle.icu_plurals.specs.declared.category.PluralCategory.{PluralCategory};
    ghost use Rattle.icu_plurals.specs.Elements.{only_other, slots, sole_value, same_elements, without_explicit_one, selected, explicit_value, category_value};
    ghost use Rattle.icu_plurals.specs.Rules.{category_of};

    /// One value for all numbers.
    pub fn new(other: T) -> Self
        ensures { result ≡ only_other other }
    {
        PluralElements {
            explicit_zero: None,
            explicit_one: None,
            zero: None,
            one: None,
            two: None,
            few: None,
            many: None,
            other,
        }
    }

    /// With this value, or none, for exactly zero.
    pub fn with_explicit_zero_value(mut self, value: Option<T>) -> Self
    where
        T: Drop,
        ensures { result ≡ record self { explicit_zero = value } }
    {
        self.explicit_zero = value;
        self
    }

    /// With this value, or none, for exactly one.
    pub fn with_explicit_one_value(mut self, value: Option<T>) -> Self
    where
        T: Drop,
        ensures { result ≡ record self { explicit_one = value } }
    {
        self.explicit_one = value;
        self
    }

    /// With this value, or none, for the category zero.
    pub fn with_zero_value(mut self, value: Option<T>) -> Self
    where
        T: Drop,
        ensures { result ≡ record self { zero = value } }
    {
        self.zero = value;
        self
    }

    /// With this value, or none, for the category one.
    pub fn with_one_value(mut self, value: Option<T>) -> Self
    where
        T: Drop,
        ensures { result ≡ record self { one = value } }
    {
        self.one = value;
        self
    }

    /// With this value, or none, for the category two.
    pub fn with_two_value(mut self, value: Option<T>) -> Self
    where
        T: Drop,
        ensures { result ≡ record self { two = value } }
    {
        self.two = value;
        self
    }

    /// With this value, or none, for the category few.
    pub fn with_few_value(mut self, value: Option<T>) -> Self
    where
        T: Drop,
        ensures { result ≡ record self { few = value } }
    {
        self.few = value;
        self
    }

    /// With this value, or none, for the category many.
    pub fn with_many_value(mut self, value: Option<T>) -> Self
    where
        T: Drop,
        ensures { result ≡ record self { many = value } }
    {
        self.many = value;
        self
    }

    /// The value in a slot, counted from 0: those for exactly zero and exactly one, for the
    /// categories zero, one, two, few and many, and for all other numbers.
    pub fn slot(&self, slot: u8) -> Option<&T>
        requires { slot < 8 }
        ensures { option_copied result ≡ slice_index_or (slots self.now) slot None }
    {
        match slot {
            0 => self.explicit_zero.as_ref(),
            1 => self.explicit_one.as_ref(),
            2 => self.zero.as_ref(),
            3 => self.one.as_ref(),
            4 => self.two.as_ref(),
            5 => self.few.as_ref(),
            6 => self.many.as_ref(),
            _ => Some(&self.other),
        }
    }

    /// The value for all other numbers, where no other slot has a value. `get` then returns it for
    /// every number.
    // promise: A value without others is answered, and all numbers get it.
    // mutations: sole_few_not_seen
    pub fn sole(&self) -> Option<&T>
        ensures value { option_copied result ≡ sole_value self.now }
        ensures only { IfSome result (λ value. self.now ≡ only_other value.now) }
        ensures none { IfNone result ((value : T) → self.now ≡ only_other value → ⊥) }
        ensures selected { IfSome result (λ value. (operands : Operands) (category : PluralCategory)
            → selected self.now operands category ≡ value.now) }
    {
        let small = self.explicit_zero.is_some()
            || self.explicit_one.is_some()
            || self.zero.is_some();
        let large = self.one.is_some()
            || self.two.is_some()
            || self.few.is_some()
            || self.many.is_some();
        if small || large {
            None
        } else {
            Some(&self.other)
        }
    }

    /// The value for a number with these operands: the one for exactly zero or exactly one, if it
    /// is present and the number is exactly that, written without fraction digits or an exponent;
    /// else the one for the number's plural category, if it is present; else the one for all other
    /// numbers. It takes no memory.
    // promise: An explicit value comes first, then that of the category.
    // mutations: get_by_the_category_other
    pub fn get(&self, operands: PluralOperands, rules: &PluralRules) -> &T
        ensures { result.now ≡ selected self.now operands (category_of rules.now operands) }
    {
        self.select(operands, rules.category_for(operands))
    }

    /// The value for a number with these operands and this category.
    pub(crate) fn select(&self, operands: PluralOperands, category: PluralCategory) -> &T
        ensures { result.now ≡ selected self.now operands category }
    {
        if let Some(value) = self.explicit_value(operands) {
            return value;
        }
        match self.category_value(category) {
            Some(value) => value,
            None => &self.other,
        }
    }

    /// The value for exactly zero or exactly one, if the number is exactly that.
    fn explicit_value(&self, operands: PluralOperands) -> Option<&T>
        ensures { option_copied result ≡ explicit_value self.now operands }
    {
        if operands.is_exactly(0) {
            self.explicit_zero.as_ref()
        } else if operands.is_exactly(1) {
            self.explicit_one.as_ref()
        } else {
            None
        }
    }

    /// The value for the category, if it is present.
    fn category_value(&self, category: PluralCategory) -> Option<&T>
        ensures { option_copied result ≡ category_value self.now category }
    {
        match category {
            PluralCategory::Zero => self.zero.as_ref(),
            PluralCategory::One => self.one.as_ref(),
            PluralCategory::Two => self.two.as_ref(),
            PluralCategory::Few => self.few.as_ref(),
            PluralCategory::Many => self.many.as_ref(),
            PluralCategory::Other => None,
        }
    }

    /// Whether these values equal the others once the value for exactly one is removed from these.
    pub fn equal_without_explicit_one(&self, other: &Self) -> bool
    where
        T: PartialEq,
        ensures { result ≡ same_elements T.eq (without_explicit_one self.now) other.now }
    {
        other.explicit_one.is_none() && self.equal_but_for_explicit_one(other)
    }

    /// Whether all values but those for exactly one are equal.
    fn equal_but_for_explicit_one(&self, other: &Self) -> bool
    where
        T: PartialEq,
        ensures { result ≡ same_elements T.eq (without_explicit_one self.now)
            (without_explicit_one other.now) }
    {
        let small = self.explicit_zero == other.explicit_zero && self.zero == other.zero;
        let middle = self.one == other.one && self.two == other.two && self.few == other.few;
        small && middle && self.many == other.many && self.other == other.other
    }
}

impl PluralElements<u8> {
    ghost use Rattle.std.specs.Prelude.{◌≡◌};
    ghost use Rattle.icu_plurals.specs.Elements.{numbered};

    /// Elements with a value in exactly these slots and the last one: the number of the slot.
    pub(crate) fn numbered(present: &[bool; 8]) -> Self
        ensures { result ≡ numbered present.now }
    {
        PluralElements {
            explicit_zero: number_at(present, 0),
            explicit_one: number_at(present, 1),
            zero: number_at(present, 2),
            one: number_at(present, 3),
            two: number_at(present, 4),
            few: number_at(present, 5),
            many: number_at(present, 6),
            other: 7,
        }
    }
}

/// The number of a slot, if it is present.
fn number_at(present: &[bool; 8], slot: u8) -> Option<u8>
    requires { slot < 8 }
    ensures { result ≡ number_at present.now slot }
{
    if present[slot as usize] {
        Some(slot)
    } else {
        None
    }
}

impl<T: PartialEq> PartialEq for PluralElements<T> {
    ghost use Rattle.std.specs.Prelude.{◌≡◌};
    ghost use Rattle.icu_plurals.specs.Elements.{same_elements};
    ghost use Rattle.icu_plurals.specs.SameElements.{same_elements-per};

    ghost eq = { same_elements T.eq };

    ghost laws = { same_elements-per T.PartialEq.laws };

    fn eq(&self, other: &Self) -> bool
        ensures { result ≡ same_elements T.eq self.now other.now }
    {
        self.explicit_one == other.explicit_one && self.equal_but_for_explicit_one(other)
    }
}

impl<T: Eq> Eq for PluralElements<T> {
    ghost use Rattle.icu_plurals.specs.SameElements.{same_elements-equiv};

    ghost laws = { same_elements-equiv T.Eq.laws };
}
