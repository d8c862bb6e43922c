//! Values for plural categories, made slot by slot.

ghost use Rattle.std.specs.Prelude.{◌≡◌, ◌<◌, ℕ, IfOk, Option};
ghost use Rattle.icu_dimension_data.specs.ByCategory.{elements_in};

use icu_plurals::PluralElements;
use std::alloc::{AllocError, Global};

/// The value for all other numbers.
pub fn other_of<T>(elements: &PluralElements<T>) -> &T
    ensures { result.now ≡ elements.now.other }
{
    match elements.slot(7) {
        Some(value) => value,
        None => unreachable!(),
    }
}

/// What makes the values of plural elements, slot by slot.
pub trait SlotMaker {
    /// A value.
    type Made: Drop;

    /// The value in a slot, if there is one.
    ghost in_slot: { Self → ℕ → Option Self.Made };

    /// The value for all other numbers.
    ghost for_others: { Self → Self.Made };

    /// The value in one of the first seven slots, if there is one.
    fn make(&self, alloc: Global, slot: u8) -> Result<Option<Self::Made>, AllocError>
        requires { slot < 7 }
        ensures { IfOk result (λ x. x ≡ in_slot self.now slot) };

    /// The value for all other numbers.
    fn make_other(&self, alloc: Global) -> Result<Self::Made, AllocError>
        ensures { IfOk result (λ x. x ≡ for_others self.now) };
}

/// The elements that are made so.
pub fn elements_made<M: SlotMaker>(
    alloc: Global,
    maker: &M,
) -> Result<PluralElements<M::Made>, AllocError>
    ensures { IfOk result
        (λ e. e ≡ elements_in (M.in_slot maker.now) (M.for_others maker.now)) }
{
    let elements = PluralElements::new(maker.make_other(alloc)?)
        .with_explicit_zero_value(maker.make(alloc, 0)?)
        .with_explicit_one_value(maker.make(alloc, 1)?)
        .with_zero_value(maker.make(alloc, 2)?)
        .with_one_value(maker.make(alloc, 3)?)
        .with_two_value(maker.make(alloc, 4)?)
        .with_few_value(maker.make(alloc, 5)?)
        .with_many_value(maker.make(alloc, 6)?);
    Ok(elements)
}
