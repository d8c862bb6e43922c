//! Numbers read from their digits.

ghost use Rattle.std.specs.Prelude.{◌≡◌, ℕ, ◌+◌, ◌-◌, ◌*◌, ◌<◌, ◌≤◌, ◌^◌, ◌==◌, All, length, replicate};
ghost use Rattle.std.specs.List.{suffix_len};
ghost use Rattle.std.specs.Int.Digits.{number_from_digits_after};
ghost use Rattle.icu_plurals.specs.Operands.{number_of, without_trailing_zeros};
ghost use Rattle.icu_plurals.specs.WholeNumber.{whole_number};

/// The least number with the eighteen digits that are seen of a whole number.
const LEAST_OF_EIGHTEEN: u64 = 100_000_000_000_000_000;

/// A whole number of any size, by its eighteen lowest digits.
#[derive(Clone, Copy)]
pub(crate) struct WholeNumber {
    pub(crate) lowest: u64,
    /// Whether a digit above these isn't zero.
    pub(crate) is_large: bool,
}

/// The number with a digit written behind it.
fn with_digit(whole: WholeNumber, digit: u8) -> WholeNumber
    requires seen { whole.lowest < 10 ^ 18 }
    requires below_ten { digit < 10 }
    ensures seen { result.lowest < 10 ^ 18 }
    ensures digit { (n : ℕ) → whole ≡ whole_number n → result ≡ whole_number (n * 10 + digit) }
{
    WholeNumber {
        lowest: whole.lowest % LEAST_OF_EIGHTEEN * 10 + digit as u64,
        is_large: whole.is_large || LEAST_OF_EIGHTEEN <= whole.lowest,
    }
}

/// The number with digits written behind it.
pub(crate) fn with_digits(mut whole: WholeNumber, digits: &[u8]) -> WholeNumber
    requires seen { whole.lowest < 10 ^ 18 }
    requires below_ten { All (λ d. d < 10) digits.now }
    ensures seen { result.lowest < 10 ^ 18 }
    ensures digits { (n : ℕ) → whole ≡ whole_number n
        → result ≡ whole_number (number_from_digits_after 10 n digits.now) }
{
    for digit in digits {
        whole = with_digit(whole, *digit);
    }
    whole
}

/// The number with zeros written behind it.
pub(crate) fn with_zeros(mut whole: WholeNumber, count: usize) -> WholeNumber
    requires seen { whole.lowest < 10 ^ 18 }
    ensures seen { result.lowest < 10 ^ 18 }
    ensures zeros { (n : ℕ) → whole ≡ whole_number n
        → result ≡ whole_number (number_from_digits_after 10 n (replicate count 0)) }
{
    for _ in 0..count {
        whole = with_digit(whole, 0);
    }
    whole
}

/// The number that at most eighteen digits write.
pub(crate) fn number(digits: &[u8]) -> u64
    requires few { length digits.now ≤ 18 }
    requires below_ten { All (λ d. d < 10) digits.now }
    ensures { result ≡ number_of digits.now }
{
    let mut number = 0;
    for digit in digits {
        number = number * 10 + *digit as u64;
    }
    number
}

/// The digits without the zeros at their end.
pub(crate) fn without_trailing_zeros(digits: &[u8]) -> &[u8]
    ensures { result.now ≡ without_trailing_zeros digits.now }
{
    digits.split_at(count_without_trailing_zeros(digits)).0
}

/// How many of the digits are left without the zeros at their end.
fn count_without_trailing_zeros(digits: &[u8]) -> usize
    ensures { result ≡ length digits.now - suffix_len (λ d. d == 0) digits.now }
{
    let mut count = digits.len();
    while count > 0 && digits[count - 1] == 0 {
        count -= 1;
    }
    count
}
