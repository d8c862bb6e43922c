//! Lists of digits: a product with a small number, and how many zeros stand at the front.

ghost use Rattle.std.specs.Prelude.{◌≡◌, ◌≢◌, ◌*◌, ◌^◌, ◌<◌, ◌≤◌, ◌++◌, length, slice_index, drop, replicate, min};
ghost use Rattle.fixed_decimal.specs.Unsigned.{AreDigits};
ghost use Rattle.fixed_decimal.specs.Size.{weighed};

/// Ten to the 28th power: more than each power of a base whose letter is known.
pub(crate) const LARGE: u128 = 10_000_000_000_000_000_000_000_000_000;

/// Multiplies the number that the digits write; there has to be room for the product.
pub(crate) fn multiply(digits: &mut [u8], factor: u32)
    requires digits { AreDigits digits.old }
    requires small { factor ≤ 10 ^ 7 }
    requires room { weighed 0 digits.old * factor < 10 ^ length digits.old }
    ensures product { weighed 0 digits.new ≡ weighed 0 digits.old * factor }
    ensures digits { AreDigits digits.new }
    ensures length { length digits.new ≡ length digits.old }
{
    let mut left = digits.len();
    let mut carry: u32 = 0;
    while left > 0 {
        left -= 1;
        let value = digits[left] as u32 * factor + carry;
        digits[left] = (value % 10) as u8;
        carry = value / 10;
    }
}

/// The number that the digits write, or `LARGE` if it is greater.
pub(crate) fn whole_up_to_large(digits: &[u8]) -> u128
    requires { AreDigits digits.now }
    ensures { result ≡ min (weighed 0 digits.now) LARGE }
{
    let mut value: u128 = 0;
    for digit in digits {
        value = (value * 10 + *digit as u128).min(LARGE);
    }
    value
}

/// How many zeros the digits begin with, `most` at most.
pub(crate) fn zeros_in_front(digits: &[u8], most: usize) -> usize
    requires { most ≤ length digits.now }
    ensures within { result ≤ most }
    ensures zeros { digits.now ≡ replicate result 0 ++ drop result digits.now }
    ensures stops { result < most → slice_index digits.now result ≢ 0 }
{
    let mut first = 0;
    while first < most && digits[first] == 0 {
        first += 1;
    }
    first
}
