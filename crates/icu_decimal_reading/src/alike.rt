//! How far two texts are alike.

ghost use Rattle.std.specs.Prelude.{◌≡◌, chars};
ghost use Rattle.icu_decimal_reading.specs.Reading.{alike};

/// How many bytes the characters take with which both texts begin.
pub(crate) fn bytes_alike(one: &str, other: &str) -> usize
    ensures { result ≡ alike (chars one.now) (chars other.now) }
{
    let mut byte = 0;
    let mut others = other.chars();
    for character in one.chars() {
        let Some(met) = others.next() else {
            return byte;
        };
        if character != met {
            return byte;
        }
        byte += character.len_utf8();
    }
    byte
}
