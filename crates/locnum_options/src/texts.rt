//! Numbers in options, and texts that are cut at a byte.

ghost use Rattle.std.specs.Prelude.{◌≡◌, ◌<◌, option_map};
ghost use Rattle.locnum_options.specs.Texts.{cut_at, number_named, with_digit};

/// A number with a digit more; none where the byte is no digit or the number is too large.
fn with_digit(number: usize, byte: u8) -> Option<usize>
    ensures { result ≡ with_digit number byte }
{
    if byte < b'0' || byte > b'9' {
        return None;
    }
    number.checked_mul(10)?.checked_add((byte - b'0') as usize)
}

/// The number that a text of digits is.
#[tactic(auto, unfolding(crate::specs::Texts::number_from, crate::specs::Texts::number_named))]
pub(crate) fn number_named(text: &str) -> Option<usize>
    ensures { result ≡ number_named text.now }
{
    let bytes = text.as_bytes();
    if bytes.is_empty() {
        return None;
    }
    let mut number = 0;
    for byte in bytes {
        number = with_digit(number, *byte)?;
    }
    Some(number)
}

/// What stands before the first such character of ASCII, and behind it.
pub(crate) fn cut_at(text: &str, mark: char) -> Option<(&str, &str)>
    requires { mark < 128 }
    ensures { option_map (λ p. (p.0.now, p.1.now)) result ≡ cut_at mark text.now }
{
    text.split_once(mark)
}
