//! Digits by characters of any length, as bytes, for which there is room.
ghost use Rattle.std.specs.Prelude.{◌≡◌, ◌+◌, ◌*◌, ◌%◌, ◌<◌, ◌≤◌, ◌++◌, All, length, vec_len, vec_capacity};
ghost use Rattle.std.specs.Char.{encode_utf8};
ghost use Rattle.std.specs.Str.{IsUtf8};
ghost use Rattle.writeable.specs.Events.{digit_events, text_of};

/// How many bytes the longest of the characters has, which is the one with the greatest code.
pub(crate) fn widest(characters: &[char; 10]) -> usize
    ensures upper_bound { result ≤ 4 }
    ensures widths { All (λ c. length (encode_utf8 c) ≤ result) characters.now }
{
    let mut greatest = '\0';
    for character in characters {
        if greatest < *character {
            greatest = *character;
        }
    }
    greatest.len_utf8()
}

/// Appends the character of each digit, none of which has more than `width` bytes.
pub(crate) fn push_wide(
    mut out: Vec<u8>,
    digits: &[u8],
    characters: &[char; 10],
    width: usize,
) -> Vec<u8>
    requires below_ten { All (λ d. d < 10) digits.now }
    requires widths { All (λ c. length (encode_utf8 c) ≤ width) characters.now }
    requires room { vec_len out + length digits.now * width ≤ vec_capacity out }
    ensures items { result.items ≡ out.items ++ text_of (digit_events characters.now digits.now) }
    ensures len { vec_len result ≤ vec_len out + length digits.now * width }
    ensures capacity { vec_capacity result ≡ vec_capacity out }
    ensures is_text { IsUtf8 (text_of (digit_events characters.now digits.now)) }
{
    for index in 0..digits.len() {
        out = push_reserved_character(out, characters[digits[index] as usize]);
    }
    out
}

/// Appends a character in UTF-8.
#[inline(always)]
fn push_reserved_character(mut out: Vec<u8>, character: char) -> Vec<u8>
    requires room { vec_len out + length (encode_utf8 character) ≤ vec_capacity out }
    ensures items { result.items ≡ out.items ++ encode_utf8 character }
    ensures len { vec_len result ≡ vec_len out + length (encode_utf8 character) }
    ensures capacity { vec_capacity result ≡ vec_capacity out }
    ensures is_text { IsUtf8 (encode_utf8 character) }
{
    let code = character as u32;
    if code < 0x80 {
        out.push_reserved(code as u8);
        return out;
    }
    if code < 0x800 {
        out.push_reserved((0xc0 + code / 0x40) as u8);
        out.push_reserved(continuation(code));
        return out;
    }
    if code < 0x1_0000 {
        out.push_reserved((0xe0 + code / 0x1000) as u8);
        out.push_reserved(continuation(code / 0x40));
        out.push_reserved(continuation(code));
        return out;
    }
    out.push_reserved((0xf0 + code / 0x4_0000) as u8);
    out.push_reserved(continuation(code / 0x1000));
    out.push_reserved(continuation(code / 0x40));
    out.push_reserved(continuation(code));
    out
}

/// A byte behind the first of a character: its six lowest bits.
#[inline(always)]
fn continuation(bits: u32) -> u8
    ensures { result ≡ 128 + bits % 64 }
{
    (0x80 + bits % 0x40) as u8
}
