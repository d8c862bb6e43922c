//! How many bytes of an input are read at once.

/// How many bytes are read at once of an input, besides all of them: of more than 1,000 bytes so many.
pub(crate) fn at_once(input: &[u8], long: &'static [usize]) -> &'static [usize] {
    if input.len() > 1000 {
        long
    } else {
        &[1, 2, 3, 7]
    }
}
