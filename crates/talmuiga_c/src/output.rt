//! The front of an output of C's.

ghost use Rattle.decimal_lines.specs.SingleText.{HoldsIfRoom};

/// Puts a text to the front of the output, if it fits, and answers its length.
pub fn put_text(output: &mut [u8], text: &[u8]) -> usize
    ensures { HoldsIfRoom output.old output.new text.now result }
{
    if text.len() <= output.len() {
        output[..text.len()].copy_from_slice(text);
    }
    text.len()
}
