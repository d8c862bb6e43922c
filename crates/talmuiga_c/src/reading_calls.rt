//! The call that reads the text of a number back.

ghost use Rattle.std.specs.Prelude.{◌≡◌};
ghost use Rattle.talmuiga_c.specs.Handle.{holding};
ghost use Rattle.talmuiga_c.specs.ReadBack.{IsReadBack};
ghost use Rattle.talmuiga_c.specs.declared.kept.Kept.{Kept};

use crate::handle::Room;
use crate::read_back::read_in;
use std::alloc::Global;

/// Reads the text of a number back, as the formatter writes numbers in full, and writes its decimal
/// in plain digits, if they fit. Sets their length, and the byte of a fault.
// promise: A text is read as the decimal that it shows, or rejected.
// mutations: read_without_its_fraction, read_fault_at_the_front
// promise: Only plain numbers that are readable are read back.
// mutations: read_compact_as_plain, read_unreadable_numbers
#[unsafe(no_mangle)]
pub extern "C" fn talmuiga_formatter_read_sized(
    alloc: Global,
    formatter: &mut Room,
    text: &[u8],
    output: &mut [u8],
    length: &mut usize,
    byte: &mut usize,
) -> u32
    ghost kept: { Kept }
    requires open { formatter.old.held ≡ holding kept }
    ensures read { IsReadBack kept text.now output.old output.new length.new byte.new result }
    ensures handed_back { formatter.new.held ≡ holding kept }
{
    let lent = formatter.lend();
    let status = read_in(alloc, lent.kept(), text, output, length, byte);
    formatter.back(lent);
    status
}
