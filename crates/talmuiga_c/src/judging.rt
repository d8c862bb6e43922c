//! Why tables are rejected, as a text.

ghost use Rattle.talmuiga_c.specs.Faults.{IsJudged};

use crate::output::put_text;
use crate::status;
use decimal_lines::{TablesFault, judge_tables};
use icu_table_entries::TableError;
use std::alloc::Global;

/// Judges the bytes of a file of tables, and writes why they are rejected, if that fits; sets the
/// length of the text, which is 0 where there is none.
pub fn judge_in_words(alloc: Global, tables: &[u8], output: &mut [u8], length: &mut usize) -> u32
    ensures { IsJudged tables.now output.old output.new length.new result }
{
    *length = 0;
    match judge_tables(alloc, tables) {
        Ok(()) => status::DONE,
        Err(TablesFault::Refused(TableError::OutOfMemory)) => status::OUT_OF_MEMORY,
        Err(fault) => match fault.to_string(alloc) {
            Ok(text) => {
                *length = put_text(output, text.as_bytes());
                status::TABLES_REFUSED
            }
            Err(_) => status::OUT_OF_MEMORY,
        },
    }
}
