//! Why a file of tables is rejected.

ghost use Rattle.std.specs.Prelude.{◌≡◌, IfErr, OnOk, Ok};
ghost use Rattle.icu_tables.specs.Tables.{tables_of};
ghost use Rattle.decimal_lines.specs.TableFaults.{IsFault, tables_judged, text_judged};

use icu_table_entries::TableError;
use icu_tables::Tables;
use std::alloc::Global;
use std::str;
use thiserror::Error;

/// Why a file of tables is rejected.
#[derive(Clone, Copy, Debug, PartialEq, Eq, Error)]
pub enum TablesFault {
    /// The file isn't UTF-8.
    #[error("not UTF-8")]
    NotUtf8,
    /// Its text is rejected.
    #[error("{0}")]
    Refused(TableError),
}

/// Whether a text of tables is accepted, or why not.
#[tactic(auto, using(crate::proofs::Judged::judged))]
fn judge_text(alloc: Global, text: &str) -> Result<(), TablesFault>
    ensures ok { OnOk result (text_judged (tables_of text.now) ≡ Ok tt) }
    ensures refused { IfErr result (λ fault. IsFault (text_judged (tables_of text.now)) fault) }
{
    match Tables::from_json(alloc, text) {
        Ok(_) => Ok(()),
        Err(error) => Err(TablesFault::Refused(error)),
    }
}

/// Whether the bytes of a file of tables are accepted, or why not (this project's own).
///
/// The same files are accepted as by [`Mode::make`](crate::Mode::make), for any arguments.
// promise: Exactly tables in UTF-8 are accepted, others by their fault.
// mutations: judged_refused_tables_accepted
#[tactic(auto, using(crate::proofs::Judged::judged))]
pub fn judge_tables(alloc: Global, file: &[u8]) -> Result<(), TablesFault>
    ensures ok { OnOk result (tables_judged file.now ≡ Ok tt) }
    ensures refused { IfErr result (λ fault. IsFault (tables_judged file.now) fault) }
{
    let Ok(text) = simdutf8::compat::from_utf8(file) else {
        return Err(TablesFault::NotUtf8);
    };
    judge_text(alloc, text)
}
