//! Laws of all symbols and compact tables. The functions do nothing: each is its contract.

ghost use Rattle.std.specs.Prelude.{◌≡◌, ◌↔◌, List, IsOk, IsTrue};
ghost use Rattle.icu_decimal_data.specs.CompactTable.{IsCompactTable, TableEntry};
ghost use Rattle.icu_decimal_data.specs.Faithful.{KeptMeansFull};
ghost use Rattle.icu_decimal_data.specs.PackedTable.{IsPackable, PackableIsMade};
ghost use Rattle.icu_decimal_data.specs.TableBytes.{table_bytes};
ghost use Rattle.icu_decimal_data.specs.TableReading.{table_in, table_step};

use crate::compact::CompactPatterns;
use fixed_decimal::laws::magnitude_is_the_greatest_power;
pub use icu_decimal_symbols::laws::symbols_are_read_again;
use icu_pattern::PatternBackend;
use icu_plurals::laws::exactly_is_the_number;

/// A table means the same as the map that it is made of: at each magnitude it has the map's
/// exponent, and each significand selects the same pattern.
///
/// This holds of each map that `CompactPatterns::new` accepts, if each type that repeats the
/// patterns of its predecessor has the same exponent, and each skipped type has exponent 0 and no
/// text in its patterns.
// promise: What is kept means what the whole map means.
pub fn kept_means_full()
    ensures { KeptMeansFull }
{
    exactly_is_the_number();
    magnitude_is_the_greatest_power();
}

/// The entries of every table are a compact table: types rise, exponents don't fall, none is above
/// its type and none is more than 15 below it.
// promise: Types rise, exponents don't fall, none is above its type.
pub fn entries_are_a_compact_table<P: PatternBackend>(table: &CompactPatterns<P>)
    ensures { IsCompactTable table.now }
{
    table.is_compact_table();
}

/// Two tables are equal exactly if their entries are the same.
pub fn equal_tables_are_the_same<P: PatternBackend>()
    ensures { (a b : _) → IsTrue (⟦<CompactPatterns<P> as PartialEq>⟧.eq a b) ↔ (a ≡ b) }
{}

/// Two tables are equal exactly if their byte strings are.
// promise: Tables are equal exactly where their byte strings are.
pub fn equal_tables_have_equal_bytes<P: PatternBackend>()
    ensures { (a b : List TableEntry) → IsPackable P.accepted a → IsPackable P.accepted b
        → IsTrue (⟦<CompactPatterns<P> as PartialEq>⟧.eq a b) ↔ (table_bytes a ≡ table_bytes b) }
{}

/// `CompactView::parse` accepts the byte string of a table, which `CompactPatterns::as_bytes`
/// borrows and `pack` copies, and the view shows the table.
// promise: The bytes of a table are read again as this table.
pub fn tables_are_read_again<P: PatternBackend>()
    ensures { (t : List TableEntry) → IsPackable P.accepted t
        → IsOk (table_step P.accepted (table_bytes t)) × (table_in (table_bytes t) ≡ t) }
{}

/// `CompactPatterns::new` makes every table that `CompactView::parse` accepts, from the map of the
/// table's own entries.
// promise: Each table that can be packed is one that `new` makes.
pub fn packable_tables_are_made()
    ensures { PackableIsMade }
{}
