//! All tables of a document: those of numbers, and those of money, percents and units.

ghost use Rattle.serde_json.specs.View.{view};
ghost use Rattle.icu_table_entries.specs.Reading.{Gives};
ghost use Rattle.icu_dimension_tables.specs.AllTables.{all_tables_at, all_tables_of};

use crate::tables::DimensionTables;
use icu_table_entries::TableError;
use icu_table_entries::whole_numbers::value_of;
use icu_tables::Tables;
use serde_json::Value;
use std::alloc::Global;
use std::marker::Model;

/// The data of formatters of numbers, money, percents and units, read from a JSON document (this
/// project's own format, `docs/FORMATS.md`).
#[derive(Drop)]
pub struct AllTables {
    pub(crate) numbers: Tables,
    pub(crate) dimension: DimensionTables,
}

impl Model for AllTables {
    ghost use Rattle.icu_dimension_tables.specs.AllTables.{AllData};

    ghost Value = { AllData };

    ghost view = { λ t. record { numbers = t.numbers; dimension = t.dimension } };
}

/// The tables of a value, those of numbers first.
#[tactic(auto, unfolding(crate::specs::AllTables::all_tables_at))]
fn all_tables_at(alloc: Global, value: &Value) -> Result<AllTables, TableError>
    ensures { Gives (λ x. x) result (all_tables_at (view value.now)) }
{
    let numbers = Tables::from_value(alloc, value)?;
    let dimension = DimensionTables::from_value(alloc, value)?;
    Ok(AllTables { numbers, dimension })
}

impl AllTables {
    /// The tables of a JSON text, or its first fault. The text is read once.
    ///
    /// The tables are those of [`Tables::from_json`] and of [`DimensionTables::from_json`]. Where
    /// both calls reject the text, the error is that of the first call.
    // promise: Both tables of a text are read as each alone is read.
    // mutations: money_judged_before_numbers
    pub fn from_json(alloc: Global, text: &str) -> Result<AllTables, TableError>
        ensures { Gives (λ x. x) result (all_tables_of text.now) }
    {
        let value = value_of(alloc, text)?;
        all_tables_at(alloc, &value)
    }
}
