//! Rows, put behind others one by one.
ghost use Rattle.std.specs.Prelude.{◌≡◌, ◌++◌, ◌∷◌, [], OnOk};
ghost use Rattle.program_show.specs.Summary.{count_row};

use file_help::page::{Row, row_of};
use ps_base::text::Text;
use std::alloc::{AllocError, Global};

/// A row of these texts.
pub(crate) fn push_row(
    alloc: Global,
    rows: &mut Vec<Row>,
    key: &str,
    value: Text,
) -> Result<(), AllocError>
    ensures { OnOk result (rows.new.items ≡ rows.old.items ++ record { key = key.now; value = value } ∷ []) }
{
    rows.push(row_of(alloc, key, value)?)?;
    Ok(())
}

/// The same with a copy of the value.
pub(crate) fn push_text(
    alloc: Global,
    rows: &mut Vec<Row>,
    key: &str,
    value: &str,
) -> Result<(), AllocError>
    ensures { OnOk result (rows.new.items ≡ rows.old.items ++ record { key = key.now; value = value.now } ∷ []) }
{
    push_row(alloc, rows, key, Text::copy_of(alloc, value)?)
}

/// A row that says how many there are.
pub(crate) fn push_count(
    alloc: Global,
    rows: &mut Vec<Row>,
    key: &str,
    count: usize,
) -> Result<(), AllocError>
    ensures { OnOk result (rows.new.items ≡ rows.old.items ++ count_row key.now count ∷ []) }
{
    let value = Text::from_string(format!(in alloc; "{count}")?);
    push_row(alloc, rows, key, value)
}
