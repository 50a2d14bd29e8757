//! Aligned tables.

ghost use Rattle.std.specs.Prelude.{◌≡◌, ◌++◌, OnOk, string_bytes};
ghost use Rattle.rme_cli_ask.specs.Tables as spec;

use std::alloc::AllocError;

/// What separates two columns.
const GAP: &str = "  ";

/// Appends a line for each row. A cell is as wide as the widest of its column, but the last of a row.
pub(crate) fn push_table(out: &mut String, rows: &[Vec<String>]) -> Result<(), AllocError>
    ensures { OnOk result (string_bytes out.new ≡ string_bytes out.old
        ++ spec.table_text (spec.rows_view rows.now)) }
{
    for row in rows {
        push_row(out, rows, row.as_slice())?;
        out.push_str("\n")?;
    }
    Ok(())
}

/// Appends the cells of a row of this table.
fn push_row(out: &mut String, rows: &[Vec<String>], cells: &[String]) -> Result<(), AllocError>
    ensures { OnOk result (string_bytes out.new ≡ string_bytes out.old
        ++ spec.table_row_text (spec.rows_view rows.now) 0 (spec.cells_view cells.now)) }
{
    for (column, cell) in cells.iter().enumerate() {
        if column + 1 < cells.len() {
            push_padded(out, cell.as_str(), width_of(rows, column))?;
            out.push_str(GAP)?;
        } else {
            out.push_str(cell.as_str())?;
        }
    }
    Ok(())
}

/// Appends a text, and spaces up to this width.
fn push_padded(out: &mut String, text: &str, width: usize) -> Result<(), AllocError>
    ensures { OnOk result (string_bytes out.new ≡ string_bytes out.old ++ spec.padded_text width text.now) }
{
    out.push_str(text)?;
    let missing = width.saturating_sub(text.len());
    for spaces in 0..missing {
        out.push_str(" ")?;
    }
    Ok(())
}

/// The greatest width of the cells of a column.
fn width_of(rows: &[Vec<String>], column: usize) -> usize
    ensures { result ≡ spec.width_of (spec.rows_view rows.now) column }
{
    let mut width = 0;
    for row in rows {
        width = width.max(cell_width(row.as_slice(), column));
    }
    width
}

/// The width of the cell of a column; 0 in a shorter row.
fn cell_width(cells: &[String], column: usize) -> usize
    ensures { result ≡ spec.cell_width column (spec.cells_view cells.now) }
{
    match cells.get(column) {
        Some(cell) => cell.len(),
        None => 0,
    }
}
