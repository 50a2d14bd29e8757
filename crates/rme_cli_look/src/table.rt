//! Tables of text with aligned columns.

use std::alloc::{AllocError, Global};

/// The text between two columns.
const GAP: &str = "  ";

/// Rows of text under a header. All texts are ASCII.
#[derive(Drop)]
pub(crate) struct Table {
    rows: Vec<Vec<String>>,
}

impl Table {
    /// A table with this header and no other row.
    pub(crate) fn new(alloc: Global, header: &[&str]) -> Result<Table, AllocError> {
        let mut row = Vec::new(alloc);
        for title in header {
            row.push(text_of(alloc, title)?)?;
        }
        let mut rows = Vec::new(alloc);
        rows.push(row)?;
        Ok(Table { rows })
    }

    /// Whether there is no row but the header.
    pub(crate) fn is_empty(&self) -> bool {
        self.rows.len() <= 1
    }

    /// Adds a row.
    pub(crate) fn push(&mut self, row: Vec<String>) -> Result<(), AllocError> {
        self.rows.push(row)?;
        Ok(())
    }

    /// Appends the table, each row with a newline. No spaces follow the last text of a row.
    pub(crate) fn push_to(&self, out: &mut String) -> Result<(), AllocError> {
        for row in &self.rows {
            self.push_row(out, row.as_slice())?;
            out.push_str("\n")?;
        }
        Ok(())
    }

    fn push_row(&self, out: &mut String, row: &[String]) -> Result<(), AllocError> {
        let mut column: usize = 0;
        let mut spaces: usize = 0;
        for text in row {
            push_spaces(out, spaces)?;
            out.push_str(text.as_str())?;
            let width = self.width(column);
            spaces = width.saturating_sub(text.len()).saturating_add(GAP.len());
            column = column.saturating_add(1);
        }
        Ok(())
    }

    /// The length of the longest text of a column, in bytes.
    fn width(&self, column: usize) -> usize {
        let mut width = 0;
        for row in &self.rows {
            let length = match row.get(column) {
                Some(text) => text.len(),
                None => 0,
            };
            if length > width {
                width = length;
            }
        }
        width
    }
}

/// Appends this number of spaces.
fn push_spaces(out: &mut String, count: usize) -> Result<(), AllocError> {
    for _ in 0..count {
        out.push_str(" ")?;
    }
    Ok(())
}

/// A text of a row.
pub(crate) fn text_of(alloc: Global, text: &str) -> Result<String, AllocError> {
    format!(in alloc; "{text}")
}

/// A number as a text of a row, or this text for none.
pub(crate) fn number_or(
    alloc: Global,
    number: Option<u32>,
    none: &str,
) -> Result<String, AllocError> {
    match number {
        Some(number) => format!(in alloc; "{number}"),
        None => text_of(alloc, none),
    }
}
