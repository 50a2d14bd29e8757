//! The rows of a table: a header, and a row for each item of a list.

ghost use Rattle.std.specs.Prelude.{◌≡◌, ◌∷◌, ℕ, List, IfOk, string_bytes};
ghost use Rattle.rme_cli_ask.specs.Tables as spec;

use std::alloc::{AllocError, Global};

/// The way to show items of this type, each in a row.
pub(crate) trait RowOf<T> {
    /// The texts of the cells of an item with this number.
    ghost cells_of: { Self → ℕ → T → List (List ℕ) };

    /// The cells of an item with this number.
    fn row(&self, alloc: Global, number: usize, item: &T) -> Result<Vec<String>, AllocError>
        ensures { IfOk result (λ row. spec.row_view row ≡ cells_of self.now number item.now) };
}

/// A header of these titles, and a row for each item, which are numbered from 0.
pub(crate) fn rows_of<T, V: RowOf<T>>(
    alloc: Global,
    titles: &[&str],
    items: &[T],
    view: &V,
) -> Result<Vec<Vec<String>>, AllocError>
    ensures { IfOk result (λ rows. spec.rows_view rows.items
        ≡ spec.titles_view titles.now ∷ spec.numbered_rows (V.cells_of view.now) 0 items.now) }
{
    let mut rows = vec![in alloc; header(alloc, titles)?]?;
    for (number, item) in items.iter().enumerate() {
        rows.push(view.row(alloc, number, item)?)?;
    }
    Ok(rows)
}

/// A header of a lock's name and of this title, and the row of one lock.
pub(crate) fn rows_of_lock(
    alloc: Global,
    lock: &str,
    title: &str,
    cell: String,
) -> Result<Vec<Vec<String>>, AllocError>
    ensures { IfOk result (λ rows. spec.rows_view rows.items
        ≡ spec.lock_table lock.now title.now (string_bytes cell)) }
{
    let row = vec![in alloc; String::from_str(alloc, lock)?, cell]?;
    Ok(vec![in alloc; header(alloc, &["LOCK", title])?, row]?)
}

/// The cells of these titles.
fn header(alloc: Global, titles: &[&str]) -> Result<Vec<String>, AllocError>
    ensures { IfOk result (λ row. spec.row_view row ≡ spec.titles_view titles.now) }
{
    let mut row = Vec::new(alloc);
    for title in titles {
        row.push(String::from_str(alloc, title)?)?;
    }
    Ok(row)
}
