//! A row of a table.

ghost use Rattle.std.specs.Prelude.{◌≡◌, IfOk, map};
ghost use Rattle.krb_readable.specs.Table.{TableRow, cell_at, width};

use crate::cell::width;
use crate::text::Text;
use std::alloc::{AllocError, Global};
use std::marker::Model;

/// A row: the cells of the columns that are filled with spaces, and that of the last column.
#[derive(Drop)]
pub(crate) struct Row {
    cells: Vec<Text>,
    last: Text,
}

impl Model for Row {
    ghost Value = { TableRow };

    ghost view = { λ r. record { cells = r.cells.items; last = r.last } };
}

impl Row {
    /// Makes a row of its cells.
    pub(crate) fn new<const N: usize>(
        alloc: Global,
        cells: [Text; N],
        last: Text,
    ) -> Result<Self, AllocError>
        ensures { IfOk result (λ row. row ≡ record { cells = cells.entry; last = last }) }
    {
        Ok(Row {
            cells: Vec::from_array(alloc, cells)?,
            last,
        })
    }

    /// Makes a row of copies of texts.
    pub(crate) fn copied(alloc: Global, cells: &[&str], last: &str) -> Result<Self, AllocError>
        ensures { IfOk result (λ row.
            row ≡ record { cells = map (λ text. text.now) cells.now; last = last.now }) }
    {
        let mut copies = Vec::with_capacity(alloc, cells.len())?;
        for text in cells {
            copies.push(Text::of(alloc, text)?)?;
        }
        Ok(Row {
            cells: copies,
            last: Text::of(alloc, last)?,
        })
    }

    /// Returns the cells of the columns that are filled with spaces.
    pub(crate) fn cells(&self) -> &[Text]
        ensures { result.now ≡ self.now.cells }
    {
        self.cells.as_slice()
    }

    /// Returns the cell of the last column.
    pub(crate) fn last(&self) -> &Text
        ensures { result.now ≡ self.now.last }
    {
        &self.last
    }

    /// Returns the width of the cell in a column, or 0 if the row ends before the column.
    pub(crate) fn width_in(&self, column: usize) -> usize
        ensures { result ≡ width (cell_at column self.now) }
    {
        match self.cells().get(column) {
            Some(cell) => width(cell),
            None => 0,
        }
    }
}
