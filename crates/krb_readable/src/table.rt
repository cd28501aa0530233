//! The text of a table.

ghost use Rattle.std.specs.Prelude.{◌≡◌, ◌≤◌, ◌++◌, ℕ, IfOk, OnOk, string_bytes, replicate, slice_index, length, codes, All};
ghost use Rattle.std.specs.List.{flat_map, enumerate_from};
ghost use Rattle.krb_readable.specs.Table.{column_width, filled, spaced, line_of, table_text};

use crate::cell::width;
use crate::row::Row;
use crate::text::Text;
use std::alloc::{AllocError, Global};

/// The most characters that a column is filled to.
const WIDEST: usize = 256;

/// Writes the rows' lines, their columns filled to the widths of their widest cells, up to 256.
pub(crate) fn write_table(alloc: Global, text: &mut String, rows: &[Row]) -> Result<(), AllocError>
    ensures { OnOk result (string_bytes text.new ≡ string_bytes text.old ++ table_text rows.now) }
{
    let widths = column_widths(alloc, rows)?;
    write_lines(text, widths.as_slice(), rows)
}

// The width of each column that a row reaches.
fn column_widths(alloc: Global, rows: &[Row]) -> Result<Vec<usize>, AllocError>
    ensures { IfOk result (λ widths.
        (column : ℕ) → slice_index widths.items column ≡ column_width rows.now column) }
{
    let mut widths = Vec::new(alloc);
    for column in 0..columns(rows) {
        widths.push(column_width(rows, column))?;
    }
    Ok(widths)
}

// The greatest number of cells that a row has.
fn columns(rows: &[Row]) -> usize
    ensures { All (λ row. length row.cells ≤ result) rows.now }
{
    let mut most = 0;
    for row in rows {
        most = most.max(row.cells().len());
    }
    most
}

// The width of the widest cell of a column, up to 256.
fn column_width(rows: &[Row], column: usize) -> usize
    ensures { result ≡ column_width rows.now column }
{
    let mut most = 0;
    for row in rows {
        most = most.max(row.width_in(column));
    }
    most.min(WIDEST)
}

fn write_lines(text: &mut String, widths: &[usize], rows: &[Row]) -> Result<(), AllocError>
    ensures { OnOk result (string_bytes text.new
        ≡ string_bytes text.old ++ flat_map (line_of (slice_index widths.now)) rows.now) }
{
    for row in rows {
        write_line(text, widths, row)?;
    }
    Ok(())
}

fn write_line(text: &mut String, widths: &[usize], row: &Row) -> Result<(), AllocError>
    ensures { OnOk result (string_bytes text.new
        ≡ string_bytes text.old ++ line_of (slice_index widths.now) row.now) }
{
    write_cells(text, widths, row.cells())?;
    text.push_str(row.last().as_str())?;
    text.push('\n')
}

fn write_cells(text: &mut String, widths: &[usize], cells: &[Text]) -> Result<(), AllocError>
    ensures { OnOk result (string_bytes text.new ≡ string_bytes text.old
        ++ flat_map (spaced (slice_index widths.now)) (enumerate_from 0 cells.now)) }
{
    for (column, cell) in cells.iter().enumerate() {
        write_spaced(text, width_at(widths, column), cell)?;
    }
    Ok(())
}

fn width_at(widths: &[usize], column: usize) -> usize
    ensures { result ≡ slice_index widths.now column }
{
    widths.get(column).copied().unwrap_or(0)
}

// Writes a cell, filled with spaces up to a width, and two spaces.
fn write_spaced(text: &mut String, to: usize, cell: &Text) -> Result<(), AllocError>
    ensures { OnOk result (string_bytes text.new
        ≡ string_bytes text.old ++ (filled to cell.now ++ codes "  ")) }
{
    text.push_str(cell.as_str())?;
    write_spaces(text, to.saturating_sub(width(cell)))?;
    text.push_str("  ")
}

fn write_spaces(text: &mut String, count: usize) -> Result<(), AllocError>
    ensures { OnOk result (string_bytes text.new ≡ string_bytes text.old ++ replicate count 32) }
{
    for _ in 0..count {
        text.push(' ')?;
    }
    Ok(())
}
