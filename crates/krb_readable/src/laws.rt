//! Laws over the definitions, for readers and for proofs to cite. Each function has an empty body: its
//! contract is the law.

ghost use Rattle.std.specs.Prelude.{◌≡◌, ◌≤◌, ◌<◌, ◌++◌, ◌∷◌, [], ℕ, List, pos, Contains, length, codes};
ghost use Rattle.jiff_core.specs.Calendar.{days_from_civil, IsCivilDate};
ghost use Rattle.krb_readable.specs.Date.{date_of, day_text, date_text};
ghost use Rattle.krb_readable.specs.Table.{IsNarrow, TableRow, cell_at, column_width, line_of, start_of, width};

/// States that columns line up: in the line of each row of a table whose cells have at most 256
/// characters, the cell of a column begins after the same number of characters.
pub fn columns_line_up()
    ensures cells { (rows : List TableRow) (row : TableRow) (column : ℕ) → Contains rows row
        → IsNarrow row → column < length row.cells → (before : List ℕ) × (after : List ℕ)
        × (line_of (column_width rows) row ≡ before ++ (cell_at column row ++ after))
        × (width before ≡ start_of (column_width rows) column) }
    ensures last { (rows : List TableRow) (row : TableRow) → Contains rows row → IsNarrow row → (before : List ℕ)
        × (line_of (column_width rows) row ≡ before ++ (row.last ++ 10 ∷ []))
        × (width before ≡ start_of (column_width rows) (length row.cells)) }
{}

/// States that the text of a day is that of the date which the calendar has for it.
pub fn days_have_their_dates()
    ensures { (year month place day : ℕ) → IsCivilDate (pos year) month place → 1970 ≤ year
        → days_from_civil (pos year) month place ≡ pos day → day_text day ≡ date_of year month place }
{}

/// States the texts of five times, as other programs have them.
pub fn known_dates()
    ensures first { date_text 0 ≡ codes "1970-01-01T00:00:00Z" }
    ensures leap_day { date_text 951_868_799 ≡ codes "2000-02-29T23:59:59Z" }
    ensures recent { date_text 1_795_570_309 ≡ codes "2026-11-25T01:31:49Z" }
    ensures no_leap_day { date_text 4_107_542_400 ≡ codes "2100-03-01T00:00:00Z" }
    ensures last { date_text 4_294_967_295 ≡ codes "2106-02-07T06:28:15Z" }
{}
