// Tables of lines that count up by one, at an offset of a lent text (paper 01, Text): portfolios, resources, constraints and outputs.
// The contracts cite the definitions of rules_text.
#![tactic(auto)]

ghost use Rattle.std.specs.Prelude.{◌≡◌, ℕ, ◌+◌, length, drop};
ghost use mathlib.Core.List.{[], ◌∷◌, map, flat_map};
ghost use Rattle.std.proofs.lemmas.List.Edits.{sets};
ghost use Rattle.rules_text.specs.Numbers.{lines};
ghost use Rattle.rules_text.specs.Tables.{cell, counting};
ghost use Rattle.rules_text.specs.Offsets.{bytes_of, id_row_at};

use cells::put;
use rules_text::Row;
use text_rows::{four_at, mark_at, one_at, two_at};

// How many lines a table has, and the offset of the line after it.
#[derive(Clone, Copy)]
pub struct Table {
    pub count: usize,
    pub next: usize,
}

// The lines of an id that counts up and a value, at an offset: all are counted, and the values for which there are cells are kept. Every other cell stays as it was.
// It is compiled for each reader anew, so that the reader stands in this loop.
fn column_at<F: Fn(&[u8], usize, usize) -> Option<Row<2>>>(
    read: F,
    s: &[u8],
    at: usize,
    cells: &mut [i64],
) -> Table
    requires callable { F.IsAlwaysCallable read }
    requires reads { (t : _) (p n : ℕ) (r : _) → F.post read t p n r → r ≡ id_row_at 2 n t.now p }
    ensures count_value { result.count ≡ length (counting 2 (lines (drop at s.now))) }
    ensures cells_after { cells.new ≡ sets cells.old 0 (map (cell 1) (counting 2 (lines (drop at s.now)))) }
    ensures s_value { lines (drop result.next s.now) ≡ drop result.count (lines (drop at s.now)) }
    ensures next_value { result.next ≡ at + bytes_of result.count (lines (drop at s.now)) }
{
    let mut count = 0;
    let mut next = at;
    while let Some(row) = read(s, next, count) {
        put(cells, count, row.v[1]);
        next = row.next;
        count += 1;
    }
    Table { count, next }
}

// The same, of the portfolios' sellers.
pub fn sellers_at(s: &[u8], at: usize, cells: &mut [i64]) -> Table
    ensures count_value { result.count ≡ length (counting 2 (lines (drop at s.now))) }
    ensures cells_after { cells.new ≡ sets cells.old 0 (map (cell 1) (counting 2 (lines (drop at s.now)))) }
    ensures s_value { lines (drop result.next s.now) ≡ drop result.count (lines (drop at s.now)) }
    ensures next_value { result.next ≡ at + bytes_of result.count (lines (drop at s.now)) }
{
    column_at(mark_at, s, at, cells)
}

// The same, of the constraints' marks.
pub fn marks_at(s: &[u8], at: usize, cells: &mut [i64]) -> Table
    ensures count_value { result.count ≡ length (counting 2 (lines (drop at s.now))) }
    ensures cells_after { cells.new ≡ sets cells.old 0 (map (cell 1) (counting 2 (lines (drop at s.now)))) }
    ensures s_value { lines (drop result.next s.now) ≡ drop result.count (lines (drop at s.now)) }
    ensures next_value { result.next ≡ at + bytes_of result.count (lines (drop at s.now)) }
{
    column_at(one_at, s, at, cells)
}

// The same with two values, in turn: the portfolio and the start of each resource.
pub fn owners_at(s: &[u8], at: usize, cells: &mut [i64]) -> Table
    ensures count_value { result.count ≡ length (counting 3 (lines (drop at s.now))) }
    ensures cells_after { cells.new ≡ sets cells.old 0 (flat_map (λ row. cell 1 row ∷ cell 2 row ∷ []) (counting 3 (lines (drop at s.now)))) }
    ensures s_value { lines (drop result.next s.now) ≡ drop result.count (lines (drop at s.now)) }
    ensures next_value { result.next ≡ at + bytes_of result.count (lines (drop at s.now)) }
{
    let mut count = 0;
    let mut next = at;
    while let Some(row) = two_at(s, next, count) {
        put(cells, 2 * count, row.v[1]);
        put(cells, 2 * count + 1, row.v[2]);
        next = row.next;
        count += 1;
    }
    Table { count, next }
}

// The same with four values: those of an interval's resources.
pub fn outputs_at(s: &[u8], at: usize, cells: &mut [i64]) -> Table
    ensures count_value { result.count ≡ length (counting 5 (lines (drop at s.now))) }
    ensures cells_after { cells.new ≡ sets cells.old 0 (flat_map (λ row. cell 1 row ∷ cell 2 row ∷ cell 3 row ∷ cell 4 row ∷ []) (counting 5 (lines (drop at s.now)))) }
    ensures s_value { lines (drop result.next s.now) ≡ drop result.count (lines (drop at s.now)) }
    ensures next_value { result.next ≡ at + bytes_of result.count (lines (drop at s.now)) }
{
    let mut count = 0;
    let mut next = at;
    while let Some(row) = four_at(s, next, count) {
        put(cells, 4 * count, row.v[1]);
        put(cells, 4 * count + 1, row.v[2]);
        put(cells, 4 * count + 2, row.v[3]);
        put(cells, 4 * count + 3, row.v[4]);
        next = row.next;
        count += 1;
    }
    Table { count, next }
}
