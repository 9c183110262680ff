// The table of an interval's shift factors, at an offset of a lent text (paper 01, Text). The contracts cite specs/Factors and the definitions of rules_text.
#![tactic(auto)]

ghost use Rattle.std.specs.Prelude.{◌≡◌, ℕ, ◌+◌, ◌*◌, ◌≤◌, ◌<◌, length, drop, set};
ghost use Rattle.rules_text.specs.Numbers.{lines, row};
ghost use Rattle.rules_text.specs.Tables.{if_suits};
ghost use Rattle.rules_text.specs.Offsets.{line_at, bytes_of};
ghost use Rattle.rules_parts.specs.Parts.{place, is_factor, factor_cell, factor_rows, with_factors};
ghost use Rattle.factor_table.specs.Factors.{as_factor, factors_of, Read};

use cells::put;
use rules_interval::Interval;
use text_tables::Table;
use text_triples::ids_triple_at;

// Ids below this have one digit.
const ONE_DIGIT: usize = 10;

// A factor's constraint and value, with the offset of the next line, where a line is one.
#[derive(Clone, Copy)]
struct Factor {
    constraint: usize,
    value: i64,
    next: usize,
}

// The factor of resource r at an offset, of m constraints, that comes at constraint c or after it.
fn factor_at(s: &[u8], at: usize, r: usize, m: usize, c: usize) -> Option<Factor>
    requires { c ≤ m }
    ensures { result ≡ as_factor (at + length (line_at s.now at)) (if_suits (is_factor (r + 1) m (place m r c)) (row 3 (line_at s.now at))) }
{
    let row = ids_triple_at(s, at, r)?;
    let y = row.v[1];
    if y < 0 {
        return None;
    }
    let constraint = y as u64 as usize;
    if constraint < c {
        return None;
    }
    if m <= constraint {
        return None;
    }
    Some(Factor {
        constraint,
        value: row.v[2],
        next: row.next,
    })
}

// The cell of a factor, past the array's end where there is no room.
fn factor_cell(r: usize, c: usize) -> usize
    ensures { result ≡ factor_cell r c }
{
    if Interval::MAX_RESOURCES <= r {
        return Interval::MAX_FACTORS;
    }
    if Interval::MAX_CONSTRAINTS <= c {
        return Interval::MAX_FACTORS;
    }
    r * Interval::MAX_CONSTRAINTS + c
}

// For how many constraints of resource r there are cells, of so many in all: for all of them or for none.
fn room_of(len: usize, r: usize) -> usize
    ensures { (c : ℕ) → c < result → (r < 64) × (c < 32) × (r * 32 + c < len) }
{
    if r < number::at_most(len / Interval::MAX_CONSTRAINTS, Interval::MAX_RESOURCES) {
        return Interval::MAX_CONSTRAINTS;
    }
    0
}

// Puts a factor into its cell. The room is the same for a whole row, so that a line costs one test.
fn put_factor(cells: &mut [i64], r: usize, c: usize, x: i64)
    ensures { cells.new ≡ set cells.old (factor_cell r c) x }
{
    if c < room_of(cells.len(), r) {
        cells[r * Interval::MAX_CONSTRAINTS + c] = x;
        return;
    }
    put(cells, factor_cell(r, c), x);
}

// The factors of resource r.
fn row_into(s: &[u8], at: usize, r: usize, m: usize, cells: &mut [i64]) -> Table
    ensures { Read s.now at (factors_of m r (r + 1) (lines (drop at s.now))) cells.old cells.new result }
{
    let mut count = 0;
    let mut next = at;
    let mut c = 0;
    while let Some(f) = factor_at(s, next, r, m, c) {
        put_factor(cells, r, f.constraint, f.value);
        count += 1;
        next = f.next;
        c = f.constraint + 1;
    }
    Table { count, next }
}

// The factors of the resources from a to the one before b.
fn rows_into(s: &[u8], at: usize, a: usize, b: usize, m: usize, cells: &mut [i64]) -> Table
    requires { a ≤ b }
    ensures { Read s.now at (factors_of m a b (lines (drop at s.now))) cells.old cells.new result }
{
    let mut count = 0;
    let mut next = at;
    for r in a..b {
        let row = row_into(s, next, r, m, cells);
        count += row.count;
        next = row.next;
    }
    Table { count, next }
}

// The factor table's lines of values at an offset, of n resources and m constraints: all are counted, and the factors for which there are cells are kept.
// Every other cell stays as it was. Rows are read by two calls, which keeps their loops out of the caller's code, where they lack registers.
pub fn factors_into(s: &[u8], at: usize, n: usize, m: usize, cells: &mut [i64]) -> Table
    ensures count_value { result.count ≡ length (factor_rows n m (lines (drop at s.now))) }
    ensures cells_after { cells.new ≡ with_factors cells.old (factor_rows n m (lines (drop at s.now))) }
    ensures s_value { lines (drop result.next s.now) ≡ drop result.count (lines (drop at s.now)) }
    ensures next_value { result.next ≡ at + bytes_of result.count (lines (drop at s.now)) }
{
    if n <= ONE_DIGIT {
        return rows_into(s, at, 0, n, m, cells);
    }
    let short = rows_into(s, at, 0, ONE_DIGIT, m, cells);
    let rest = rows_into(s, short.next, ONE_DIGIT, n, m, cells);
    Table {
        count: short.count + rest.count,
        next: rest.next,
    }
}
