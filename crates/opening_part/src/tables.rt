// The tables of the part that opens an hour, read into lent blocks of 80 numbers, a block for each resource. The contracts cite specs/Blocks, specs/Parts and the
// definitions of rules_text.
ghost use Rattle.std.specs.Prelude.{◌≡◌, cond, ◌+◌, ◌-◌, ◌*◌, ◌≤◌, ltb, length, drop, set, IfOk};
ghost use Rattle.std.proofs.lemmas.List.Edits.{sets};
ghost use Rattle.rules_text.specs.Numbers.{lines};
ghost use Rattle.rules_text.specs.Tables.{found, next, grouped, pairs, each};
ghost use Rattle.rules_text.specs.Offsets.{bytes_of};
ghost use Rattle.text_blocks.specs.Blocks.{pairs_to, group_cells, charge_cells, blocks_put};
ghost use Rattle.opening_part.specs.Parts.{read_cells};

use rules_curve::Curve;
use rules_interval::Interval;
use text_rows::eight_at;
use text_tables::Table;
use text_triples::id_triple_at;

// The number of a table's last line, and the offset of the line after it.
#[derive(Clone, Copy)]
pub(crate) struct TableEnd {
    pub(crate) line: usize,
    pub(crate) next: usize,
}

// Puts the two values of line k of those whose values begin at a cell; there is room for eleven.
fn put_pair(cells: &mut [i64], base: usize, k: usize, x: i64, y: i64)
    requires { base ≤ 6000 }
    ensures { cells.new ≡ cond (ltb k 11) (set (set cells.old (base + 2 * k) x) (base + 2 * k + 1) y) cells.old }
{
    if k < Curve::MAX_STEPS {
        cells::put(cells, base + 2 * k, x);
        cells::put(cells, base + 2 * k + 1, y);
    }
}

// The lines of resource r at an offset, all of which are counted: those for which there is room are put, from a cell on.
fn pairs_into(s: &[u8], at: usize, r: usize, cells: &mut [i64], base: usize) -> Table
    requires { base ≤ 6000 }
    ensures count_value { result.count ≡ length (pairs r (lines (drop at s.now))) }
    ensures cells_after { cells.new ≡ sets cells.old base (pairs_to 11 (pairs r (lines (drop at s.now)))) }
    ensures next_value { result.next ≡ at + bytes_of result.count (lines (drop at s.now)) }
{
    let mut count = 0;
    let mut next = at;
    while let Some(row) = id_triple_at(s, next, r) {
        put_pair(cells, base, count, row.v[1], row.v[2]);
        count += 1;
        next = row.next;
    }
    Table { count, next }
}

// The lines of m resources at an offset before which n lines stand: the number of each resource's lines is put at a cell of its block, and their values
// after it.
pub(crate) fn groups_into(
    s: &[u8],
    at: usize,
    m: usize,
    n: usize,
    cells: &mut [i64],
    from: usize,
) -> TableEnd
    requires { (n + length (lines (drop at s.now)) ≤ 70000 + length s.now) × (length cells.old ≤ 5120) × (from ≤ 80) }
    ensures s_after { found cells.new result.line (lines (drop result.next s.now)) ≡ next (grouped pairs m 0 n (lines (drop at s.now))) (λ gs. found (blocks_put group_cells from 0 cells.old gs)) }
    ensures s_bound { result.line + length (lines (drop result.next s.now)) ≤ n + length (lines (drop at s.now)) }
    ensures next_value { result.next ≡ at + bytes_of (result.line - n) (lines (drop at s.now)) }
{
    let mut line = n;
    let mut next = at;
    for r in 0..m {
        let base = rules_state::BLOCK_ROOM * number::at_most(r, Interval::MAX_RESOURCES) + from;
        let group = pairs_into(s, next, r, cells, base + 1);
        cells::put(cells, base, group.count as i64);
        line += group.count;
        next = group.next;
    }
    TableEnd { line, next }
}

// The charges of a cost line: gas, rate, allowance, om, msc, soc and fee.
const CHARGES: usize = 7;

// Puts those for which there is a cell, from a cell on.
fn put_within(cells: &mut [i64], at: usize, v: [i64; 8])
    requires { at ≤ 6000 }
    ensures { cells.new ≡ sets cells.old at (drop 1 v) }
{
    for k in 0..CHARGES {
        cells::put(cells, at + k, v[k + 1]);
    }
}

// The same, without a test of each cell where there is room for all.
fn put_charges(cells: &mut [i64], at: usize, v: [i64; 8])
    requires { at ≤ 6000 }
    ensures { cells.new ≡ sets cells.old at (drop 1 v) }
{
    if cells.len() < at + CHARGES {
        put_within(cells, at, v);
        return;
    }
    cells[at..at + CHARGES].copy_from_slice(&v[1..]);
}

// The cost lines of m resources at an offset before which n lines stand: the charges of each are put from a cell of its block on. Err is the
// number of the faulty line.
pub(crate) fn charges_into(
    s: &[u8],
    at: usize,
    m: usize,
    n: usize,
    cells: &mut [i64],
    from: usize,
) -> Result<TableEnd, usize>
    requires { (n + length (lines (drop at s.now)) ≤ 70000 + length s.now) × (length cells.old ≤ 5120) × (from ≤ 80) }
    ensures reading { read_cells s.now result cells.new ≡ next (each 8 m 0 n (lines (drop at s.now))) (λ xs. found (blocks_put charge_cells from 0 cells.old xs)) }
    ensures next_value { IfOk result (λ g. g.next ≡ at + bytes_of (g.line - n) (lines (drop at s.now))) }
{
    let mut line = n;
    let mut next = at;
    for r in 0..m {
        let row = eight_at(s, next, r);
        line += 1;
        let Some(row) = row else {
            return Err(line);
        };
        let base = rules_state::BLOCK_ROOM * number::at_most(r, Interval::MAX_RESOURCES) + from;
        put_charges(cells, base, row.v);
        next = row.next;
    }
    Ok(TableEnd { line, next })
}
