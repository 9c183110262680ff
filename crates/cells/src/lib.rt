// Numbers read from lent slices, and put into them. A number past the end is read as 0 and is put nowhere. The contracts cite the definitions of rules_library
// and rules_state.
#![tactic(auto)]

ghost use Rattle.std.specs.Prelude.{◌≡◌, set};
ghost use Rattle.rules_number.specs.Order.{nat_of};
ghost use Rattle.rules_library.specs.Slices.{cell_at};
ghost use Rattle.rules_state.specs.States.{cell_of};

// The number at an index, or 0 past the end.
pub fn cell_at(s: &[i64], i: usize) -> i64
    ensures { result ≡ cell_at s.now i }
{
    s.get(i).copied().unwrap_or(0)
}

// The same as a whole number: 0 for a negative one.
pub fn whole_at(s: &[i64], i: usize) -> u64
    ensures { result ≡ nat_of (cell_at s.now i) }
{
    number::whole(cell_at(s, i))
}

// Puts a number at an index.
pub fn put(cells: &mut [i64], i: usize, x: i64)
    ensures { cells.new ≡ set cells.old i x }
{
    if i < cells.len() {
        cells[i] = x;
    }
}

// A whole number as a cell: the largest number of 63 bits where it is larger.
fn cell_of(n: u64) -> i64
    ensures { result ≡ cell_of n }
{
    i64::try_from(n).unwrap_or(i64::MAX)
}

// Puts a whole number at an index.
pub fn put_whole(cells: &mut [i64], i: usize, n: u64)
    ensures { cells.new ≡ set cells.old i (cell_of n) }
{
    put(cells, i, cell_of(n));
}
