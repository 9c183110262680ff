// The sixty-day tally of a constraint for programs in other languages, under C names: the caller keeps it in a slice of 122 numbers. The contracts cite the definitions of
// rules_designation.
#![tactic(auto)]

ghost use Rattle.std.specs.Prelude.{◌≡◌, ◌+◌, ◌≤◌, length};
ghost use Rattle.std.proofs.lemmas.List.Edits.{sets};
ghost use Rattle.rules_designation.specs.Calls.{tally_room, masks_in, tally_in, tally_cells, day_of, day_answer, cells_after, designation_answer, hours_after, mark_answer, marks_after};

use rules_designation::{BOUND_FROM, Day, NONCOMPETITIVE_FROM, TALLY_ROOM, Tally};

// Sixty masks from an index on.
fn masks_in(cells: &[u32], from: usize) -> [u32; Tally::DAYS]
    requires { from + 60 ≤ length cells.now }
    ensures { result ≡ masks_in cells.now from }
{
    let mut masks = [0u32; Tally::DAYS];
    masks.copy_from_slice(&cells[from..from + Tally::DAYS]);
    masks
}

// The tally that numbers stand for.
fn tally_in(cells: &[u32]) -> Tally
    requires { tally_room ≤ length cells.now }
    ensures { result ≡ tally_in cells.now }
{
    Tally {
        days: cells[0],
        last: cells[1],
        bound: masks_in(cells, BOUND_FROM),
        noncompetitive: masks_in(cells, NONCOMPETITIVE_FROM),
    }
}

// Puts sixty masks from an index on.
fn put_masks(cells: &mut [u32], from: usize, masks: [u32; Tally::DAYS])
    requires { from + 60 ≤ length cells.old }
    ensures { cells.new ≡ sets cells.old from masks }
{
    cells[from..from + Tally::DAYS].copy_from_slice(&masks);
}

// Puts a tally.
fn put_tally(cells: &mut [u32], tally: Tally)
    requires { tally_room ≤ length cells.old }
    ensures { cells.new ≡ sets cells.old 0 (tally_cells tally) }
{
    cells[0] = tally.days;
    cells[1] = tally.last;
    put_masks(cells, BOUND_FROM, tally.bound);
    put_masks(cells, NONCOMPETITIVE_FROM, tally.noncompetitive);
}

// Adds a trading day to a tally of 122 numbers, all 0 for a fresh one: its number, and bit h of `bound` and of `noncompetitive` for hour h from 0. Answers 0; or 25 where the number
// isn't above that of the last day added, a mark is past the 24 hours or a non-competitive hour isn't bound; or -1 where the tally has too few numbers. Where it doesn't answer 0 the tally
// is as it was.
#[unsafe(no_mangle)]
pub extern "C" fn noskjerf_day(tally: &mut [u32], day: u32, bound: u32, noncompetitive: u32) -> i64
    ensures answer { result ≡ day_answer tally.old (day_of day bound noncompetitive) }
    ensures tally { tally.new ≡ cells_after tally.old (day_of day bound noncompetitive) }
{
    if tally.len() < TALLY_ROOM {
        return -1;
    }
    let marked = Day {
        number: day,
        bound,
        noncompetitive,
    };
    match day_tally::with_day(tally_in(tally), marked) {
        Ok(held) => {
            put_tally(tally, held);
            0
        }
        Err(refusal) => curve::refusal_number(refusal) as i64,
    }
}

// The default verdict on the tally's constraint: 0 competitive, 1 non-competitive; and into `hours` how many hours of the days held are bound, and how many non-competitive. Answers -1
// where the tally or `hours` has too few numbers, and leaves `hours` as it was.
#[unsafe(no_mangle)]
pub extern "C" fn noskjerf_designation(tally: &[u32], hours: &mut [u32]) -> i64
    ensures answer { result ≡ designation_answer tally.now hours.old }
    ensures hours { hours.new ≡ hours_after tally.now hours.old }
{
    if tally.len() < TALLY_ROOM {
        return -1;
    }
    if hours.len() < 2 {
        return -1;
    }
    let held = tally_in(tally);
    hours[0] = designation::hours_in(held.bound);
    hours[1] = designation::hours_in(held.noncompetitive);
    verdict::finding_number(designation::designated(held)) as i64
}

// Marks an hour of a day by the verdicts on the constraint in intervals of that hour, each 0 competitive, 1 non-competitive, or any other number for not binding: marks[0] has the bound
// hours, marks[1] the non-competitive ones, both 0 for a day without a mark. An hour past the 24 is marked past the 24, so that the day is refused. Answers 0, or -1 where `marks` has too
// few numbers, and leaves it as it was.
#[unsafe(no_mangle)]
pub extern "C" fn noskjerf_mark(marks: &mut [u32], hour: usize, findings: &[i64]) -> i64
    ensures answer { result ≡ mark_answer marks.old }
    ensures marks { marks.new ≡ marks_after marks.old hour findings.now }
{
    if marks.len() < 2 {
        return -1;
    }
    let day = Day {
        number: 0,
        bound: marks[0],
        noncompetitive: marks[1],
    };
    let marked = designation::marked(day, hour, findings);
    marks[0] = marked.bound;
    marks[1] = marked.noncompetitive;
    0
}
