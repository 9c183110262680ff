// The whole run: a text in, what is printed out (paper 01, Text). The contracts cite the definitions of rules_run.
#![tactic(auto)]

ghost use Rattle.std.specs.Prelude.{IfSome, IsSome, IsNone, ◌≡◌, true, map, ◌+◌, ◌-◌, ◌*◌, ◌≤◌, ◌<◌, length, drop, replicate, set, get_or};
ghost use Rattle.std.proofs.lemmas.List.Edits.{sets};
ghost use Rattle.rules_text.specs.Numbers.{lines};
ghost use Rattle.rules_text.specs.Printing.{refusal_text, group_text};
ghost use Rattle.rules_mitigation.specs.Mitigation.{most_mitigated_steps};
ghost use Rattle.rules_hour.specs.Hours.{uncut};
ghost use Rattle.rules_page.specs.Pages.{verdict_text, curve_text, curve_table, curve_rows, curve_bytes, curves_bytes, printable, Put};
ghost use Rattle.rules_library.specs.Slices.{cell_at};
ghost use Rattle.line_copies.specs.Lines.{width_of, lines_again};
ghost use Rattle.rules_state.specs.Layout.{most_resources, rows_from, room_of_row, verdict_room};
ghost use Rattle.rules_state.specs.States.{hour_in, standing_in, market_in, rows_in};
ghost use Rattle.rules_state.specs.Verdicts.{verdicts_in};
ghost use Rattle.rules_run.specs.Run.{hour_text, output, ended_by, hour_end, end_of, run_room, ran_within, ran_to};
ghost use Rattle.run.specs.Took.{Ready, PartsPut};
ghost use Rattle.run.specs.Kept.{floor_shown, length_of, Kept, Rooms};

use opening_part::{PartOpened, SHORT_BYTES};
use rules_interval::Interval;
use rules_mitigation::Mitigated;
use rules_run::Ran;

// Room for what any text prints: four pages and the lines of a refusal.
pub const ROOM: usize = 655_424;

// A longer text is refused.
pub const MAX_TEXT: usize = 65_536;

// Where what was printed ends, and the number and line of the refusal that ends it; 0 and 0 where nothing is refused.
#[derive(Clone, Copy)]
struct Ending {
    at: usize,
    number: u64,
    line: usize,
}

// Puts the lines of a refusal at an offset, and answers the offset after them, the number and the line.
fn put_refusal(out: &mut [u8], at: usize, number: u64, line: usize) -> Ending
    requires { (at + 64 ≤ length out.old) × ((number ≤ 99) × (line ≤ 200000)) }
    ensures page { out.new ≡ sets out.old at (refusal_text number line) }
    ensures next { (result.at ≡ at + length (refusal_text number line)) × (result.at ≤ at + 64) }
    ensures end { ended_by result.number result.line ≡ ended_by number line }
{
    match page::print_refusal(out, at, number, line as u64) {
        Some(next) => Ending {
            at: next,
            number,
            line,
        },
        None => Ending { at, number, line },
    }
}

const ONE_CELLS: usize = rules_state::ROWS_FROM + rules_state::ROW_ROOM;

// A text of at most so many bytes has most likely no more than so many resources.
const FEW_BYTES: usize = 4096;

const FEW_RESOURCES: usize = 8;

const FEW_CELLS: usize = rules_state::ROWS_FROM + FEW_RESOURCES * rules_state::ROW_ROOM;

// Two numbers of each resource, and the width of each line of its curve.
const ONE_PLACES: usize = 2;

const ONE_WIDTHS: usize = Mitigated::MAX_STEPS;

const FEW_PLACES: usize = 2 * FEW_RESOURCES;

const FEW_WIDTHS: usize = Mitigated::MAX_STEPS * FEW_RESOURCES;

const ALL_CELLS: usize = rules_state::STATE_ROOM;

const ALL_PLACES: usize = 2 * Interval::MAX_RESOURCES;

const ALL_WIDTHS: usize = Mitigated::MAX_STEPS * Interval::MAX_RESOURCES;

// Puts what an interval says of its constraints at an offset, and answers the offset after it.
fn put_verdicts(
    out: &mut [u8],
    at: usize,
    i: u64,
    constraints: usize,
    verdicts: &[i64; rules_state::VERDICT_ROOM],
) -> usize
    requires { at + 49152 ≤ length out.old }
    ensures { (out.new ≡ sets out.old at (verdict_text i constraints (verdicts_in verdicts.now))) × ((result ≡ at + length (verdict_text i constraints (verdicts_in verdicts.now))) × (result ≤ at + 49152)) }
{
    match verdict_page::print_verdicts(out, at, i, constraints, verdicts) {
        Some(next) => next,
        None => at,
    }
}

// Puts the lines of the curve of resource r that interval i leaves, and the width of each, and answers the offset after them.
fn put_fresh(out: &mut [u8], at: usize, i: u64, r: usize, state: &[i64], widths: &mut [u8]) -> usize
    requires { (at + curve_bytes ≤ length out.old) × ((r < most_resources) × (most_mitigated_steps * r + most_mitigated_steps ≤ length widths.old)) }
    ensures page { Put curve_bytes out.old at (group_text (printable i) r (curve_rows (rows_in state.now) (standing_in state.now).floors r)) out.new result }
    ensures widths { widths.new ≡ sets widths.old (most_mitigated_steps * r) (map (width_of (printable i) r) (curve_rows (rows_in state.now) (standing_in state.now).floors r)) }
{
    match curve_page::print_lines(out, at, i, r, state, widths, Mitigated::MAX_STEPS * r) {
        Some(next) => next,
        None => at,
    }
}

// Puts the n bytes at an offset again, as lines of interval i, and answers the offset after them.
fn put_again(
    out: &mut [u8],
    from: usize,
    at: usize,
    n: usize,
    widths: &[u8],
    base: usize,
    i: u64,
) -> usize
    requires { (from + n ≤ at) × ((at + n ≤ length out.old) × (i < 10)) }
    ensures { (out.new ≡ sets out.old at (lines_again out.old from n widths.now base (48 + i))) × (result ≡ at + n) }
{
    let first = (48 + i) as u8;
    match line_copies::copy_lines(out, from, at, n, widths, base, first) {
        Some(next) => next,
        None => at,
    }
}

// Whether the lines of resource r were put at the floor price that it has.
fn is_shown(state: &[i64], shown: &[i64], places: &[usize], r: usize) -> bool
    requires { (r < most_resources) × ((rows_from ≤ length state.now) × ((2 * r + 1 < length shown.now) × (2 * r + 1 < length places.now))) }
    ensures { result ≡ true → (0 < length_of places.now r) × (floor_shown shown.now r ≡ get_or (standing_in state.now).floors r uncut) }
{
    if places[2 * r + 1] == 0 {
        return false;
    }
    if shown[2 * r] != state[1 + r] {
        return false;
    }
    shown[2 * r + 1] == state[1 + Interval::MAX_RESOURCES + r]
}

// Puts the lines of the curve of resource r that interval i leaves: as they stand on the page already where its floor price is the same.
fn put_lines(
    out: &mut [u8],
    at: usize,
    i: u64,
    r: usize,
    state: &[i64],
    shown: &[i64],
    places: &[usize],
    widths: &mut [u8],
) -> usize
    requires room { (at + curve_bytes ≤ length out.old) × ((r < most_resources) × ((r < (market_in state.now).resources) × ((i < 10) × (rows_from ≤ length state.now)))) }
    requires rooms { Rooms (market_in state.now).resources shown.now places.now widths.old }
    requires kept { Kept (market_in state.now).resources (rows_in state.now) out.old at shown.now places.now widths.old }
    ensures page { Put curve_bytes out.old at (group_text (printable i) r (curve_rows (rows_in state.now) (standing_in state.now).floors r)) out.new result }
    ensures widths { widths.new ≡ sets widths.old (most_mitigated_steps * r) (map (width_of (printable i) r) (curve_rows (rows_in state.now) (standing_in state.now).floors r)) }
{
    if !is_shown(state, shown, places, r) {
        return put_fresh(out, at, i, r, state, widths);
    }
    let n = places[2 * r + 1];
    put_again(
        out,
        places[2 * r],
        at,
        n,
        widths,
        Mitigated::MAX_STEPS * r,
        i,
    )
}

// Keeps where the lines of resource r stand, and at which floor price.
fn keep_lines(
    state: &[i64],
    r: usize,
    at: usize,
    next: usize,
    shown: &mut [i64],
    places: &mut [usize],
)
    requires { (r < most_resources) × ((at ≤ next) × ((rows_from ≤ length state.now) × ((2 * r + 1 < length shown.old) × (2 * r + 1 < length places.old)))) }
    ensures shown { shown.new ≡ set (set shown.old (2 * r) (cell_at state.now (1 + r))) (2 * r + 1) (cell_at state.now (1 + most_resources + r)) }
    ensures places { places.new ≡ set (set places.old (2 * r) at) (2 * r + 1) (next - at) }
{
    shown[2 * r] = state[1 + r];
    shown[2 * r + 1] = state[1 + Interval::MAX_RESOURCES + r];
    places[2 * r] = at;
    places[2 * r + 1] = next - at;
}

// Puts the lines of all curves that interval i leaves, and answers the offset after them.
fn put_table(
    out: &mut [u8],
    at: usize,
    i: u64,
    state: &[i64],
    shown: &mut [i64],
    places: &mut [usize],
    widths: &mut [u8],
) -> usize
    requires room { (at + curves_bytes ≤ length out.old) × ((i < 10) × (rows_from ≤ length state.now)) }
    requires rooms { Rooms (market_in state.now).resources shown.old places.old widths.old }
    requires kept { Kept (market_in state.now).resources (rows_in state.now) out.old at shown.old places.old widths.old }
    ensures page { Put curves_bytes out.old at (curve_table i (market_in state.now).resources (rows_in state.now) (standing_in state.now).floors) out.new result }
    ensures kept { Kept (market_in state.now).resources (rows_in state.now) out.new result shown.new places.new widths.new }
{
    let resources = cells::whole_at(state, rules_state::MARKET_FROM) as usize;
    let n = number::at_most(resources, Interval::MAX_RESOURCES);
    let mut p = at;
    for r in 0..n {
        let next = put_lines(out, p, i, r, state, shown, places, widths);
        keep_lines(state, r, p, next, shown, places);
        p = next;
    }
    p
}

// Puts the curves that an interval leaves at an offset, and answers the offset after them.
fn put_curves(
    out: &mut [u8],
    at: usize,
    i: u64,
    state: &[i64],
    shown: &mut [i64],
    places: &mut [usize],
    widths: &mut [u8],
) -> usize
    requires room { (at + 114688 ≤ length out.old) × ((i < 10) × (rows_from ≤ length state.now)) }
    requires rooms { Rooms (market_in state.now).resources shown.old places.old widths.old }
    requires kept { Kept (market_in state.now).resources (rows_in state.now) out.old at shown.old places.old widths.old }
    ensures page { Put 114688 out.old at (curve_text i (market_in state.now).resources (rows_in state.now) (standing_in state.now).floors) out.new result }
    ensures kept { Kept (market_in state.now).resources (rows_in state.now) out.new result shown.new places.new widths.new }
{
    let next = print::put_names(out, at, b"interval resource end price\n");
    put_table(out, next, i, state, shown, places, widths)
}

// Puts what the intervals of the fresh hour of these cells print and answers how that ends, from an offset of the text before which so many lines stand: each is read,
// taken and printed before the next.
fn put_intervals(
    text: &[u8],
    start: usize,
    lines_before: usize,
    state: &mut [i64],
    verdicts: &mut [i64; rules_state::VERDICT_ROOM],
    shown: &mut [i64],
    places: &mut [usize],
    widths: &mut [u8],
    out: &mut [u8],
) -> Ending
    requires fresh { (standing_in state.old).accepted ≡ 0 }
    requires cells { (rows_from ≤ length state.old) × (length verdicts.old ≡ verdict_room) }
    requires room { 655424 ≤ length out.old }
    requires rooms { Rooms (market_in state.old).resources shown.old places.old widths.old }
    requires none { places.old ≡ replicate (length places.old) 0 }
    requires text { lines_before + length (lines (drop start text.now)) ≤ 65536 }
    ensures page { out.new ≡ sets out.old 0 (hour_text (hour_in state.old).hour lines_before (lines (drop start text.now))) }
    ensures next { (result.at ≡ length (hour_text (hour_in state.old).hour lines_before (lines (drop start text.now)))) × (result.at ≤ 655424) }
    ensures end { ended_by result.number result.line ≡ hour_end (hour_in state.old).hour lines_before (lines (drop start text.now)) }
{
    let mut at = start;
    let mut line = lines_before;
    let mut i: u64 = 1;
    let mut p: usize = 0;
    while at < text.len() {
        let taken = reader::interval_of(text, at, line, state, verdicts);
        let number = taken.number;
        if number != 0 {
            return put_refusal(out, p, number, taken.line);
        }
        p = put_verdicts(out, p, i, taken.constraints, verdicts);
        p = put_curves(out, p, i, state, shown, places, widths);
        at = taken.next;
        line = taken.line;
        i += 1;
    }
    Ending {
        at: p,
        number: 0,
        line: 0,
    }
}

// Puts what a text prints whose part that opens an hour was read, into these cells, and answers how that ends.
fn put_opened(
    text: &[u8],
    opened: PartOpened,
    state: &mut [i64],
    shown: &mut [i64],
    places: &mut [usize],
    widths: &mut [u8],
    out: &mut [u8],
) -> Ending
    requires in_bounds { (655424 ≤ length out.old) × (length text.now ≤ 65536) }
    requires ready { Ready text.now state.old shown.old places.old widths.old opened.number opened.line opened.next opened.resources }
    ensures { PartsPut text.now out.old out.new result.at result.number result.line }
{
    let number = opened.number;
    if number != 0 {
        return put_refusal(out, 0, number, opened.line);
    }
    let mut verdicts = [0i64; rules_state::VERDICT_ROOM];
    put_intervals(
        text,
        opened.next,
        opened.line,
        state,
        &mut verdicts,
        shown,
        places,
        widths,
        out,
    )
}

// The same of a whole text, with room for so many resources; none where it has more, and then nothing is put.
fn put_within<const CELLS: usize, const PLACES: usize, const WIDTHS: usize>(
    text: &[u8],
    most: usize,
    out: &mut [u8],
) -> Option<Ending>
    requires in_bounds { (655424 ≤ length out.old) × (length text.now ≤ 65536) }
    requires sizes { (CELLS ≡ rows_from + room_of_row * most) × ((PLACES ≡ 2 * most) × ((WIDTHS ≡ most_mitigated_steps * most) × (most ≤ 64))) }
    ensures put { IfSome result (λ e. PartsPut text.now out.old out.new e.at e.number e.line) }
    ensures none { IsNone result → out.new ≡ out.old }
    ensures all { 64 ≤ most → IsSome result }
{
    let mut state = [0i64; CELLS];
    let opened = reader::opening_of(text, &mut state);
    if most < opened.resources {
        return None;
    }
    let mut shown = [0i64; PLACES];
    let mut places = [0usize; PLACES];
    let mut widths = [0u8; WIDTHS];
    Some(put_opened(
        text,
        opened,
        &mut state,
        &mut shown,
        &mut places,
        &mut widths,
        out,
    ))
}

// With room for as many resources as an hour may have.
fn put_many(text: &[u8], out: &mut [u8]) -> Ending
    requires { (655424 ≤ length out.old) × (length text.now ≤ 65536) }
    ensures { PartsPut text.now out.old out.new result.at result.number result.line }
{
    put_within::<ALL_CELLS, ALL_PLACES, ALL_WIDTHS>(text, Interval::MAX_RESOURCES, out).unwrap()
}

// With room for few, where that is enough.
fn put_few(text: &[u8], out: &mut [u8]) -> Ending
    requires { (655424 ≤ length out.old) × (length text.now ≤ 65536) }
    ensures { PartsPut text.now out.old out.new result.at result.number result.line }
{
    match put_within::<FEW_CELLS, FEW_PLACES, FEW_WIDTHS>(text, FEW_RESOURCES, out) {
        Some(ending) => ending,
        None => put_many(text, out),
    }
}

// With room for one.
fn put_one(text: &[u8], out: &mut [u8]) -> Ending
    requires { (655424 ≤ length out.old) × (length text.now ≤ 65536) }
    ensures { PartsPut text.now out.old out.new result.at result.number result.line }
{
    match put_within::<ONE_CELLS, ONE_PLACES, ONE_WIDTHS>(text, 1, out) {
        Some(ending) => ending,
        None => put_few(text, out),
    }
}

// Puts what the parts of a text print, and answers how that ends.
fn put_parts(text: &[u8], out: &mut [u8]) -> Ending
    requires { (655424 ≤ length out.old) × (length text.now ≤ 65536) }
    ensures { PartsPut text.now out.old out.new result.at result.number result.line }
{
    if text.len() <= SHORT_BYTES {
        return put_one(text, out);
    }
    if text.len() <= FEW_BYTES {
        return put_few(text, out);
    }
    put_many(text, out)
}

// Runs a text: prints into the lent page what paper 01 says of it, from the page's first byte on, and answers how many bytes that took, with the number and line
// of the refusal, which are 0 and 0 where nothing is refused.
pub fn run(text: &[u8], out: &mut [u8]) -> Ran
    ensures buffer { out.new ≡ ran_within out.old (output text.now) }
    ensures count { result ≡ ran_to out.old (output text.now) (end_of text.now) }
    ensures whole { run_room ≤ length out.old → length (output text.now) ≤ run_room }
{
    if out.len() < ROOM {
        return Ran::TooSmall;
    }
    if MAX_TEXT < text.len() {
        let end = put_refusal(out, 0, 18, 1);
        return Ran::Printed(end.at, end.number, end.line);
    }
    let end = put_parts(text, out);
    Ran::Printed(end.at, end.number, end.line)
}
