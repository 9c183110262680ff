// The curves of a page (paper 01, Text), from the hour that a lent slice of numbers stands for. The contracts cite the definitions of rules_page and rules_state.
#![tactic(auto)]

ghost use Rattle.std.specs.Prelude.{◌≡◌, true, map, ◌+◌, ◌<◌, ◌≤◌, length};
ghost use Rattle.std.proofs.lemmas.List.Edits.{sets};
ghost use Rattle.rules_mitigation.specs.Mitigation.{most_mitigated_steps};
ghost use Rattle.rules_text.specs.Printing.{group_text};
ghost use Rattle.rules_page.specs.Pages.{curve_bytes, printable as printableOf, curve_rows, step_row, Put};
ghost use Rattle.line_copies.specs.Lines.{width_of};
ghost use Rattle.curve_page.specs.Widths.{has_both, lines_in, lines_to};
ghost use Rattle.rules_state.specs.States.{rows_in, standing_in};

use page::printable;
use rules_curve::Step;
use rules_interval::Interval;
use rules_mitigation::Mitigated;

// The lines of one curve are put where at least this many bytes are left.
pub const LINES_ROOM: usize = 1680;

// How wide a line is that begins at an offset and ends at another.
fn width(from: usize, to: usize) -> u8
    requires { (from ≤ to) × (to ≤ from + 84) }
    ensures { from + result ≡ to }
{
    (to - from) as u8
}

// Puts a line for each of the steps, and the width of each from an index on, and answers the offset after them.
fn put_steps(
    out: &mut [u8],
    at: usize,
    i: u64,
    r: u64,
    steps: &[Step],
    widths: &mut [u8],
    base: usize,
) -> usize
    requires curve_bytes_in_bounds { (at + curve_bytes ≤ length out.old) × (r < 64) }
    requires few { length steps.now ≤ most_mitigated_steps }
    requires most_mitigated_steps_in_bounds { base + most_mitigated_steps ≤ length widths.old }
    ensures put { Put curve_bytes out.old at (group_text (printableOf i) r (map step_row steps.now)) out.new result }
    ensures widths_after { widths.new ≡ sets widths.old base (map (width_of (printableOf i) r) (map step_row steps.now)) }
{
    let interval = printable(i);
    let resource = printable(r);
    let mut p = at;
    for (k, step) in steps.iter().enumerate() {
        let q = page::put_line(
            out,
            p,
            &[interval, resource, printable(step.end), step.price],
        );
        widths[base + k] = width(p, q);
        p = q;
    }
    p
}

// Puts the lines of the present curve of resource r, and the width of each from an index on, and answers the offset after them.
fn put_lines(
    out: &mut [u8],
    at: usize,
    i: u64,
    r: usize,
    state: &[i64],
    widths: &mut [u8],
    base: usize,
) -> usize
    requires { (at + curve_bytes ≤ length out.old) × (r < 64) × (base + most_mitigated_steps ≤ length widths.old) }
    ensures put { Put curve_bytes out.old at (group_text (printableOf i) r (curve_rows (rows_in state.now) (standing_in state.now).floors r)) out.new result }
    ensures widths_after { widths.new ≡ sets widths.old base (map (width_of (printableOf i) r) (curve_rows (rows_in state.now) (standing_in state.now).floors r)) }
{
    let mut steps = [Step { end: 0, price: 0 }; Mitigated::MAX_STEPS];
    let n = mitigated_cells::mitigated_into(state, r, &mut steps);
    put_steps(out, at, i, r as u64, &steps[..n], widths, base)
}

// Prints the lines of the curve of resource r that interval i leaves, where there is room, and puts the width of each from an index on: none where there is no such
// resource.
pub fn print_lines(
    out: &mut [u8],
    at: usize,
    i: u64,
    r: usize,
    state: &[i64],
    widths: &mut [u8],
    base: usize,
) -> Option<usize>
    ensures buffer { out.new ≡ lines_in (has_both out.old at widths.old base) out.old at (group_text (printableOf i) r (curve_rows (rows_in state.now) (standing_in state.now).floors r)) }
    ensures widths { widths.new ≡ lines_in (has_both out.old at widths.old base) widths.old base (map (width_of (printableOf i) r) (curve_rows (rows_in state.now) (standing_in state.now).floors r)) }
    ensures next { result ≡ lines_to (has_both out.old at widths.old base) at (group_text (printableOf i) r (curve_rows (rows_in state.now) (standing_in state.now).floors r)) }
    ensures whole { has_both out.old at widths.old base ≡ true → length (group_text (printableOf i) r (curve_rows (rows_in state.now) (standing_in state.now).floors r)) ≤ curve_bytes }
{
    if !number::has_room(out.len(), at, LINES_ROOM) {
        return None;
    }
    if !number::has_room(widths.len(), base, Mitigated::MAX_STEPS) {
        return None;
    }
    if Interval::MAX_RESOURCES <= r {
        return Some(at);
    }
    Some(put_lines(out, at, i, r, state, widths, base))
}
