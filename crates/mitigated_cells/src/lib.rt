// The present curve of a resource (paper 01, Interval and hour; 31.2.3, 34.1.5), from the hour that a lent slice of numbers stands for, put into a lent
// array of steps. The contracts cite the definitions of rules_mitigation and rules_state.
#![tactic(auto)]

ghost use Rattle.std.specs.Prelude.{◌≡◌, true, false, ◌+◌, ◌≤◌, ◌<◌, min as least, length};
ghost use Rattle.std.proofs.lemmas.List.Edits.{sets};
ghost use Rattle.rules_number.specs.Order.{nat_of, eq_z};
ghost use Rattle.rules_curve.specs.Curves.{bid_steps};
ghost use Rattle.rules_mitigation.specs.Mitigation.{capped, joined, mitigated_steps, most_mitigated_steps, used_steps};
ghost use Rattle.rules_hour.specs.Hours.{curve_in};
ghost use Rattle.rules_library.specs.Slices.{cell_at};
ghost use Rattle.rules_state.specs.Layout.{curve_room, room_of_row};
ghost use Rattle.rules_state.specs.States.{floor_of, curve_in_cells, hour_in};

use rules_curve::{Curve, Step};
use rules_interval::Interval;
use rules_mitigation::Mitigated;

// The number at an index that lies in the slice: with no test, unlike cells::cell_at, as the curve of each resource is read at each interval.
fn cell_in(state: &[i64], k: usize) -> i64
    requires { k < length state.now }
    ensures { result ≡ cell_at state.now k }
{
    state[k]
}

// The same as a whole number.
fn whole_in(state: &[i64], k: usize) -> u64
    requires { k < length state.now }
    ensures { result ≡ nat_of (cell_at state.now k) }
{
    number::whole(cell_in(state, k))
}

// The same as a count, or the limit where it is more.
fn count_in(state: &[i64], k: usize, most: usize) -> usize
    requires { k < length state.now }
    ensures { result ≡ least (nat_of (cell_at state.now k)) most }
{
    number::at_most(whole_in(state, k) as usize, most)
}

// The price b, cut to the higher of the default price d and the floor price: as it is where the cut mark is 0.
fn cap(mark: i64, floor: i64, b: i64, d: i64) -> i64
    ensures { result ≡ capped (floor_of mark floor).price b d }
{
    if mark == 0 {
        return b;
    }
    number::min(b, number::max(d, floor))
}

// Where the step after n steps is put: in the place of the last where the two have one price.
fn place(n: usize, last: i64, price: i64) -> usize
    ensures value { n ≡ 0 → result ≡ 0 }
    ensures result_value { 0 < n → last ≡ price → result + 1 ≡ n }
    ensures value_2 { 0 < n → eq_z last price ≡ false → result ≡ n }
    ensures upper_bound { result ≤ n }
{
    if n == 0 {
        return 0;
    }
    if last == price { n - 1 } else { n }
}

// Puts the steps of the bid of a row, divided where a step of its default curve ends, each part at its cut price, neighbours with one price as one, and answers
// how many they are. This and put_row stand in their callers' code, for speed.
#[inline(always)]
fn put_steps(row: &[i64], mark: i64, floor: i64, steps: &mut [Step]) -> usize
    requires { (room_of_row ≤ length row.now) × (most_mitigated_steps ≤ length steps.old) }
    ensures count { result ≡ length (mitigated_steps (floor_of mark floor).price (curve_in_cells row.now 0) (curve_in_cells row.now curve_room)) }
    ensures steps { steps.new ≡ sets steps.old 0 (mitigated_steps (floor_of mark floor).price (curve_in_cells row.now 0) (curve_in_cells row.now curve_room)) }
{
    let default = rules_state::CURVE_ROOM;
    let bids = count_in(row, 0, Curve::MAX_BID_STEPS);
    let defaults = count_in(row, default, Curve::MAX_STEPS);
    let mut at = whole_in(row, 1);
    let mut last: i64 = 0;
    let mut n: usize = 0;
    // By index: the bid and its default curve are walked at strides of their own.
    let mut i: usize = 0;
    let mut j: usize = 0;
    while i < bids {
        if defaults <= j {
            return n;
        }
        let b = whole_in(row, 2 + i);
        let d = whole_in(row, default + 2 + j);
        if d <= at {
            j += 1;
        } else {
            let bid = cell_in(row, 2 + Curve::MAX_STEPS + i);
            let cost = cell_in(row, default + 2 + Curve::MAX_STEPS + j);
            let price = cap(mark, floor, bid, cost);
            let k = place(n, last, price);
            at = d.min(b);
            steps[k] = Step { end: at, price };
            last = price;
            n = k + 1;
            if d < b {
                j += 1;
            } else {
                i += 1;
            }
        }
    }
    n
}

// Whether the bid of a row lies under the last end of its default curve, so that no part of it is left out.
fn is_under(row: &[i64]) -> bool
    requires { room_of_row ≤ length row.now }
    ensures { result ≡ true → mitigated_steps None (curve_in_cells row.now 0) (curve_in_cells row.now curve_room) ≡ joined (bid_steps (curve_in_cells row.now 0)) }
{
    let default = rules_state::CURVE_ROOM;
    let bids = count_in(row, 0, Curve::MAX_BID_STEPS);
    let defaults = count_in(row, default, Curve::MAX_STEPS);
    if defaults == 0 {
        return false;
    }
    let top = whole_in(row, default + 1 + defaults);
    let mut at = whole_in(row, 1);
    for i in 0..bids {
        if top <= at {
            return false;
        }
        at = whole_in(row, 2 + i);
    }
    at <= top
}

// Puts the steps of the bid of a row, neighbours with one price as one, and answers how many they are.
fn put_bid(row: &[i64], steps: &mut [Step]) -> usize
    requires { (room_of_row ≤ length row.now) × (most_mitigated_steps ≤ length steps.old) }
    ensures count { result ≡ length (joined (bid_steps (curve_in_cells row.now 0))) }
    ensures steps { steps.new ≡ sets steps.old 0 (joined (bid_steps (curve_in_cells row.now 0))) }
{
    let bids = count_in(row, 0, Curve::MAX_BID_STEPS);
    let mut last: i64 = 0;
    let mut n: usize = 0;
    for i in 0..bids {
        let end = whole_in(row, 2 + i);
        let price = cell_in(row, 2 + Curve::MAX_STEPS + i);
        let k = place(n, last, price);
        steps[k] = Step { end, price };
        last = price;
        n = k + 1;
    }
    n
}

// Puts the steps of the present curve of a row, and answers how many they are. A bid that was never cut isn't divided.
#[inline(always)]
fn put_row(row: &[i64], mark: i64, floor: i64, steps: &mut [Step]) -> usize
    requires { (room_of_row ≤ length row.now) × (most_mitigated_steps ≤ length steps.old) }
    ensures count { result ≡ length (mitigated_steps (floor_of mark floor).price (curve_in_cells row.now 0) (curve_in_cells row.now curve_room)) }
    ensures steps { steps.new ≡ sets steps.old 0 (mitigated_steps (floor_of mark floor).price (curve_in_cells row.now 0) (curve_in_cells row.now curve_room)) }
{
    if mark != 0 {
        return put_steps(row, mark, floor, steps);
    }
    if is_under(row) {
        return put_bid(row, steps);
    }
    put_steps(row, mark, floor, steps)
}

// Puts the steps of the present curve of resource r, and answers how many they are: none where there is no such resource.
pub fn mitigated_into(state: &[i64], r: usize, steps: &mut [Step; Mitigated::MAX_STEPS]) -> usize
    ensures count { result ≡ length (used_steps (curve_in (hour_in state.now).hour r)) }
    ensures steps { steps.new ≡ sets steps.old 0 (used_steps (curve_in (hour_in state.now).hour r)) }
{
    if Interval::MAX_RESOURCES <= r {
        return 0;
    }
    let from = rules_state::ROWS_FROM + rules_state::ROW_ROOM * r;
    let mark = cells::cell_at(state, 1 + r);
    let floor = cells::cell_at(state, 1 + Interval::MAX_RESOURCES + r);
    if from + rules_state::ROW_ROOM <= state.len() {
        return put_row(&state[from..], mark, floor, steps);
    }
    let mut row = [0i64; rules_state::ROW_ROOM];
    cell_copies::fill(&mut row, state, from);
    put_row(&row, mark, floor, steps)
}
