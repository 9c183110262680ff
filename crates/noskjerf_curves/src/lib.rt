// The curves of an hour in numbers for programs in other languages, under C names: the state is only read. Each answers 0 and puts a curve's number of steps, its
// start and its ends into `edges` and its prices into `prices`; or answers a number, or -1 where a slice or the state has too few numbers, and leaves both as
// they were. The contracts cite the definitions of rules_state.
#![tactic(auto)]

ghost use Rattle.std.specs.Prelude.{◌≡◌, ◌&&◌, ◌+◌, ◌≤◌, leb};
ghost use Rattle.rules_curve.specs.Refusals.{unless};
ghost use Rattle.rules_mitigation.specs.Mitigation.{most_mitigated_steps};
ghost use Rattle.rules_library.specs.Slices.{answer_of};
ghost use Rattle.rules_state.specs.Layout.{state_room};
ghost use Rattle.rules_state.specs.Curves.{mitigated_room, edges_by, prices_by, curve_answer, curve_edges, curve_prices, five_minute_edges, five_minute_prices, hour_bid_answer, hour_bid_edges, hour_bid_prices, default_of_answer, default_of_edges, default_of_prices};

use rules_curve::{Curve, Refusal};
use rules_hour::Standing;
use rules_mitigation::Mitigated;

// The number of the refusal of a bid for an hour that is still open.
const HOUR_OPEN: i64 = Refusal::HourOpen as i64;

// Whether slices of these lengths hold an hour, the edges of a curve of so many steps, and its prices.
fn has_room(state: usize, edges: usize, prices: usize, steps: usize) -> bool
    requires { steps ≤ most_mitigated_steps }
    ensures { result ≡ (leb state_room state && (leb (2 + steps) edges && leb steps prices)) }
{
    rules_state::STATE_ROOM <= state && 2 + steps <= edges && steps <= prices
}

// Puts a mitigated curve, where the hour is full enough for it: else 20.
fn put_curve(
    state: &[i64],
    full: bool,
    curve: Mitigated,
    edges: &mut [u64],
    prices: &mut [i64],
) -> i64
    ensures answer { result ≡ answer_of (mitigated_room state.now edges.old prices.old) (unless full 20) }
    ensures edges { edges.new ≡ edges_by (answer_of (mitigated_room state.now edges.old prices.old) (unless full 20)) edges.old curve }
    ensures prices { prices.new ≡ prices_by (answer_of (mitigated_room state.now edges.old prices.old) (unless full 20)) prices.old curve }
{
    if !has_room(state.len(), edges.len(), prices.len(), Mitigated::MAX_STEPS) {
        return -1;
    }
    if !full {
        return HOUR_OPEN;
    }
    curve_cells::put_mitigated(edges, prices, curve);
    0
}

// The present curve of resource r: a blank one where the hour has no such resource.
#[unsafe(no_mangle)]
pub extern "C" fn noskjerf_curve(
    state: &[i64],
    r: usize,
    edges: &mut [u64],
    prices: &mut [i64],
) -> i64
    ensures answer { result ≡ curve_answer state.now edges.old prices.old }
    ensures edges { edges.new ≡ curve_edges state.now r edges.old prices.old }
    ensures prices { prices.new ≡ curve_prices state.now r edges.old prices.old }
{
    put_curve(state, true, hour_cells::present_in(state, r), edges, prices)
}

// The five-minute curve of resource r, from the passes since the last accepted interval: a blank one where the hour has no such resource.
#[unsafe(no_mangle)]
pub extern "C" fn noskjerf_five_minute(
    state: &[i64],
    r: usize,
    edges: &mut [u64],
    prices: &mut [i64],
) -> i64
    ensures answer { result ≡ curve_answer state.now edges.old prices.old }
    ensures edges { edges.new ≡ five_minute_edges state.now r edges.old prices.old }
    ensures prices { prices.new ≡ five_minute_prices state.now r edges.old prices.old }
{
    let curve = hour_cells::five_minute_in(state, r);
    put_curve(state, true, curve, edges, prices)
}

// The bid of resource r for the hour, or 20 where fewer than four intervals are accepted: a blank one where the hour has no such resource.
#[unsafe(no_mangle)]
pub extern "C" fn noskjerf_hour_bid(
    state: &[i64],
    r: usize,
    edges: &mut [u64],
    prices: &mut [i64],
) -> i64
    ensures answer { result ≡ hour_bid_answer state.now edges.old prices.old }
    ensures edges { edges.new ≡ hour_bid_edges state.now r edges.old prices.old }
    ensures prices { prices.new ≡ hour_bid_prices state.now r edges.old prices.old }
{
    let accepted = cells::whole_at(state, 0);
    let full = Standing::MAX_INTERVALS <= accepted;
    put_curve(state, full, hour_cells::present_in(state, r), edges, prices)
}

// The default curve of resource r: a blank one where the hour has no such resource. `edges` has 13 numbers and `prices` 11.
#[unsafe(no_mangle)]
pub extern "C" fn noskjerf_default_of(
    state: &[i64],
    r: usize,
    edges: &mut [u64],
    prices: &mut [i64],
) -> i64
    ensures answer { result ≡ default_of_answer state.now edges.old prices.old }
    ensures edges { edges.new ≡ default_of_edges state.now r edges.old prices.old }
    ensures prices { prices.new ≡ default_of_prices state.now r edges.old prices.old }
{
    if !has_room(state.len(), edges.len(), prices.len(), Curve::MAX_STEPS) {
        return -1;
    }
    curve_cells::put_default(edges, prices, market_cells::row_in(state, r).default);
    0
}
