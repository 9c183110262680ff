// A bid judged, a default curve from costs, one joined of two, books of gas prices, and classroom bids, for programs in other languages:
// functions on numbers and slices under C names. The contracts cite the definitions of rules_library.
#![tactic(auto)]

ghost use Rattle.std.specs.Prelude.{◌≡◌};
ghost use Rattle.rules_curve.specs.Curves.{bid_refusal, default_refusal, checked_default};
ghost use Rattle.rules_classroom.specs.Classroom.{classroom_bid};
ghost use Rattle.rules_contract.specs.ContractUnits.{contract_refusal, joined_curve};
ghost use Rattle.rules_library.specs.Gas.{list_by, run_count, gas_answer, gas_edges, gas_prices};
ghost use Rattle.rules_library.specs.Slices.{raw_bid, costs_in, put_answer, edges_with, prices_with, default_answer, edges_after, prices_after};

// Whether a bid is accepted, by month since the rule took effect: 0, or the number of its refusal. `steps` has end and price of each step in turn, and numbers
// past its end count as 0.
#[unsafe(no_mangle)]
pub extern "C" fn noskjerf_bid(month: u64, start: i64, count: usize, steps: &[i64]) -> u64
    ensures { result ≡ bid_refusal month (raw_bid start count steps.now) }
{
    let bid = slices::curve_in(start, count, steps);
    curve::outcome_number(curve_checks::checked_bid(bid, month).map(|_| ()))
}

// The default energy bid from costs. `points` has quantity and heat rate of each point in turn, `charges` gas, rate, allowance, om, msc, soc and fee, and numbers
// past their ends count as 0. Answers 0 and puts the curve's number of steps, start and eleven ends into `edges`, and its eleven prices into `prices`; or answers the
// number of a refusal, or -1 where `edges` has fewer than 13 numbers or `prices` fewer than 11, and leaves both as they were.
#[unsafe(no_mangle)]
pub extern "C" fn noskjerf_default(
    count: usize,
    points: &[i64],
    charges: &[i64],
    edges: &mut [u64],
    prices: &mut [i64],
) -> i64
    ensures answer { result ≡ default_answer edges.old prices.old (costs_in count points.now charges.now) }
    ensures edges { edges.new ≡ edges_after edges.old prices.old (costs_in count points.now charges.now) }
    ensures prices { prices.new ≡ prices_after edges.old prices.old (costs_in count points.now charges.now) }
{
    let checked = cost::default_curve(slices::costs_in(count, points, charges));
    put_slices::put_checked(checked, edges, prices)
}

// How many numbers of a book's list, that of the day-ahead market for 0 and that of real time for 1, are its run up to a trading day: they stand at the front of the
// list, and the last of them is the price in use. 0 means 21, and is the answer for any other market.
#[unsafe(no_mangle)]
pub extern "C" fn noskjerf_gas_run<'a>(
    day_ahead: &'a [u32],
    real_time: &'a [u32],
    market: u32,
    day: u32,
) -> usize
    ensures { result ≡ run_count market day day_ahead.now real_time.now }
{
    let list = slices::list_of(day_ahead, real_time, market);
    gas_book::run_in(list, day).len()
}

// The default energy bid from costs at the gas price that a book has in use: as noskjerf_default, but that the first of the charges counts for nothing, and that 21,
// for any market but 0 and 1 too, comes before the refusals of costs.
#[unsafe(no_mangle)]
pub extern "C" fn noskjerf_gas_default<'a>(
    day_ahead: &'a [u32],
    real_time: &'a [u32],
    market: u32,
    day: u32,
    count: usize,
    points: &[i64],
    charges: &[i64],
    edges: &mut [u64],
    prices: &mut [i64],
) -> i64
    ensures answer { result ≡ gas_answer edges.old prices.old day (list_by market day_ahead.now real_time.now) (costs_in count points.now charges.now) }
    ensures edges { edges.new ≡ gas_edges edges.old prices.old day (list_by market day_ahead.now real_time.now) (costs_in count points.now charges.now) }
    ensures prices { prices.new ≡ gas_prices edges.old prices.old day (list_by market day_ahead.now real_time.now) (costs_in count points.now charges.now) }
{
    let list = slices::list_of(day_ahead, real_time, market);
    let costs = slices::costs_in(count, points, charges);
    put_slices::put_checked(gas_default::default_on(costs, list, day), edges, prices)
}

// Two default curves joined: the proxy curve up to the contract capacity, and the default curve above it. `proxy_steps` and `above_steps` have end and price of each
// step in turn, and numbers past their ends count as 0. Answers 0 and puts the curve's number of steps, start and eleven ends into `edges`, and its eleven prices into
// `prices`; or answers 1 to 3, 23 or 24, or -1 where `edges` has fewer than 13 numbers or `prices` fewer than 11, and leaves both as they were.
#[unsafe(no_mangle)]
pub extern "C" fn noskjerf_join(
    proxy_start: i64,
    proxy_count: usize,
    proxy_steps: &[i64],
    above_start: i64,
    above_count: usize,
    above_steps: &[i64],
    edges: &mut [u64],
    prices: &mut [i64],
) -> i64
    ensures answer { let proxy = raw_bid proxy_start proxy_count proxy_steps.now in
        let above = raw_bid above_start above_count above_steps.now in
        result ≡ put_answer edges.old prices.old (contract_refusal proxy above) }
    ensures edges { let proxy = raw_bid proxy_start proxy_count proxy_steps.now in
        let above = raw_bid above_start above_count above_steps.now in
        edges.new ≡ edges_with edges.old prices.old (contract_refusal proxy above) (joined_curve proxy above) }
    ensures prices { let proxy = raw_bid proxy_start proxy_count proxy_steps.now in
        let above = raw_bid above_start above_count above_steps.now in
        prices.new ≡ prices_with edges.old prices.old (contract_refusal proxy above) (joined_curve proxy above) }
{
    let proxy = slices::curve_in(proxy_start, proxy_count, proxy_steps);
    let above = slices::curve_in(above_start, above_count, above_steps);
    put_slices::put_checked(contract::joined_curve(proxy, above), edges, prices)
}

// Classroom bid k, from 0 on. Answers 0 and puts its number of steps, start and eleven ends into `edges`, and its eleven prices into
// `prices`; or answers 1, past the last, or -1 where `edges` has fewer than 13 numbers or `prices` fewer than 11, and leaves both as they
// were.
#[unsafe(no_mangle)]
pub extern "C" fn noskjerf_classroom(k: usize, edges: &mut [u64], prices: &mut [i64]) -> i64
    ensures answer { let bid = classroom_bid k in
        result ≡ put_answer edges.old prices.old (default_refusal bid) }
    ensures edges { let bid = classroom_bid k in
        edges.new ≡ edges_with edges.old prices.old (default_refusal bid) (checked_default bid) }
    ensures prices { let bid = classroom_bid k in
        prices.new ≡ prices_with edges.old prices.old (default_refusal bid) (checked_default bid) }
{
    let bid = classroom::bid(k);
    put_slices::put_checked(curve_checks::checked_default(bid), edges, prices)
}
