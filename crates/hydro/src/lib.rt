// The hydro pack (paper 02, 2.8; 39.7.1.7; refusal 22), above the engine. The contracts cite the definitions of rules_hydro.
#![tactic(auto)]

ghost use Rattle.std.specs.Prelude.{true, ◌≡◌, ◌≤◌, ◌<◌, pos, nat_abs, ◌*ℤ◌};
ghost use Rattle.std.specs.Result.{result_unwrap_or};
ghost use Rattle.rules_number.specs.Ceil.{ceil_div};
ghost use Rattle.rules_number.specs.Order.{in_range};
ghost use Rattle.rules_number.specs.Over.{all_to};
ghost use Rattle.rules_curve.specs.Curves.{no_pack};
ghost use Rattle.rules_hydro.specs.Hydros.{one_step, hub_price, largest_at, largest_over, gas_floor, hydro_price, is_hub_price, prices_good, limits_good, hydro_refusal, hydro_number, hydro_pack};
ghost use Rattle.hydro.specs.Given.{lent_hydro};

use rules_curve::{Curve, RawCurve, RawStep};
use rules_hydro::{Hydro, HydroRefusal};

// What a hydro default is made from, with lent prices: HUB_PRICES numbers of each hub in turn, and a number past the end of the slice is 0.
#[derive(Clone, Copy)]
pub struct LentHydro<'a> {
    pub low: i64,
    pub high: i64,
    pub heat: i64,
    pub gas: i64,
    pub hubs: usize,
    pub horizon: usize,
    pub prices: &'a [i64],
}

// The number of an outcome: 0 where nothing is refused.
pub fn outcome_number(outcome: Result<(), HydroRefusal>) -> u64
    ensures { result ≡ hydro_number outcome }
{
    match outcome {
        Ok(()) => 0,
        Err(HydroRefusal::OutsideLimits) => 22,
        Err(HydroRefusal::Curve(refusal)) => curve::refusal_number(refusal),
    }
}

// Whether the first n prices of a hub are in range.
fn hub_good(prices: &[i64], hub: usize, n: usize) -> bool
    requires { (hub < 4) × (n ≤ 14) }
    ensures { result ≡ all_to (λ j. is_hub_price (hub_price prices.now hub j)) n }
{
    for j in 0..n {
        if !number::within(
            cells::cell_at(prices, hub * Hydro::HUB_PRICES + j),
            0,
            Hydro::MAX_PRICE,
        ) {
            return false;
        }
    }
    true
}

// Whether all prices that are read are in range: of each hub that counts its peak, its balance of month and the months up to the horizon.
fn prices_good(prices: &[i64], hubs: usize, horizon: usize) -> bool
    requires { (hubs ≤ 4) × (horizon ≤ 12) }
    ensures { result ≡ prices_good prices.now hubs horizon }
{
    for i in 0..hubs {
        if !hub_good(prices, i, horizon + 2) {
            return false;
        }
    }
    true
}

// The largest of a hub's peak, its balance of month and its first n months.
fn largest_at(prices: &[i64], hub: usize, n: usize) -> i64
    requires { (hub < 4) × (n ≤ 12) }
    ensures { result ≡ largest_at prices.now hub n }
{
    let mut largest = cells::cell_at(prices, hub * Hydro::HUB_PRICES);
    for j in 0..n + 1 {
        largest = number::max(
            largest,
            cells::cell_at(prices, hub * Hydro::HUB_PRICES + j + 1),
        );
    }
    largest
}

// The largest over the hubs that count.
fn largest_over(prices: &[i64], hubs: usize, horizon: usize) -> i64
    requires { (hubs ≤ 4) × (horizon ≤ 12) }
    ensures { result ≡ largest_over prices.now hubs horizon }
{
    let mut largest = largest_at(prices, 0, horizon);
    for i in 1..hubs {
        largest = number::max(largest, largest_at(prices, i, horizon));
    }
    largest
}

// Whether no value calls for 22. Counts are tested before the prices that they count.
fn limits_good(given: &LentHydro) -> bool
    ensures { result ≡ limits_good (lent_hydro given.now) }
{
    if !number::within(given.heat, 1, Hydro::MAX_HEAT) {
        return false;
    }
    if !number::within(given.gas, 0, Hydro::MAX_GAS) {
        return false;
    }
    if given.hubs < 1 {
        return false;
    }
    if Hydro::MAX_HUBS < given.hubs {
        return false;
    }
    if given.horizon < 1 {
        return false;
    }
    if Hydro::MAX_HORIZON < given.horizon {
        return false;
    }
    prices_good(given.prices, given.hubs, given.horizon)
}

// 11 × H × gas / 10,000, up.
fn gas_floor(heat: i64, gas: i64) -> i64
    requires { (in_range (pos 1) (pos 100000) heat ≡ true) × (in_range (pos 0) (pos 1000000) gas ≡ true) }
    ensures { result ≡ gas_floor heat gas }
{
    number::ceil_by(11 * heat * gas, 10_000)
}

// So many tenths of a price, up.
fn tenths(n: i64, price: i64) -> i64
    requires { (nat_abs n ≤ 14) × (nat_abs price ≤ 100000000) }
    ensures { result ≡ ceil_div (n *ℤ price) 10 }
{
    number::ceil_by(n * price, 10)
}

// The price: the largest of the three amounts.
fn price(given: &LentHydro) -> i64
    requires { limits_good (lent_hydro given.now) ≡ true }
    ensures { result ≡ hydro_price (lent_hydro given.now) }
{
    let floor = gas_floor(given.heat, given.gas);
    let short = tenths(14, largest_at(given.prices, 0, 1));
    let long = tenths(11, largest_over(given.prices, given.hubs, given.horizon));
    number::max(floor, number::max(short, long))
}

// The curve of one step, as opening takes it from a pack.
fn one_step(low: i64, high: i64, price: i64) -> RawCurve
    ensures { result ≡ one_step low high price }
{
    let mut steps = [RawStep { end: 0, price: 0 }; Curve::MAX_STEPS];
    steps[0] = RawStep { end: high, price };
    RawCurve {
        start: low,
        count: 1,
        steps,
    }
}

// The hydro default: one step from the lowest to the highest quantity, as opening takes it from a pack; or 22, or 2 where the quantities are no edges of a step.
pub fn default_over(given: &LentHydro) -> Result<RawCurve, HydroRefusal>
    ensures number { hydro_number result ≡ hydro_refusal (lent_hydro given.now) }
    ensures pack { result_unwrap_or result no_pack ≡ hydro_pack (lent_hydro given.now) }
{
    if !limits_good(given) {
        return Err(HydroRefusal::OutsideLimits);
    }
    let pack = one_step(given.low, given.high, price(given));
    curve_checks::checked_default(pack).map_err(HydroRefusal::Curve)?;
    Ok(pack)
}

// The same of a record.
pub fn default_curve(hydro: Hydro) -> Result<RawCurve, HydroRefusal>
    ensures number { hydro_number result ≡ hydro_refusal hydro }
    ensures pack { result_unwrap_or result no_pack ≡ hydro_pack hydro }
{
    default_over(&LentHydro {
        low: hydro.low,
        high: hydro.high,
        heat: hydro.heat,
        gas: hydro.gas,
        hubs: hydro.hubs,
        horizon: hydro.horizon,
        prices: &hydro.prices,
    })
}
