// The default curve from costs with a book's gas price: 21 before 4 to 8 (paper 02, 2.7; 39.7.1.1.1.3). The contracts cite the definitions of rules_gas.
#![tactic(auto)]

ghost use Rattle.std.specs.Prelude.{◌≡◌};
ghost use Rattle.std.specs.Result.{result_unwrap_or};
ghost use Rattle.rules_curve.specs.Refusals.{outcome_number};
ghost use Rattle.rules_curve.specs.Curves.{blank_curve};
ghost use Rattle.rules_gas.specs.Booked.{with_gas, priced_refusal, priced_curve, list_refusal, list_curve, booked_refusal, booked_curve};

use rules_cost::Costs;
use rules_curve::{Curve, Refusal};
use rules_gas::GasMarket;

// The costs with this gas price.
fn with_gas(costs: Costs, price: u32) -> Costs
    ensures { result ≡ with_gas costs price }
{
    Costs {
        gas: price as i64,
        ..costs
    }
}

// The default curve at a gas price: 21 where there is none, else the lowest of refusals 4 to 8 that applies.
fn priced(costs: Costs, price: Option<u32>) -> Result<Curve, Refusal>
    ensures number { outcome_number result ≡ priced_refusal price costs }
    ensures curve { result_unwrap_or result blank_curve ≡ priced_curve price costs }
{
    match price {
        Some(price) => cost::default_curve(with_gas(costs, price)),
        None => Err(Refusal::GasBook),
    }
}

// The default curve with the price that a list has in use on a trading day.
pub fn default_on(costs: Costs, list: &[u32], day: u32) -> Result<Curve, Refusal>
    ensures number { outcome_number result ≡ list_refusal day list.now costs }
    ensures curve { result_unwrap_or result blank_curve ≡ list_curve day list.now costs }
{
    priced(costs, gas_book::price_of(gas_book::run_in(list, day)))
}

// The default curve with the book's price on a trading day in a market.
pub fn default_curve<'a>(
    costs: Costs,
    day_ahead: &'a [u32],
    real_time: &'a [u32],
    market: GasMarket,
    day: u32,
) -> Result<Curve, Refusal>
    ensures number { outcome_number result ≡ booked_refusal market day day_ahead.now real_time.now costs }
    ensures curve { result_unwrap_or result blank_curve ≡ booked_curve market day day_ahead.now real_time.now costs }
{
    priced(
        costs,
        gas_book::price_in_use(day_ahead, real_time, market, day),
    )
}
