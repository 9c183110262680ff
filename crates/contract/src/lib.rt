// Two default curves joined into one for a reliability contract unit (paper 02, 2.9; 39.7.1.6; refusals 23 and 24). The contracts cite the definitions of
// rules_contract.
#![tactic(auto)]

ghost use Rattle.std.specs.Prelude.{◌↔◌, ◌≡◌, ℕ, ◌+◌, ◌≤◌, ◌<◌, get_or};
ghost use Rattle.std.specs.Result.{result_unwrap_or};
ghost use Rattle.rules_curve.specs.Conditions.{no_step, edge};
ghost use Rattle.rules_curve.specs.Curves.{blank_curve, no_pack, default_refusal};
ghost use Rattle.rules_curve.specs.Demands.{First};
ghost use Rattle.rules_curve.specs.Refusals.{number_of, outcome_number};
ghost use Rattle.rules_contract.specs.Conditions.{contract_demands};
ghost use Rattle.rules_contract.specs.ContractUnits.{joined_steps, joined_raw, lowest, contract_refusal, joined_pack, joined_curve};

use rules_curve::{Curve, RawCurve, RawStep, Refusal};

// Where a curve ends that has 1 to 11 steps.
fn last_end(part: RawCurve) -> i64
    requires { (1 ≤ part.count) × (part.count ≤ 11) }
    ensures { result ≡ edge part part.count }
{
    part.steps[part.count - 1].end
}

// Step i of both: of the first part, or of the second past it.
fn step_of(proxy: RawCurve, above: RawCurve, i: usize) -> RawStep
    requires counts { (proxy.count ≤ 11) × (above.count ≤ 11) }
    requires step { i < proxy.count + above.count }
    ensures { result ≡ get_or (joined_steps proxy above) i no_step }
{
    if i < proxy.count {
        proxy.steps[i]
    } else {
        above.steps[i - proxy.count]
    }
}

// The n steps of both, each price raised to the largest before it.
fn raised(proxy: RawCurve, above: RawCurve, n: usize) -> [RawStep; Curve::MAX_STEPS]
    requires counts { (1 ≤ proxy.count) × ((proxy.count ≤ 11) × (above.count ≤ 11)) }
    requires steps { (n ≡ proxy.count + above.count) × (n ≤ 11) }
    ensures { result ≡ (joined_raw proxy above).steps }
{
    let mut steps = [RawStep { end: 0, price: 0 }; Curve::MAX_STEPS];
    let mut largest = proxy.steps[0].price;
    for i in 0..n {
        let step = step_of(proxy, above, i);
        largest = number::max(largest, step.price);
        steps[i] = RawStep {
            price: largest,
            ..step
        };
    }
    steps
}

// Of two checks the refusal with the lower number; none where neither refuses.
fn lower(a: Result<Curve, Refusal>, b: Result<Curve, Refusal>) -> Result<(), Refusal>
    ensures { outcome_number result ≡ lowest (outcome_number a) (outcome_number b) }
{
    match (a, b) {
        (Ok(_), Ok(_)) => Ok(()),
        (Err(x), Ok(_)) => Err(x),
        (Ok(_), Err(y)) => Err(y),
        (Err(x), Err(y)) => {
            if curve::refusal_number(x) <= curve::refusal_number(y) {
                Err(x)
            } else {
                Err(y)
            }
        }
    }
}

// The lowest of 1 to 3 over both parts.
fn parts_checked(proxy: RawCurve, above: RawCurve) -> Result<(), Refusal>
    ensures { outcome_number result ≡ lowest (default_refusal proxy) (default_refusal above) }
{
    lower(
        curve_checks::checked_default(proxy),
        curve_checks::checked_default(above),
    )
}

// The proxy curve up to the contract capacity and the default curve above it as one default curve, which opening takes as a pack; or the lowest of 1 to 3 over both,
// then 23, then 24.
pub fn joined(proxy: RawCurve, above: RawCurve) -> Result<RawCurve, Refusal>
    ensures number { outcome_number result ≡ contract_refusal proxy above }
    ensures pack { result_unwrap_or result no_pack ≡ joined_pack proxy above }
    ensures exactly { (n : ℕ) → (outcome_number result ≡ n) ↔ First n (contract_demands proxy above) }
{
    parts_checked(proxy, above)?;
    if last_end(proxy) != above.start {
        return Err(Refusal::PartsApart);
    }
    let n = proxy.count + above.count;
    if Curve::MAX_STEPS < n {
        return Err(Refusal::PartsTogether);
    }
    Ok(RawCurve {
        start: proxy.start,
        count: n,
        steps: raised(proxy, above, n),
    })
}

// The same as a checked curve.
pub fn joined_curve(proxy: RawCurve, above: RawCurve) -> Result<Curve, Refusal>
    ensures number { outcome_number result ≡ contract_refusal proxy above }
    ensures curve { result_unwrap_or result blank_curve ≡ joined_curve proxy above }
{
    curve_checks::checked_default(joined(proxy, above)?)
}
