// The checks 1 to 3 of a curve as it is read (paper 01, Curve; Refused, by place). The contracts cite the definitions of rules_curve.
#![tactic(auto)]

ghost use Rattle.std.specs.Prelude.{◌↔◌, ◌≡◌, ℕ, ◌≤◌, length};
ghost use Rattle.std.specs.Result.{result_unwrap_or};
ghost use Rattle.rules_curve.specs.Conditions.{bid_demands, default_demands};
ghost use Rattle.rules_curve.specs.Demands.{First};
ghost use Rattle.rules_curve.specs.Refusals.{outcome_number};
ghost use Rattle.rules_curve.specs.Curves.{most_steps, blank_curve, raw_steps, step_of, curve_of, edges_good, prices_good, curve_refusal, checked_curve, bid_refusal, checked_bid, default_refusal, checked_default};

use rules_curve::{Curve, RawCurve, RawStep, Refusal, Step};

fn settled_step(step: RawStep) -> Step
    ensures { result ≡ step_of step }
{
    Step {
        end: number::whole(step.end),
        price: step.price,
    }
}

// How many steps count: at most as many as there is room for.
fn used(raw: RawCurve) -> usize
    ensures { (result ≡ length (raw_steps raw)) × (result ≤ most_steps) }
{
    raw.count.min(Curve::MAX_STEPS)
}

// Whether no edge calls for refusal 2: the loop carries the edge that the next end must lie above.
fn edges_good(raw: RawCurve) -> bool
    ensures { result ≡ edges_good raw }
{
    if !number::within(raw.start, 0, Curve::MAX_QUANTITY) {
        return false;
    }
    let mut edge = raw.start;
    let steps = &raw.steps[..used(raw)];
    for step in steps {
        if step.end <= edge || Curve::MAX_QUANTITY < step.end {
            return false;
        }
        edge = step.end;
    }
    true
}

// Whether no price calls for refusal 3: the loop carries the price that the next one must not fall below.
fn prices_good(raw: RawCurve, low: i64, top: i64) -> bool
    ensures { result ≡ prices_good low top raw }
{
    let mut price = low;
    let steps = &raw.steps[..used(raw)];
    for step in steps {
        if !number::within(step.price, price, top) {
            return false;
        }
        price = step.price;
    }
    true
}

// The curve of what was read, for one that passes the checks.
fn settled(raw: RawCurve) -> Curve
    ensures { result ≡ curve_of raw }
{
    let used = &raw.steps[..used(raw)];
    let mut steps = [Step { end: 0, price: 0 }; Curve::MAX_STEPS];
    for (i, step) in used.iter().enumerate() {
        steps[i] = settled_step(*step);
    }
    Curve {
        start: number::whole(raw.start),
        count: used.len(),
        steps,
    }
}

// The curve of so many steps at most, with prices from low to top, or the lowest of refusals 1 to 3 that applies.
pub fn checked(raw: RawCurve, most: usize, low: i64, top: i64) -> Result<Curve, Refusal>
    ensures number { outcome_number result ≡ curve_refusal most low top raw }
    ensures curve { result_unwrap_or result blank_curve ≡ checked_curve most low top raw }
{
    if raw.count == 0 || most < raw.count {
        return Err(Refusal::StepCount);
    }
    if !edges_good(raw) {
        return Err(Refusal::Edge);
    }
    if !prices_good(raw, low, top) {
        return Err(Refusal::Price);
    }
    Ok(settled(raw))
}

// A bid, by month since the rule took effect; the number is that of the first of the paper's demands that it doesn't meet, and 0 exactly when it meets all.
pub fn checked_bid(raw: RawCurve, month: u64) -> Result<Curve, Refusal>
    ensures number { outcome_number result ≡ bid_refusal month raw }
    ensures curve { result_unwrap_or result blank_curve ≡ checked_bid month raw }
    ensures exactly { (n : ℕ) → (outcome_number result ≡ n) ↔ First n (bid_demands month raw) }
{
    checked(
        raw,
        Curve::MAX_BID_STEPS,
        Curve::LOWEST_BID,
        curve::highest_bid(month),
    )
}

// A default curve from a pack, and its number likewise.
pub fn checked_default(raw: RawCurve) -> Result<Curve, Refusal>
    ensures number { outcome_number result ≡ default_refusal raw }
    ensures curve { result_unwrap_or result blank_curve ≡ checked_default raw }
    ensures exactly { (n : ℕ) → (outcome_number result ≡ n) ↔ First n (default_demands raw) }
{
    checked(
        raw,
        Curve::MAX_STEPS,
        Curve::LOWEST_DEFAULT,
        Curve::HIGHEST_DEFAULT,
    )
}
