// What an interval, or a pass, makes of floor prices, and why (paper 01, Interval and hour; 31.2.3, 34.1.5; Refused, by place: 13 to 16).
// The contracts cite specs/Entering, specs/Places and the definitions of rules_hour and rules_state.
#![tactic(auto)]

ghost use Rattle.std.specs.Prelude.{◌≡◌, true, cond, ◌*◌, ◌≤◌, ◌<◌, nat_abs, length};
ghost use mathlib.Core.List.{[], ◌∷◌, flat_map};
ghost use Rattle.std.proofs.lemmas.List.Edits.{sets};
ghost use Rattle.rules_number.specs.Over.{listed};
ghost use Rattle.rules_curve.specs.Refusals.{outcome_number};
ghost use Rattle.rules_mitigation.specs.Mitigation.{lowered};
ghost use Rattle.rules_interval.specs.Intervals.{cell, interval_refusal};
ghost use Rattle.rules_hour.specs.Cuts.{competitive_price, cut_from};
ghost use Rattle.rules_state.specs.Layout.{most_resources, cause_width, cause_room, market_from};
ghost use Rattle.rules_state.specs.States.{floor_of, price_of, market_in};
ghost use Rattle.rules_state.specs.Verdicts.{judged_cells};
ghost use Rattle.rules_state.specs.Causes.{causes_cells};
ghost use Rattle.rules_state.specs.Takes.{if_accepted, cut_cell, cuts_by};
ghost use Rattle.interval.specs.Over.{lent_interval};
ghost use Rattle.cutting.specs.Entering.{enters_by, Lists, Addable, component_over, Priced, cut_over, cause_over};
ghost use Rattle.cutting.specs.Places.{count_at, counted};

use interval::LentInterval;
use rules_curve::Refusal;
use rules_interval::Interval;

// The cut of a resource: the floor price, where dispatch and component are above 0.
fn cut_by(dispatch: i64, lmp: i64, component: i64, parameter: i64) -> Option<i64>
    requires { (nat_abs lmp ≤ 100000000) × ((nat_abs component ≤ 3200000000000000) × (nat_abs parameter ≤ 100)) }
    ensures { result ≡ cut_from dispatch lmp component parameter }
{
    if dispatch <= 0 {
        return None;
    }
    if component <= 0 {
        return None;
    }
    let competitive = number::ceil_by(lmp * 1_000_000 - component, 1_000_000);
    Some(competitive + parameter)
}

// 1 for the cell of a finding that lets its constraint enter the component, else 0.
fn enters(finding: i64) -> usize
    ensures { result ≡ cond (enters_by finding) 1 0 }
{
    usize::from(finding == 1)
}

// Lists those of m constraints that enter the component, by the cells of their verdicts, and answers how many they are.
fn entering_in(verdicts: &[i64], m: usize, list: &mut [u8; Interval::MAX_CONSTRAINTS]) -> usize
    requires { (length verdicts.now ≡ 640) × ((length list.old ≡ 32) × (m ≤ 32)) }
    ensures { Lists verdicts.now m list.new result }
{
    let mut count = 0;
    for c in 0..m {
        list[count] = c as u8;
        count += enters(verdicts[rules_state::VERDICT_WIDTH * c]);
    }
    count
}

// The factor at a cell, 0 past the end; `inside` says that it isn't past it, for a whole row at once: a test of each cell costs more.
fn factor_at(factors: &[i64], inside: bool, i: usize) -> i64
    requires { inside ≡ true → i < length factors.now }
    ensures { result ≡ cell factors.now i }
{
    if inside {
        factors[i]
    } else {
        cells::cell_at(factors, i)
    }
}

// C, the non-competitive congestion component of resource r, over the constraints that enter it.
fn component_over<'a>(factors: &'a [i64], shadow: &'a [i64], entering: &'a [u8], r: usize) -> i64
    requires { Addable factors.now shadow.now entering.now r }
    ensures { result ≡ component_over factors.now shadow.now entering.now r }
{
    let row = r * Interval::MAX_CONSTRAINTS;
    let inside = row + Interval::MAX_CONSTRAINTS <= factors.len();
    let mut sum = 0;
    for c in entering {
        let c = *c as usize;
        sum += factor_at(factors, inside, row + c) * cells::cell_at(shadow, c);
    }
    -sum
}

// The cut of resource r of an interval in which these constraints enter the component, which is asked for only where the resource is dispatched.
fn cut_over<'a>(asked: &'a LentInterval, entering: &'a [u8], r: usize) -> Option<i64>
    requires { (r < asked.now.resources) × Priced (lent_interval asked.now) entering.now }
    ensures { result ≡ cut_over (lent_interval asked.now) entering.now r }
{
    let output = interval::output_at(asked.outputs, r);
    if output.dispatch <= 0 {
        return None;
    }
    cut_by(
        output.dispatch,
        output.lmp,
        component_over(asked.factors, asked.shadow, entering, r),
        asked.parameter,
    )
}

// The floor price of a cut, or that before it where it is lower.
fn lowered_to(mark: i64, before: i64, price: i64) -> i64
    ensures { result ≡ price_of (lowered (floor_of mark before).price (Some price)) }
{
    if mark == 0 {
        price
    } else {
        number::min(before, price)
    }
}

// Marks resource r as cut and puts its floor price, where there is a cut. The marks begin at cell `from`.
fn cut_cell(state: &mut [i64], from: usize, r: usize, cut: Option<i64>)
    requires { (from ≤ market_from) × (r < 64) }
    ensures { state.new ≡ cut_cell from r cut state.old }
{
    let Some(price) = cut else {
        return;
    };
    let at = from + Interval::MAX_RESOURCES + r;
    let mark = cells::cell_at(state, from + r);
    let before = cells::cell_at(state, at);
    cells::put(state, from + r, 1);
    cells::put(state, at, lowered_to(mark, before, price));
}

// Cuts each of the resources of an interval in which these constraints enter the component.
fn cut_cells<'a>(state: &mut [i64], from: usize, entering: &'a [u8], asked: &'a LentInterval)
    requires { (from ≤ market_from) × Priced (lent_interval asked.now) entering.now }
    ensures { state.new ≡ cuts_by (cut_over (lent_interval asked.now) entering.now) from asked.now.resources state.old }
{
    for r in 0..asked.resources {
        cut_cell(state, from, r, cut_over(asked, entering, r));
    }
}

// The cell that counts the passes of the quarter hour, or the intervals of the hour; the cuts begin after it.
fn count_at(pass: bool) -> usize
    ensures { result ≡ count_at pass }
{
    if pass { rules_state::QUARTER_FROM } else { 0 }
}

// The cuts of an interval, or of a pass, of these values in the hour that the state stands for, put into the standing, or into the quarter hour, with the count, and its
// verdicts at the front of `verdicts`; or the lowest of refusals 13 to 16 that applies, and both as they were.
pub fn cut_into(
    state: &mut [i64],
    pass: bool,
    count: u64,
    asked: &LentInterval,
    verdicts: &mut [i64; rules_state::VERDICT_ROOM],
) -> Result<(), Refusal>
    ensures number { outcome_number result ≡ interval_refusal (market_in state.old).resources (lent_interval asked.now) }
    ensures state { state.new ≡ if_accepted (interval_refusal (market_in state.old).resources (lent_interval asked.now)) (counted pass count (lent_interval asked.now) state.old) state.old }
    ensures verdicts { verdicts.new ≡ if_accepted (interval_refusal (market_in state.old).resources (lent_interval asked.now)) (sets verdicts.old 0 (judged_cells (market_in state.old) (lent_interval asked.now))) verdicts.old }
{
    path::judged_into(state, asked, verdicts)?;
    let mut list = [0u8; Interval::MAX_CONSTRAINTS];
    let entering = entering_in(verdicts, asked.constraints, &mut list);
    let at = count_at(pass);
    cut_cells(state, at + 1, &list[..entering], asked);
    cells::put_whole(state, at, count);
    Ok(())
}

// The competitive price of a resource with this price and component.
fn competitive_of(lmp: i64, component: i64) -> i64
    requires { (nat_abs lmp ≤ 100000000) × (nat_abs component ≤ 3200000000000000) }
    ensures { result ≡ competitive_price lmp component }
{
    number::ceil_by(lmp * 1_000_000 - component, 1_000_000)
}

// Puts four numbers from a cell on.
fn put_four(out: &mut [i64], at: usize, a: i64, b: i64, c: i64, d: i64)
    requires { at ≤ cause_room }
    ensures { out.new ≡ sets out.old at (a ∷ b ∷ c ∷ d ∷ []) }
{
    cells::put(out, at, a);
    cells::put(out, at + 1, b);
    cells::put(out, at + 2, c);
    cells::put(out, at + 3, d);
}

// Puts why resource r is cut or not at its place: the cut mark, the component, the competitive price and the floor price; zeros where there is no such resource.
fn put_cause<'a>(causes: &mut [i64], r: usize, entering: &'a [u8], asked: &'a LentInterval)
    requires { (r < 64) × Priced (lent_interval asked.now) entering.now }
    ensures { causes.new ≡ sets causes.old (cause_width * r) (cause_over (lent_interval asked.now) entering.now r) }
{
    let at = rules_state::CAUSE_WIDTH * r;
    if asked.resources <= r {
        put_four(causes, at, 0, 0, 0, 0);
        return;
    }
    let component = component_over(asked.factors, asked.shadow, entering, r);
    let output = interval::output_at(asked.outputs, r);
    let cut = cut_by(output.dispatch, output.lmp, component, asked.parameter);
    let competitive = competitive_of(output.lmp, component);
    put_four(
        causes,
        at,
        state_puts::mark_of(cut),
        component,
        competitive,
        state_puts::price_of(cut),
    );
}

// The same of each resource.
fn put_causes<'a>(causes: &mut [i64], entering: &'a [u8], asked: &'a LentInterval)
    requires { Priced (lent_interval asked.now) entering.now }
    ensures { causes.new ≡ sets causes.old 0 (flat_map (cause_over (lent_interval asked.now) entering.now) (listed (λ r. r) most_resources)) }
{
    for r in 0..Interval::MAX_RESOURCES {
        put_cause(causes, r, entering, asked);
    }
}

// Why an interval of these values cuts each resource of the hour that the state stands for or not, put at the front of `causes`; or the lowest of refusals 13 to 16
// that applies, and `causes` as it was.
pub fn causes_into(state: &[i64], asked: &LentInterval, causes: &mut [i64]) -> Result<(), Refusal>
    ensures number { outcome_number result ≡ interval_refusal (market_in state.now).resources (lent_interval asked.now) }
    ensures causes { causes.new ≡ if_accepted (interval_refusal (market_in state.now).resources (lent_interval asked.now)) (sets causes.old 0 (causes_cells (market_in state.now) (lent_interval asked.now))) causes.old }
{
    let mut verdicts = [0i64; rules_state::VERDICT_ROOM];
    path::judged_into(state, asked, &mut verdicts)?;
    let mut list = [0u8; Interval::MAX_CONSTRAINTS];
    let entering = entering_in(&verdicts, asked.constraints, &mut list);
    put_causes(causes, &list[..entering], asked);
    Ok(())
}
