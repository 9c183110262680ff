// The floor prices of the hour that a lent slice of numbers stands for: a number past its end counts as 0. The contracts cite the definitions of rules_state.
#![tactic(auto)]

ghost use Rattle.std.specs.Prelude.{◌≡◌, ◌≤◌, get_or};
ghost use Rattle.rules_hour.specs.Hours.{uncut};
ghost use Rattle.rules_state.specs.Layout.{market_from};
ghost use Rattle.rules_state.specs.States.{floor_of, floors_in, standing_in, quarter_in};

use rules_hour::Floor;
use rules_interval::Interval;

// A floor price, by its cut mark: 0 is uncut.
fn floor_of(mark: i64, price: i64) -> Floor
    ensures { result ≡ floor_of mark price }
{
    Floor {
        price: (mark != 0).then_some(price),
    }
}

// The floor price of resource r, where the marks begin at a cell: uncut where there is no such resource.
fn floor_from(state: &[i64], from: usize, r: usize) -> Floor
    requires { from ≤ market_from }
    ensures { result ≡ get_or (floors_in state.now from) r uncut }
{
    if Interval::MAX_RESOURCES <= r {
        return Floor { price: None };
    }
    let mark = cells::cell_at(state, from + r);
    let price = cells::cell_at(state, from + Interval::MAX_RESOURCES + r);
    floor_of(mark, price)
}

// The floor price of resource r in the standing, and in the quarter hour: uncut where there is no such resource.
pub fn floor_in(state: &[i64], r: usize) -> Floor
    ensures { result ≡ get_or (standing_in state.now).floors r uncut }
{
    floor_from(state, 1, r)
}

pub fn pass_floor_in(state: &[i64], r: usize) -> Floor
    ensures { result ≡ get_or (quarter_in state.now).floors r uncut }
{
    floor_from(state, rules_state::QUARTER_FROM + 1, r)
}
