// The curves of the resources of the hour that a lent slice of numbers stands for. The contracts cite the definitions of rules_state.
#![tactic(auto)]

ghost use Rattle.std.specs.Prelude.{◌≡◌, ◌+◌, ◌≤◌, get_or};
ghost use Rattle.rules_opening.specs.Resources.{blank_row};
ghost use Rattle.rules_state.specs.Layout.{state_room};
ghost use Rattle.rules_state.specs.States.{curve_in_cells, rows_in};

use rules_curve::{Curve, Step};
use rules_interval::Interval;
use rules_opening::Row;

// The row of no resource.
fn blank_row() -> Row
    ensures { result ≡ blank_row }
{
    Row {
        bid: curve::blank(),
        default: curve::blank(),
    }
}

// The curve from a cell on.
fn curve_in(state: &[i64], from: usize) -> Curve
    requires { from ≤ state_room }
    ensures { result ≡ curve_in_cells state.now from }
{
    let mut steps = [Step { end: 0, price: 0 }; Curve::MAX_STEPS];
    for (k, step) in steps.iter_mut().enumerate() {
        *step = Step {
            end: cells::whole_at(state, from + 2 + k),
            price: cells::cell_at(state, from + 2 + Curve::MAX_STEPS + k),
        };
    }
    Curve {
        start: cells::whole_at(state, from + 1),
        count: cells::whole_at(state, from) as usize,
        steps,
    }
}

// Bid and default curve of resource r: blank ones where there is no such resource.
pub fn row_in(state: &[i64], r: usize) -> Row
    ensures { result ≡ get_or (rows_in state.now) r blank_row }
{
    if Interval::MAX_RESOURCES <= r {
        return blank_row();
    }
    let from = rules_state::ROWS_FROM + rules_state::ROW_ROOM * r;
    Row {
        bid: curve_in(state, from),
        default: curve_in(state, from + rules_state::CURVE_ROOM),
    }
}
