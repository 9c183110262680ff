// A fresh quarter hour, what a cut makes of a floor price, and the present curve of a resource (paper 01, Interval and hour; 31.2.3, 34.1.5;
// paper 02, 2.1). The contracts cite the definitions of rules_hour and rules_pass.
#![tactic(auto)]

ghost use Rattle.std.specs.Prelude.{◌≡◌};
ghost use Rattle.rules_hour.specs.Hours.{cut_floor, row_curve};
ghost use Rattle.rules_mitigation.specs.Mitigation.{blank_mitigated};
ghost use Rattle.rules_pass.specs.Passes.{fresh_quarter};

use rules_curve::Step;
use rules_hour::Floor;
use rules_interval::Interval;
use rules_mitigation::Mitigated;
use rules_opening::Row;
use rules_pass::Quarter;

// A quarter hour without a pass.
#[tactic(auto, unfolding(rules_pass::specs::Passes::fresh_quarter))]
pub fn fresh_quarter() -> Quarter
    ensures { result ≡ fresh_quarter }
{
    Quarter {
        passes: 0,
        floors: [Floor { price: None }; Interval::MAX_RESOURCES],
    }
}

// The floor price after a cut.
pub fn cut_floor(floor: Floor, cut: Option<i64>) -> Floor
    ensures { result ≡ cut_floor cut floor }
{
    Floor {
        price: mitigation::lowered(floor.price, cut),
    }
}

// The present curve of a row with this floor price.
pub fn row_curve(row: Row, floor: Floor) -> Mitigated
    ensures { result ≡ row_curve row floor }
{
    mitigation::mitigated_curve(row.bid, row.default, floor.price)
}

// The curve with no step: that of a resource that an hour doesn't have, and of a refused hour bid.
#[tactic(auto, unfolding(rules_number::specs::Over::padded))]
pub fn blank_curve() -> Mitigated
    ensures { result ≡ blank_mitigated }
{
    Mitigated {
        start: 0,
        count: 0,
        steps: [Step { end: 0, price: 0 }; Mitigated::MAX_STEPS],
    }
}
