// A checked curve put into lent slices of numbers. The contracts cite the definitions of rules_library.
#![tactic(auto)]

ghost use Rattle.std.specs.Prelude.{◌≡◌};
ghost use Rattle.std.specs.Result.{result_unwrap_or};
ghost use Rattle.rules_curve.specs.Curves.{blank_curve};
ghost use Rattle.rules_curve.specs.Refusals.{outcome_number};
ghost use Rattle.rules_library.specs.Slices.{put_answer, edges_with, prices_with};

use rules_curve::{Curve, Refusal};

// How many numbers the two slices have to have: the number of steps, the start and the ends of a curve; and its prices.
const EDGES: usize = Curve::MAX_STEPS + 2;

const PRICES: usize = Curve::MAX_STEPS;

// Puts a checked curve into two lent slices: answers 0 and puts the number of steps, the start and the ends into `edges` and the prices into `prices`; or answers the
// number of the refusal, or -1 where a slice has too few numbers, and leaves both as they were.
pub fn put_checked(checked: Result<Curve, Refusal>, edges: &mut [u64], prices: &mut [i64]) -> i64
    ensures answer { result ≡ put_answer edges.old prices.old (outcome_number checked) }
    ensures edges { edges.new ≡ edges_with edges.old prices.old (outcome_number checked) (result_unwrap_or checked blank_curve) }
    ensures prices { prices.new ≡ prices_with edges.old prices.old (outcome_number checked) (result_unwrap_or checked blank_curve) }
{
    if edges.len() < EDGES || prices.len() < PRICES {
        return -1;
    }
    match checked {
        Ok(curve) => {
            curve_cells::put_default(edges, prices, curve);
            0
        }
        Err(refusal) => curve::refusal_number(refusal) as i64,
    }
}
