// The hydro pack for programs in other languages, in an archive of its own: a function on numbers and slices under a C name. The contract cites the definitions of
// rules_hydro and rules_library.
#![tactic(auto)]

ghost use Rattle.std.specs.Prelude.{◌≡◌, pos};
ghost use Rattle.std.proofs.lemmas.List.Edits.{sets};
ghost use Rattle.rules_curve.specs.Curves.{curve_of, default_refusal};
ghost use Rattle.rules_library.specs.Slices.{put_answer, edges_of, prices_of, edges_with, prices_with};
ghost use Rattle.rules_hydro.specs.Hydros.{hydro_curve, hydro_refusal, hydro_in};

use hydro::LentHydro;
use rules_curve::{Curve, RawCurve};
use rules_hydro::HydroRefusal;

// How many numbers the two slices have to have: the number of steps, the start and the ends of a curve; and its prices.
const EDGES: usize = Curve::MAX_STEPS + 2;

const PRICES: usize = Curve::MAX_STEPS;

// Puts the curve of a pack that is taken. Answers 0.
fn put_pack(pack: RawCurve, edges: &mut [u64], prices: &mut [i64]) -> i64
    requires { default_refusal pack ≡ 0 }
    ensures answer { result ≡ pos 0 }
    ensures edges { edges.new ≡ sets edges.old 0 (edges_of (curve_of pack)) }
    ensures prices { prices.new ≡ sets prices.old 0 (prices_of (curve_of pack)) }
{
    match curve_checks::checked_default(pack) {
        Ok(curve) => {
            curve_cells::put_default(edges, prices, curve);
            0
        }
        // No pack that is taken comes here.
        Err(refusal) => hydro::outcome_number(Err(HydroRefusal::Curve(refusal))) as i64,
    }
}

// The hydro default. `hub_prices` has 14 numbers of each hub in turn: its day-ahead peak, its balance of month, then those of twelve months; numbers past its end
// count as 0. Answers 0 and puts the curve's number of steps, start and eleven ends into `edges`, and its eleven prices into `prices`; or answers 22, or 2, or -1
// where `edges` has fewer than 13 numbers or `prices` fewer than 11, and leaves both as they were.
#[unsafe(no_mangle)]
pub extern "C" fn noskjerf_hydro(
    low: i64,
    high: i64,
    heat: i64,
    gas: i64,
    hubs: usize,
    horizon: usize,
    hub_prices: &[i64],
    edges: &mut [u64],
    prices: &mut [i64],
) -> i64
    ensures answer { let x = hydro_in low high heat gas hubs horizon hub_prices.now in
        result ≡ put_answer edges.old prices.old (hydro_refusal x) }
    ensures edges { let x = hydro_in low high heat gas hubs horizon hub_prices.now in
        edges.new ≡ edges_with edges.old prices.old (hydro_refusal x) (curve_of (hydro_curve x)) }
    ensures prices { let x = hydro_in low high heat gas hubs horizon hub_prices.now in
        prices.new ≡ prices_with edges.old prices.old (hydro_refusal x) (curve_of (hydro_curve x)) }
{
    if edges.len() < EDGES {
        return -1;
    }
    if prices.len() < PRICES {
        return -1;
    }
    let given = LentHydro {
        low,
        high,
        heat,
        gas,
        hubs,
        horizon,
        prices: hub_prices,
    };
    match hydro::default_over(&given) {
        Ok(pack) => put_pack(pack, edges, prices),
        Err(refusal) => hydro::outcome_number(Err(refusal)) as i64,
    }
}
