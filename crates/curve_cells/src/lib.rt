// Curves put into two lent slices: the number of steps, the start and the ends; and the prices. What is past a slice's end is put nowhere. The contracts cite the
// definitions of rules_library and rules_state.
#![tactic(auto)]

ghost use Rattle.std.specs.Prelude.{◌≡◌, ◌∷◌, map, set};
ghost use Rattle.std.proofs.lemmas.List.Edits.{sets};
ghost use Rattle.rules_library.specs.Slices.{edges_of, prices_of};
ghost use Rattle.rules_state.specs.Curves.{mitigated_edges, mitigated_prices};

use rules_curve::{Curve, Step};
use rules_mitigation::Mitigated;

// Puts a number at an index.
fn put(edges: &mut [u64], i: usize, n: u64)
    ensures { edges.new ≡ set edges.old i n }
{
    if i < edges.len() {
        edges[i] = n;
    }
}

// So many steps.
fn put_steps(edges: &mut [u64], prices: &mut [i64], steps: &[Step])
    ensures edges { edges.new ≡ sets edges.old 2 (map (λ s. s.end) steps.now) }
    ensures prices { prices.new ≡ sets prices.old 0 (map (λ s. s.price) steps.now) }
{
    for (k, step) in steps.iter().enumerate() {
        put(edges, 2 + k, step.end);
        cells::put(prices, k, step.price);
    }
}

// A curve of this number of steps, this start and these steps.
fn put_curve(edges: &mut [u64], prices: &mut [i64], count: usize, start: u64, steps: &[Step])
    ensures edges { edges.new ≡ sets edges.old 0 (count ∷ start ∷ map (λ s. s.end) steps.now) }
    ensures prices { prices.new ≡ sets prices.old 0 (map (λ s. s.price) steps.now) }
{
    put(edges, 0, count as u64);
    put(edges, 1, start);
    put_steps(edges, prices, steps);
}

// A mitigated curve.
pub fn put_mitigated(edges: &mut [u64], prices: &mut [i64], curve: Mitigated)
    ensures edges { edges.new ≡ sets edges.old 0 (mitigated_edges curve) }
    ensures prices { prices.new ≡ sets prices.old 0 (mitigated_prices curve) }
{
    put_curve(edges, prices, curve.count, curve.start, &curve.steps);
}

// A default curve; of a count past its room, the steps that it has.
pub fn put_default(edges: &mut [u64], prices: &mut [i64], default: Curve)
    ensures edges { edges.new ≡ sets edges.old 0 (edges_of default) }
    ensures prices { prices.new ≡ sets prices.old 0 (prices_of default) }
{
    let count = number::at_most(default.count, Curve::MAX_STEPS);
    put_curve(edges, prices, count, default.start, &default.steps);
}
