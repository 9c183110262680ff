// The resources of an opening put into a lent slice of numbers, a block for each. The contracts cite specs/Blocks.
#![tactic(auto)]

ghost use Rattle.std.specs.Prelude.{List, ℤ, ◌≡◌, ◌+◌, ◌*◌, ◌≤◌, length};
ghost use mathlib.Core.List.{[], ◌∷◌, flat_map};
ghost use Rattle.std.proofs.lemmas.List.Edits.{sets};
ghost use Rattle.rules_curve.specs.Curves.{most_steps};
ghost use Rattle.rules_cost.specs.Costs.{most_points};
ghost use Rattle.rules_state.specs.Fits.{Each};
ghost use Rattle.rules_state.specs.Layout.{block_room};
ghost use Rattle.opening_puts.specs.Blocks.{blocks_room, raw_room, cost_room, raw_numbers, cost_numbers, source_number, block_numbers, Rooms};

use rules_cost::Costs;
use rules_curve::RawCurve;
use rules_interval::Interval;
use rules_opening::{Resource, Source};

// Numbers of the resources of an opening.
pub const BLOCKS_ROOM: usize = Interval::MAX_RESOURCES * rules_state::BLOCK_ROOM;

// Puts two numbers from an index on.
fn put_pair(blocks: &mut [i64], at: usize, first: i64, second: i64)
    requires { at + 2 ≤ blocks_room }
    ensures { blocks.new ≡ sets blocks.old at (first ∷ second ∷ []) }
{
    cells::put(blocks, at, first);
    cells::put(blocks, at + 1, second);
}

// Puts two numbers of each of a list in turn.
fn put_pairs<T: Copy, F: Fn(T) -> (i64, i64), const N: usize>(
    blocks: &mut [i64],
    at: usize,
    list: &[T; N],
    pair: F,
)
    requires room { at + 2 * N ≤ blocks_room }
    requires callable { F.IsAlwaysCallable pair }
    ensures { (numbers : T → List ℤ) → ((x : T) (y : ℤ × ℤ) → F.post pair x y → numbers x ≡ y.0 ∷ y.1 ∷ []) → blocks.new ≡ sets blocks.old at (flat_map numbers list.now) }
{
    for (k, x) in list.iter().enumerate() {
        let (first, second) = pair(*x);
        put_pair(blocks, at + 2 * k, first, second);
    }
}

// Puts a curve: its start, its number of steps, and the steps.
fn put_raw(blocks: &mut [i64], at: usize, raw: RawCurve)
    requires { at + raw_room ≤ blocks_room }
    ensures room { length raw.steps ≡ most_steps }
    ensures blocks { blocks.new ≡ sets blocks.old at (raw_numbers raw) }
{
    cells::put(blocks, at, raw.start);
    cells::put_whole(blocks, at + 1, raw.count as u64);
    put_pairs(blocks, at + 2, &raw.steps, |step| (step.end, step.price));
}

// Puts costs: the number of points, the points, and the seven charges.
fn put_costs(blocks: &mut [i64], at: usize, costs: Costs)
    requires { at + cost_room ≤ blocks_room }
    ensures room { length costs.points ≡ most_points }
    ensures blocks { blocks.new ≡ sets blocks.old at (cost_numbers costs) }
{
    cells::put_whole(blocks, at, costs.count as u64);
    put_pairs(
        blocks,
        at + 1,
        &costs.points,
        |point| (point.mw, point.heat),
    );
    put_pair(blocks, at + 23, costs.gas, costs.rate);
    put_pair(blocks, at + 25, costs.allowance, costs.om);
    put_pair(blocks, at + 27, costs.msc, costs.soc);
    cells::put(blocks, at + 29, costs.fee);
}

fn source_number(source: Source) -> i64
    ensures { result ≡ source_number source }
{
    match source {
        Source::Costs => 0,
        Source::Pack => 1,
    }
}

// Puts a resource: its portfolio, its bid, its source, its costs, its pack.
fn put_resource(blocks: &mut [i64], at: usize, resource: Resource)
    requires { at + block_room ≤ blocks_room }
    ensures room { Rooms resource }
    ensures blocks { blocks.new ≡ sets blocks.old at (block_numbers resource) }
{
    cells::put(blocks, at, resource.portfolio);
    put_raw(blocks, at + 1, resource.bid);
    cells::put(blocks, at + 25, source_number(resource.source));
    put_costs(blocks, at + 26, resource.costs);
    put_raw(blocks, at + 56, resource.pack);
}

// Puts the block of each resource.
pub fn put_blocks(blocks: &mut [i64], list: [Resource; Interval::MAX_RESOURCES])
    ensures room { Each Rooms list }
    ensures blocks { blocks.new ≡ sets blocks.old 0 (flat_map block_numbers list) }
{
    for (r, resource) in list.iter().enumerate() {
        put_resource(blocks, rules_state::BLOCK_ROOM * r, *resource);
    }
}
