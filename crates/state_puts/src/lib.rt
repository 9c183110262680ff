// The quarter hour of an hour, put into a lent slice of numbers, and the numbers of a floor price. The contracts cite the definitions of rules_state.
#![tactic(auto)]

ghost use Rattle.std.specs.Prelude.{◌≡◌, Option, ℤ, map, ◌+◌, ◌≤◌, length};
ghost use Rattle.std.proofs.lemmas.List.Edits.{sets};
ghost use Rattle.rules_state.specs.Layout.{most_resources, counted_room, quarter_from, market_from};
ghost use Rattle.rules_state.specs.States.{mark_of, price_of, floors_cells, quarter_cells};

use rules_hour::Floor;
use rules_interval::Interval;
use rules_pass::Quarter;

// The cut mark of a floor price.
pub fn mark_of(price: Option<i64>) -> i64
    ensures { result ≡ mark_of price }
{
    i64::from(price.is_some())
}

// The number of a floor price: 0 where there is none.
pub fn price_of(price: Option<i64>) -> i64
    ensures { result ≡ price_of price }
{
    price.unwrap_or(0)
}

// Puts a number of each floor price in turn, from a cell on.
fn put_each<F: Fn(Option<i64>) -> i64>(
    state: &mut [i64],
    at: usize,
    floors: &[Floor; Interval::MAX_RESOURCES],
    number: F,
)
    requires low { at ≤ market_from + most_resources }
    requires callable { F.IsAlwaysCallable number }
    ensures { (value : Option ℤ → ℤ) → ((price : Option ℤ) (x : ℤ) → F.post number price x → x ≡ value price) → state.new ≡ sets state.old at (map (λ f. value f.price) floors.now) }
{
    for (r, floor) in floors.iter().enumerate() {
        cells::put(state, at + r, number(floor.price));
    }
}

// Puts the cut marks and then the floor prices, from a cell on.
fn put_floors(state: &mut [i64], at: usize, floors: &[Floor; Interval::MAX_RESOURCES])
    requires { at ≤ market_from }
    ensures room { length (floors_cells floors.now) ≡ most_resources + most_resources }
    ensures state { state.new ≡ sets state.old at (floors_cells floors.now) }
{
    put_each(state, at, floors, mark_of);
    put_each(state, at + Interval::MAX_RESOURCES, floors, price_of);
}

// Puts how many passes there were, and their cuts.
pub fn put_quarter(state: &mut [i64], quarter: Quarter)
    ensures room { length (quarter_cells quarter) ≡ counted_room }
    ensures state { state.new ≡ sets state.old quarter_from (quarter_cells quarter) }
{
    cells::put_whole(state, rules_state::QUARTER_FROM, quarter.passes);
    put_floors(state, rules_state::QUARTER_FROM + 1, &quarter.floors);
}
