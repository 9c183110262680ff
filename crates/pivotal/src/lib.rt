// Short on every path together (paper 02, 2.11): sets of net sellers tried in rising order of their number. The contracts cite specs/Rows and the definitions of
// rules_pivotal.
#![tactic(auto)]

ghost use Rattle.std.specs.Prelude.{◌≡◌, true, ◌≤◌, ◌<◌, leb, pos, IfOk};
ghost use Rattle.std.specs.Result.{result_unwrap_or};
ghost use Rattle.std.specs.Int.Count.{ones};
ghost use Rattle.std.specs.Int.Signed.{lt_z};
ghost use Rattle.rules_curve.specs.Refusals.{outcome_number};
ghost use Rattle.rules_pivotal.specs.Searches.{better_of, searched};
ghost use Rattle.rules_pivotal.specs.Pivotals.{net_sellers, any_to, none_found, pivotal_refusal, pivotal_of};
ghost use Rattle.rules_library.specs.Slices.{cell_at};
ghost use Rattle.rules_state.specs.States.{market_in};
ghost use Rattle.interval.specs.Over.{lent_interval};
ghost use Rattle.pivotal.specs.Rows.{Held, lack_at, part_of, withheld_at, works_on, offers_at, need_at, floor_on, Floor, pivotal_on};

use interval::LentInterval;
use rules_curve::Refusal;
use rules_interval::Interval;
use rules_path::Market;
use rules_pivotal::{Found, Pivotal};

// The amount, where portfolio p is in the set s.
fn part_of(s: u32, p: usize, amount: u64) -> u64
    requires { p < 32 }
    ensures { result ≡ part_of s p amount }
{
    if (s >> p) % 2 == 1 { amount } else { 0 }
}

// What the set s withholds on constraint c.
fn withheld_by(s: u32, rows: &[u64; path::OFFER_ROOM], c: usize) -> u64
    requires { (c < 32) × Held rows.now }
    ensures { result ≡ withheld_at rows.now s c }
{
    let from = path::OFFER_WIDTH * c + 1;
    let mut sum: u64 = 0;
    for p in 0..Market::MAX_PORTFOLIOS {
        sum += part_of(s, p, rows[from + p]);
    }
    sum
}

// Whether the set s leaves constraint c short, or that doesn't bind.
fn is_short(s: u32, rows: &[u64; path::OFFER_ROOM], c: usize) -> bool
    requires { (c < 32) × Held rows.now }
    ensures { result ≡ leb (lack_at rows.now c) (withheld_at rows.now s c) }
{
    let lack = rows[path::OFFER_WIDTH * c];
    if lack == 0 {
        return true;
    }
    lack <= withheld_by(s, rows, c)
}

// Whether the set s leaves each of n constraints short.
fn works(s: u32, rows: &[u64; path::OFFER_ROOM], n: usize) -> bool
    requires { (n ≤ 32) × Held rows.now }
    ensures { result ≡ works_on rows.now n s }
{
    for c in 0..n {
        if !is_short(s, rows, c) {
            return false;
        }
    }
    true
}

// The better of two sets, of which the first may not work: one below the floor doesn't.
fn better(s: u32, best: u32, floor: u32, rows: &[u64; path::OFFER_ROOM], n: usize) -> u32
    requires { (n ≤ 32) × (Held rows.now × (works_on rows.now n s ≡ true → floor ≤ ones s)) }
    ensures { result ≡ better_of (works_on rows.now n) s best }
{
    let size = verdict::sellers_named(s);
    if verdict::sellers_named(best) <= size {
        return best;
    }
    if size < floor {
        return best;
    }
    if works(s, rows, n) { s } else { best }
}

// Tries the sets of net sellers in rising order of their number, the empty one left out, until the budget is used up.
fn search(sellers: u32, budget: u64, floor: u32, rows: &[u64; path::OFFER_ROOM], n: usize) -> Found
    requires { (n ≤ 32) × ((sellers < 65536) × (Held rows.now × Floor rows.now n sellers floor)) }
    ensures { result ≡ searched (works_on rows.now n) sellers budget }
{
    let mut best = sellers;
    let mut tried: u64 = 0;
    for last in 0..sellers {
        let s = last + 1;
        if s & sellers == s {
            if tried < budget {
                best = better(s, best, floor, rows, n);
                tried += 1;
            }
        }
    }
    Found { best, tried }
}

// What each portfolio offers on constraint c.
fn offers_at(rows: &[u64; path::OFFER_ROOM], c: usize) -> [u64; Market::MAX_PORTFOLIOS]
    requires { c < 32 }
    ensures { result ≡ offers_at rows.now c }
{
    let from = path::OFFER_WIDTH * c + 1;
    let mut offers = [0u64; Market::MAX_PORTFOLIOS];
    offers.copy_from_slice(&rows[from..from + Market::MAX_PORTFOLIOS]);
    offers
}

// How many net sellers constraint c alone needs: those that can withhold most are taken one after the other until it is short.
fn need_of(rows: &[u64; path::OFFER_ROOM], c: usize) -> u32
    requires { (c < 32) × Held rows.now }
    ensures { result ≡ need_at rows.now c }
{
    let lack = rows[path::OFFER_WIDTH * c];
    let mut offers = offers_at(rows, c);
    let mut sum: u64 = 0;
    for k in 0..16 {
        if lack <= sum {
            return k;
        }
        let p = path::largest_of(&offers);
        sum += offers[p];
        offers[p] = 0;
    }
    16
}

// The largest count that one of n constraints alone needs.
fn floor_of(rows: &[u64; path::OFFER_ROOM], n: usize) -> u32
    requires { (n ≤ 32) × Held rows.now }
    ensures { result ≡ floor_on rows.now n }
{
    let mut floor: u32 = 0;
    for c in 0..n {
        floor = floor.max(need_of(rows, c));
    }
    floor
}

// All net sellers of the market that cells stand for, bit p standing for portfolio p.
fn net_sellers(state: &[i64]) -> u32
    ensures { (result ≡ net_sellers (market_in state.now)) × (result < 65536) }
{
    let from = rules_state::MARKET_FROM + 1 + Interval::MAX_RESOURCES;
    let mut set: u32 = 0;
    for p in 0..Market::MAX_PORTFOLIOS {
        if cells::whole_at(state, from + p) == 1 {
            set += 1 << p;
        }
    }
    set
}

// Whether one of n constraints binds. A price past the end is 0.
fn any_binds(shadow: &[i64], n: usize) -> bool
    ensures { result ≡ any_to (λ c. lt_z (pos 0) (cell_at shadow.now c)) n }
{
    for c in 0..n {
        if 0 < cells::cell_at(shadow, c) {
            return true;
        }
    }
    false
}

// The search over rows of n constraints: none, where all net sellers together don't work.
fn found_in(sellers: u32, budget: u64, rows: &[u64; path::OFFER_ROOM], n: usize) -> Pivotal
    requires { (n ≤ 32) × ((sellers < 65536) × (Held rows.now × Floor rows.now n sellers (floor_on rows.now n))) }
    ensures { result ≡ pivotal_on rows.now n sellers budget }
{
    if !works(sellers, rows, n) {
        return Pivotal {
            best: None,
            tried: 0,
            floor: 0,
        };
    }
    let floor = floor_of(rows, n);
    let found = search(sellers, budget, floor, rows, n);
    Pivotal {
        best: Some(found.best),
        tried: found.tried,
        floor: floor as u64,
    }
}

// The fewest net sellers whose full withholding leaves every binding constraint of an interval of these values short, in the market that cells stand for; or the lowest of 13 to
// 16 that applies, and 26 where no constraint binds. The cells are only read. A number past the end of a slice is 0.
pub fn found(state: &[i64], asked: &LentInterval, budget: u64) -> Result<Pivotal, Refusal>
    ensures number { let market = market_in state.now in
        let interval = lent_interval asked.now in
        outcome_number result ≡ pivotal_refusal market interval }
    ensures found { let market = market_in state.now in
        let interval = lent_interval asked.now in
        result_unwrap_or result none_found ≡ pivotal_of market interval budget }
    ensures in_budget { IfOk result (λ f. f.tried ≤ budget) }
{
    let mut rows = [0u64; path::OFFER_ROOM];
    path::offered_into(state, asked, &mut rows)?;
    if !any_binds(asked.shadow, asked.constraints) {
        return Err(Refusal::NothingBinds);
    }
    let sellers = net_sellers(state);
    Ok(found_in(sellers, budget, &rows, asked.constraints))
}
