// One constraint judged straight into its cells: a pass over the resources, then the three largest amounts that net sellers can withhold.
// The contracts cite specs/Tallies and the definitions of rules_path.
ghost use Rattle.std.specs.Prelude.{◌≡◌, ◌∷◌, ◌<◌, ◌≤◌, ◌+◌, ◌*◌, pos, nat_abs, length, replicate};
ghost use Rattle.std.proofs.lemmas.List.Edits.{sets};
ghost use Rattle.rules_path.specs.Paths.{effectiveness, largest, top};
ghost use Rattle.rules_path.specs.Verdicts.{verdict_of};
ghost use Rattle.rules_state.specs.Layout.{verdict_width, verdict_room};
ghost use Rattle.rules_state.specs.Verdicts.{verdict_cells};
ghost use Rattle.path.specs.Offered.{offer_width, offer_room, offered_row};
ghost use Rattle.path.specs.Tallies.{SoundOver, Reaches, Held, Within, Sold, sold_in, sold_of, tallied, tally_of, top_of, Clear, withheld_cells};

use interval::LentInterval;
use rules_interval::Interval;
use rules_path::{Market, Verdict};

// What a pass over the resources adds up, beside what each net seller can withhold.
#[derive(Clone, Copy)]
pub(crate) struct Tally {
    demand: u64,
    supply: u64,
}

// How much of a resource's output relieves the constraint, in millionths: -s where its shift factor s is below 0.
fn effectiveness(s: i64) -> u64
    requires { nat_abs s ≤ 1000000 }
    ensures { result ≡ effectiveness s }
{
    if s < 0 { (-s) as u64 } else { 0 }
}

// How many of n resources have a factor on constraint c in a slice of that length.
fn rows_in(length: usize, n: usize, c: usize) -> usize
    ensures { Reaches length n c result }
{
    if length <= c {
        return 0;
    }
    number::at_most((length - c - 1) / Interval::MAX_CONSTRAINTS + 1, n)
}

// The tally of a constraint, what each net seller can withhold into blank offers. A resource whose factor isn't below 0, or is past the end, adds nothing, one that is no
// net seller's nothing that can be withheld.
fn tally_of(
    sellers: &[u8; Interval::MAX_RESOURCES],
    asked: &LentInterval,
    c: usize,
    offers: &mut [u64; Market::MAX_PORTFOLIOS],
) -> Tally
    requires { SoundOver asked.now.factors.now asked.now.outputs.now asked.now.resources c × (offers.old ≡ replicate 16 0) }
    ensures { tallied result offers.new ≡ tally_of (sold_of (pos 0) sellers.now asked.now.factors.now asked.now.outputs.now asked.now.resources c) }
{
    let factors = asked.factors;
    let rows = rows_in(factors.len(), asked.resources, c);
    let mut demand: u64 = 0;
    let mut supply: u64 = 0;
    for r in 0..rows {
        let e = effectiveness(factors[r * Interval::MAX_CONSTRAINTS + c]);
        if 0 < e {
            let out = interval::output_at(asked.outputs, r);
            let most = out.available as u64;
            let kept = out.floor as u64;
            let wanted = out.dispatch as u64;
            demand += e * wanted;
            supply += e * most;
            let p = usize::from(sellers[r]);
            if p < Market::MAX_PORTFOLIOS {
                offers[p] += e * (most - kept);
            }
        }
    }
    Tally { demand, supply }
}

// The number of the largest of the first n amounts; ties: the lower number.
pub(crate) fn largest_to(w: &[u64; Market::MAX_PORTFOLIOS], n: usize) -> usize
    requires { (0 < n) × (n ≤ 16) }
    ensures { (result ≡ largest w.now n) × (result < 16) }
{
    let mut best: usize = 0;
    for i in 0..n {
        if w[best] < w[i] {
            best = i;
        }
    }
    best
}

// The number of the largest of all amounts, of which those from `ports` on are 0.
fn largest_of(w: &[u64; Market::MAX_PORTFOLIOS], ports: usize) -> usize
    requires { Within w.now ports }
    ensures { (result ≡ largest w.now 16) × (result < 16) }
{
    if ports <= 1 {
        return 0;
    }
    if ports <= 8 {
        return largest_to(w, 8);
    }
    largest_to(w, 16)
}

// The three largest amounts, added up, and whose they are.
#[derive(Clone, Copy)]
pub(crate) struct Top {
    total: u64,
    named: u64,
}

// Puts what each seller named withholds into 16 clear cells, the largest first: each is struck out before the next is looked for.
fn put_sellers(
    w: &mut [u64; Market::MAX_PORTFOLIOS],
    ports: usize,
    verdicts: &mut [i64; rules_state::VERDICT_ROOM],
    at: usize,
) -> Top
    requires { Held w.old × Within w.old ports × Clear verdicts.old at × (at + 16 ≤ verdict_room) }
    ensures top { result ≡ top_of (top 3 w.old 16) }
    ensures cells { verdicts.new ≡ sets verdicts.old at (withheld_cells (top 3 w.old 16)) }
{
    let mut total: u64 = 0;
    let mut named: u64 = 0;
    for turn in 0..Verdict::MAX_SELLERS {
        let p = largest_of(w, ports);
        let amount = w[p];
        if amount == 0 {
            return Top { total, named };
        }
        total += amount;
        named += 1 << p;
        verdicts[at + p] = amount as i64;
        w[p] = 0;
    }
    Top { total, named }
}

// Clears the cells of a verdict.
fn put_none(verdicts: &mut [i64; rules_state::VERDICT_ROOM], at: usize)
    requires { at + verdict_width ≤ verdict_room }
    ensures { verdicts.new ≡ sets verdicts.old at (replicate verdict_width (pos 0)) }
{
    verdicts[at..at + rules_state::VERDICT_WIDTH].fill(0);
}

// Puts the verdict on constraint c: its finding, demand, left, the sellers named, and what each portfolio withholds.
pub(crate) fn judge_into(
    sellers: &[u8; Interval::MAX_RESOURCES],
    ports: usize,
    asked: &LentInterval,
    c: usize,
    verdicts: &mut [i64; rules_state::VERDICT_ROOM],
)
    requires { SoundOver asked.now.factors.now asked.now.outputs.now asked.now.resources c × Sold sellers.now asked.now.resources ports }
    ensures { verdicts.new ≡ sets verdicts.old (verdict_width * c) (verdict_cells (verdict_of (sold_in asked.now sellers.now c))) }
{
    let at = rules_state::VERDICT_WIDTH * c;
    put_none(verdicts, at);
    let shadow = cells::cell_at(asked.shadow, c);
    if shadow <= 0 {
        verdicts[at] = 2;
        return;
    }
    let mut offers = [0u64; Market::MAX_PORTFOLIOS];
    let tally = tally_of(sellers, asked, c, &mut offers);
    let top = put_sellers(&mut offers, ports, verdicts, at + 4);
    let left = tally.supply - top.total;
    if left < tally.demand {
        verdicts[at] = 1;
    }
    verdicts[at + 1] = tally.demand as i64;
    verdicts[at + 2] = left as i64;
    verdicts[at + 3] = top.named as i64;
}

// Puts an amount and what each portfolio offers.
fn put_offers(
    offered: &mut [u64; crate::OFFER_ROOM],
    at: usize,
    lack: u64,
    offers: &[u64; Market::MAX_PORTFOLIOS],
)
    requires { (at + offer_width ≤ offer_room) × (length offers.now ≡ 16) }
    ensures { offered.new ≡ sets offered.old at (lack ∷ offers.now) }
{
    offered[at] = lack;
    offered[at + 1..at + crate::OFFER_WIDTH].copy_from_slice(offers);
}

// Puts what net sellers can withhold on constraint c: the least amount that leaves it short, and what each portfolio offers; zeros where it
// doesn't bind.
pub(crate) fn offer_into(
    sellers: &[u8; Interval::MAX_RESOURCES],
    asked: &LentInterval,
    c: usize,
    offered: &mut [u64; crate::OFFER_ROOM],
)
    requires { SoundOver asked.now.factors.now asked.now.outputs.now asked.now.resources c }
    ensures { offered.new ≡ sets offered.old (offer_width * c) (offered_row (sold_in asked.now sellers.now c)) }
{
    let mut offers = [0u64; Market::MAX_PORTFOLIOS];
    let at = crate::OFFER_WIDTH * c;
    let shadow = cells::cell_at(asked.shadow, c);
    if shadow <= 0 {
        put_offers(offered, at, 0, &offers);
        return;
    }
    let tally = tally_of(sellers, asked, c, &mut offers);
    let lack = tally.supply + 1 - tally.demand;
    put_offers(offered, at, lack, &offers);
}
