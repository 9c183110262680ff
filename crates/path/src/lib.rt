// The path verdicts of an interval (paper 01, Path verdict). The contracts cite specs/Tallies and the definitions of rules_path.
#![tactic(auto)]

mod constraint;

ghost use Rattle.std.specs.Prelude.{◌≡◌, ◌≤◌, ◌<◌, length, IfOk, IfSome};
ghost use Rattle.std.specs.Option.{unwrap_or};
ghost use Rattle.std.proofs.lemmas.List.Edits.{sets};
ghost use Rattle.rules_curve.specs.Refusals.{outcome_number};
ghost use Rattle.rules_interval.specs.Intervals.{interval_refusal};
ghost use Rattle.interval.specs.Over.{lent_interval};
ghost use Rattle.rules_path.specs.Paths.{largest};
ghost use Rattle.rules_state.specs.Layout.{most_resources};
ghost use Rattle.rules_state.specs.States.{market_in};
ghost use Rattle.rules_state.specs.Takes.{if_accepted};
ghost use Rattle.rules_state.specs.Verdicts.{judged_cells};
ghost use Rattle.path.specs.Offered.{offered_cells};
ghost use Rattle.path.specs.Tallies.{SellersIn, Sold, seller_of};

use interval::LentInterval;
use rules_curve::Refusal;
use rules_interval::Interval;
use rules_path::Market;

// Numbers of a constraint's offers, and of all constraints.
pub const OFFER_WIDTH: usize = 1 + Market::MAX_PORTFOLIOS;

pub const OFFER_ROOM: usize = Interval::MAX_CONSTRAINTS * OFFER_WIDTH;

// The number of the largest of sixteen amounts; ties: the lower number.
pub fn largest_of(w: &[u64; Market::MAX_PORTFOLIOS]) -> usize
    ensures { (result ≡ largest w.now 16) × (result < 16) }
{
    constraint::largest_to(w, Market::MAX_PORTFOLIOS)
}

// The portfolio of resource r where that is a net seller.
fn seller_of(state: &[i64], r: usize) -> Option<usize>
    requires { r < most_resources }
    ensures seller { unwrap_or result 16 ≡ seller_of (market_in state.now) r }
    ensures few { IfSome result (λ p. p < 16) }
{
    let p = cells::whole_at(state, rules_state::MARKET_FROM + 1 + r) as usize;
    if Market::MAX_PORTFOLIOS <= p {
        return None;
    }
    let mark = cells::cell_at(
        state,
        rules_state::MARKET_FROM + 1 + Interval::MAX_RESOURCES + p,
    );
    if mark == 1 {
        return Some(p);
    }
    None
}

// The net seller of each of the first n resources, or 16, a byte each, as the pass over the resources reads them; and 1 more than the highest of them, 0 where there is none.
fn sellers_in(state: &[i64], n: usize, sellers: &mut [u8; Interval::MAX_RESOURCES]) -> usize
    requires { (n ≤ most_resources) × (length sellers.old ≡ most_resources) }
    ensures sellers { SellersIn (market_in state.now) n sellers.new }
    ensures ports { Sold sellers.new n result }
{
    let mut ports: usize = 0;
    for r in 0..n {
        if let Some(p) = seller_of(state, r) {
            sellers[r] = p as u8;
            ports = ports.max(p + 1);
        } else {
            sellers[r] = 16;
        }
    }
    ports
}

// The same of the resources of an interval of these values; or the lowest of refusals 13 to 16 that applies.
#[tactic(auto, unfolding(rules_state::specs::States::market_in))]
fn checked_sellers(
    state: &[i64],
    asked: &LentInterval,
    sellers: &mut [u8; Interval::MAX_RESOURCES],
) -> Result<usize, Refusal>
    ensures number { outcome_number result ≡ interval_refusal (market_in state.now).resources (lent_interval asked.now) }
    ensures sellers { IfOk result (λ ports. SellersIn (market_in state.now) asked.now.resources sellers.new × Sold sellers.new asked.now.resources ports) }
{
    let known = cells::whole_at(state, rules_state::MARKET_FROM) as usize;
    interval::checked(known, asked)?;
    let ports = sellers_in(state, asked.resources, sellers);
    Ok(ports)
}

// The verdicts on the constraints of an interval of these values in the market that cells stand for, put at the front of `verdicts`; or the lowest of refusals 13 to 16
// that applies, and `verdicts` as it was. A number past the end of a slice is 0.
pub fn judged_into(
    state: &[i64],
    asked: &LentInterval,
    verdicts: &mut [i64; rules_state::VERDICT_ROOM],
) -> Result<(), Refusal>
    ensures number { outcome_number result ≡ interval_refusal (market_in state.now).resources (lent_interval asked.now) }
    ensures verdicts { verdicts.new ≡ if_accepted (interval_refusal (market_in state.now).resources (lent_interval asked.now)) (sets verdicts.old 0 (judged_cells (market_in state.now) (lent_interval asked.now))) verdicts.old }
{
    let mut sellers = [16u8; Interval::MAX_RESOURCES];
    let ports = checked_sellers(state, asked, &mut sellers)?;
    for c in 0..asked.constraints {
        constraint::judge_into(&sellers, ports, asked, c, verdicts);
    }
    Ok(())
}

// What net sellers can withhold on the constraints of an interval of these values in the market that cells stand for, put at the front of `offered`; or the lowest of
// refusals 13 to 16 that applies, and `offered` as it was. A number past the end of a slice is 0.
pub fn offered_into(
    state: &[i64],
    asked: &LentInterval,
    offered: &mut [u64; OFFER_ROOM],
) -> Result<(), Refusal>
    ensures number { outcome_number result ≡ interval_refusal (market_in state.now).resources (lent_interval asked.now) }
    ensures offered { offered.new ≡ if_accepted (interval_refusal (market_in state.now).resources (lent_interval asked.now)) (sets offered.old 0 (offered_cells (market_in state.now) (lent_interval asked.now))) offered.old }
{
    let mut sellers = [16u8; Interval::MAX_RESOURCES];
    checked_sellers(state, asked, &mut sellers)?;
    for c in 0..asked.constraints {
        constraint::offer_into(&sellers, asked, c, offered);
    }
    Ok(())
}
