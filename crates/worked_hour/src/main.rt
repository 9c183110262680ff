// Runs hours through the public calls and prints each answer: packs for no resource, for all and for one; a refused opening; of the third hour, a
// refused call in the middle, four accepted calls and a fifth, and the bids for the hour before the fourth and after it; and an hour with five-minute passes. The resources are those of paper 01's Case T and P9.
#![tactic(auto)]

ghost use Rattle.std.specs.Prelude.{◌≡◌, IfOk};
ghost use Rattle.std.specs.Result.{result_unwrap_or};
ghost use Rattle.rules_pass.specs.Passes.{opened_real_time};
ghost use Rattle.rules_hour_bid.specs.HourBids.{hour_bid_of};
ghost use Rattle.engine.specs.Hours.{as_real_time, unchanged};

use engine::{Answer, Hour};
use rules_cost::{Costs, Point};
use rules_curve::{Curve, RawCurve, RawStep, Refusal};
use rules_interval::Interval;
use rules_mitigation::Mitigated;
use rules_opening::{Opening, Resource, Source};
use rules_path::Verdict;
use std::io;

// A line for the outcome: the refusal's number, or 0.
fn print_outcome(rt: &impl Print, label: &str, outcome: Result<(), Refusal>) -> io::Result<()> {
    println!(rt; "{label}{}", curve::outcome_number(outcome))
}

// A line for a verdict: finding, demand, left and how many sellers are named.
fn print_verdict(rt: &impl Print, v: Verdict) -> io::Result<()> {
    println!(rt;
        "verdict {} {} {} sellers {}",
        verdict::finding_number(v.finding),
        v.demand,
        v.left,
        verdict::sellers_named(v.named)
    )
}

// A line for a curve: its label, resource, then end and price of each step.
fn print_curve(rt: &impl Print, label: &str, r: u64, c: Mitigated) -> io::Result<()> {
    print!(rt; "{label}{r}")?;
    for step in c.steps.iter().take(c.count) {
        print!(rt; " {} {}", step.end, number::whole(step.price))?;
    }
    println!(rt; "")
}

fn print_curves(rt: &impl Print, hour: Hour) -> io::Result<()> {
    print_curve(rt, "curve ", 0, hour.curve(0))?;
    print_curve(rt, "curve ", 1, hour.curve(1))
}

fn print_five_minute(rt: &impl Print, hour: Hour) -> io::Result<()> {
    print_curve(rt, "five-minute ", 0, hour.five_minute(0))?;
    print_curve(rt, "five-minute ", 1, hour.five_minute(1))
}

fn step(end: i64, price: i64) -> RawStep {
    RawStep { end, price }
}

// A raw curve of three steps, of which the first `count` count.
fn curve_of(start: i64, count: usize, first: RawStep, second: RawStep, third: RawStep) -> RawCurve {
    let mut steps = [step(0, 0); Curve::MAX_STEPS];
    steps[0] = first;
    steps[1] = second;
    steps[2] = third;
    RawCurve {
        start,
        count,
        steps,
    }
}

// Case T's costs.
fn costs() -> Costs {
    let mut points = [Point { mw: 0, heat: 0 }; Costs::MAX_POINTS];
    points[0] = Point {
        mw: 10_000,
        heat: 10_000,
    };
    points[1] = Point {
        mw: 20_000,
        heat: 9_000,
    };
    points[2] = Point {
        mw: 30_000,
        heat: 9_500,
    };
    Costs {
        count: 3,
        points,
        gas: 40_000,
        rate: 0,
        allowance: 0,
        om: 20_000,
        msc: 1_000,
        soc: 3_000,
        fee: 50,
    }
}

// Case T's resource.
fn case_t(portfolio: i64) -> Resource {
    Resource {
        portfolio,
        bid: curve_of(
            10_000,
            2,
            step(15_000, 300_000),
            step(30_000, 900_000),
            step(0, 0),
        ),
        source: Source::Costs,
        costs: costs(),
        pack: curve_of(
            10_000,
            3,
            step(20_000, 378_402),
            step(24_000, 444_403),
            step(30_000, 488_402),
        ),
    }
}

// Case T's resource with the same default curve from a pack.
fn case_t_packed(portfolio: i64) -> Resource {
    Resource {
        source: Source::Pack,
        ..case_t(portfolio)
    }
}

// The resource of P9: bid 900000, default 378402 from a pack.
fn p9(portfolio: i64) -> Resource {
    Resource {
        portfolio,
        bid: curve_of(0, 1, step(20_000, 900_000), step(0, 0), step(0, 0)),
        source: Source::Pack,
        costs: costs(),
        pack: curve_of(0, 1, step(20_000, 378_402), step(0, 0), step(0, 0)),
    }
}

// Two resources, the first of net seller 0 and the second of net buyer 1.
fn opening(first: Resource, second: Resource) -> Opening {
    let mut list = [first; 64];
    list[1] = second;
    let mut sellers = [0i64; 16];
    sellers[0] = 1;
    Opening {
        month: 25,
        portfolios: 2,
        sellers,
        resources: 2,
        list,
    }
}

// An interval in which both resources relieve the one constraint by half.
fn interval(shadow: i64, lmp: i64, parameter: i64) -> Interval {
    let mut shadows = [0i64; 32];
    shadows[0] = shadow;
    let mut lmps = [0i64; 64];
    lmps[0] = 600_000;
    lmps[1] = lmp;
    let mut dispatch = [0i64; 64];
    dispatch[0] = 20_000;
    dispatch[1] = 10_000;
    let mut available = [0i64; 64];
    available[0] = 30_000;
    available[1] = 10_000;
    let mut factors = [0i64; 2048];
    factors[0] = -500_000;
    factors[32] = -500_000;
    Interval {
        constraints: 1,
        shadow: shadows,
        resources: 2,
        lmp: lmps,
        dispatch,
        available,
        floor: [0; 64],
        factors,
        parameter,
    }
}

// The bid of resource r for the hour; where it is refused, the blank curve, which has no step.
fn bid_for(hour: Hour, r: usize) -> Mitigated
    ensures { result ≡ hour_bid_of (as_real_time hour) r }
{
    hour.hour_bid(r).unwrap_or(standing::blank_curve())
}

// The bids for the hour, and their answer.
fn print_bids(rt: &impl Print, hour: Hour) -> io::Result<()> {
    print_outcome(rt, "hour bid ", hour.hour_bid(0).map(|_| ()))?;
    print_curve(rt, "bid ", 0, bid_for(hour, 0))?;
    print_curve(rt, "bid ", 1, bid_for(hour, 1))
}

// An answer printed; the hour that it hands back, the one before where it is a refusal.
fn answered(
    rt: &impl Print,
    label: &str,
    before: Hour,
    answer: Result<Answer, Refusal>,
) -> io::Result<Hour>
    ensures { IfOk result (λ hour. hour ≡ (result_unwrap_or answer (unchanged before)).hour) }
{
    let given = answer.unwrap_or(Answer::unchanged(before));
    print_outcome(rt, label, answer.map(|_| ()))?;
    print_verdict(rt, given.verdicts[0])?;
    print_curves(rt, given.hour)?;
    Ok(given.hour)
}

// An interval.
fn call(rt: &impl Print, hour: Hour, v: Interval) -> io::Result<Hour> {
    answered(rt, "interval ", hour, hour.interval(v))
}

// An interval, and a pass, with the five-minute curves printed too.
fn quarter(rt: &impl Print, hour: Hour, v: Interval) -> io::Result<Hour> {
    let next = call(rt, hour, v)?;
    print_five_minute(rt, next)?;
    Ok(next)
}

fn pass(rt: &impl Print, hour: Hour, v: Interval) -> io::Result<Hour> {
    let next = answered(rt, "pass ", hour, hour.pass(v))?;
    print_five_minute(rt, next)?;
    Ok(next)
}

// The opened hour, its answer printed; a blank one where it is refused.
fn open(rt: &impl Print, o: Opening) -> io::Result<Hour>
    ensures { IfOk result (λ hour. as_real_time hour ≡ opened_real_time o) }
{
    let opened = Hour::open(o);
    let hour = opened.unwrap_or(Hour::blank());
    print_outcome(rt, "opening ", opened.map(|_| ()))?;
    print_curves(rt, hour)?;
    Ok(hour)
}

// An hour with passes: one before any interval; three and a fourth after the first, a refused one among them; a quarter hour without a cut; and one in a full hour.
fn passes(rt: &impl Print) -> io::Result<()> {
    let hour = open(rt, opening(case_t_packed(0), p9(1)))?;
    let hour = pass(rt, hour, interval(500_000, 600_000, 100))?;
    let hour = quarter(rt, hour, interval(500_000, 749_900, 100))?;
    let hour = pass(rt, hour, interval(500_000, 650_000, 100))?;
    let hour = pass(rt, hour, interval(500_000, 600_000, 101))?;
    let hour = pass(rt, hour, interval(500_000, 749_900, 100))?;
    let hour = pass(rt, hour, interval(500_000, 600_000, 100))?;
    let hour = pass(rt, hour, interval(500_000, 600_000, 101))?;
    let hour = quarter(rt, hour, interval(0, 600_000, 100))?;
    let hour = call(rt, hour, interval(0, 600_000, 100))?;
    let hour = call(rt, hour, interval(0, 600_000, 100))?;
    let hour = pass(rt, hour, interval(500_000, 650_000, 100))?;
    let hour = quarter(rt, hour, interval(500_000, 600_000, 100))?;
    print_bids(rt, hour)
}

fn main(rt: HostRuntime) -> io::Result<()> {
    println!(rt; "no pack")?;
    let none = open(&rt, opening(case_t(0), case_t(1)))?;
    call(&rt, none, interval(500_000, 600_000, 100))?;
    println!(rt; "packs for all")?;
    let all = open(&rt, opening(case_t_packed(0), p9(1)))?;
    call(&rt, all, interval(500_000, 749_900, 100))?;
    println!(rt; "unknown portfolio")?;
    open(&rt, opening(case_t(0), p9(2)))?;
    println!(rt; "a pack for one")?;
    let hour = open(&rt, opening(case_t(0), p9(1)))?;
    let hour = call(&rt, hour, interval(500_000, 749_900, 100))?;
    let hour = call(&rt, hour, interval(500_000, 600_000, 101))?;
    let hour = call(&rt, hour, interval(500_000, 600_000, 100))?;
    let hour = call(&rt, hour, interval(500_000, 749_900, 100))?;
    print_bids(&rt, hour)?;
    let hour = call(&rt, hour, interval(0, 600_000, 100))?;
    let hour = call(&rt, hour, interval(500_000, 600_000, 100))?;
    print_bids(&rt, hour)?;
    println!(rt; "passes")?;
    passes(&rt)
}
