// Case T's hour with a hydro unit in place of the unit with costs: works out the unit's default energy bid, opens the hour with it, takes the interval, and prints
// the unit's bid curve before and after it; and what the pack answers for a heat rate of 0.
#![tactic(auto)]

use engine::Hour;
use rules_cost::{Costs, Point};
use rules_curve::{Curve, RawCurve, RawStep};
use rules_hydro::{Hydro, HydroRefusal};
use rules_interval::Interval;
use rules_mitigation::Mitigated;
use rules_opening::{Opening, Resource, Source};
use std::io;

// A line for the pack's answer: the refusal's number, or 0.
fn print_answer(rt: &impl Print, answer: Result<RawCurve, HydroRefusal>) -> io::Result<()> {
    println!(rt; "hydro {}", hydro::outcome_number(answer.map(|_| ())))
}

// A line for a curve: how many steps it has, then end and price of the first two.
fn print_curve(rt: &impl Print, c: Mitigated) -> io::Result<()> {
    let [first, second, ..] = c.steps;
    println!(rt;
        "curve {} {} {} {} {}",
        c.count,
        first.end,
        number::whole(first.price),
        second.end,
        number::whole(second.price)
    )
}

// One hub and a horizon of one month: peak, balance of month, and the monthly prices, of which the first is read.
fn hydro_unit(heat: i64) -> Hydro {
    let mut prices = [0i64; Hydro::PRICES];
    prices[0] = 500_000;
    prices[1] = 400_000;
    prices[2] = 300_000;
    prices[4] = 900_000;
    Hydro {
        low: 10_000,
        high: 30_000,
        heat,
        gas: 40_000,
        hubs: 1,
        horizon: 1,
        prices,
    }
}

// Case T's bid.
fn bid() -> RawCurve {
    let mut steps = [RawStep { end: 0, price: 0 }; Curve::MAX_STEPS];
    steps[0] = RawStep {
        end: 15_000,
        price: 300_000,
    };
    steps[1] = RawStep {
        end: 30_000,
        price: 900_000,
    };
    RawCurve {
        start: 10_000,
        count: 2,
        steps,
    }
}

// No costs: the resource has a pack.
fn no_costs() -> Costs {
    Costs {
        count: 0,
        points: [Point { mw: 0, heat: 0 }; Costs::MAX_POINTS],
        gas: 0,
        rate: 0,
        allowance: 0,
        om: 0,
        msc: 0,
        soc: 0,
        fee: 0,
    }
}

// Portfolio 0 is a net seller and owns the unit.
fn opening(pack: RawCurve) -> Opening {
    let unit = Resource {
        portfolio: 0,
        bid: bid(),
        source: Source::Pack,
        costs: no_costs(),
        pack,
    };
    let mut sellers = [0i64; 16];
    sellers[0] = 1;
    Opening {
        month: 25,
        portfolios: 1,
        sellers,
        resources: 1,
        list: [unit; 64],
    }
}

// Case T's interval.
fn interval() -> Interval {
    let mut shadow = [0i64; 32];
    shadow[0] = 500_000;
    let mut lmp = [0i64; 64];
    lmp[0] = 600_000;
    let mut dispatch = [0i64; 64];
    dispatch[0] = 20_000;
    let mut available = [0i64; 64];
    available[0] = 30_000;
    let mut factors = [0i64; 2048];
    factors[0] = -500_000;
    Interval {
        constraints: 1,
        shadow,
        resources: 1,
        lmp,
        dispatch,
        available,
        floor: [0; 64],
        factors,
        parameter: 100,
    }
}

fn main(rt: HostRuntime) -> io::Result<()> {
    print_answer(&rt, hydro::default_curve(hydro_unit(0)))?;
    let default = hydro::default_curve(hydro_unit(10_000));
    print_answer(&rt, default)?;
    let Ok(pack) = default else {
        return Ok(());
    };
    let Ok(hour) = Hour::open(opening(pack)) else {
        return Ok(());
    };
    print_curve(&rt, hour.curve(0))?;
    let Ok(answer) = hour.interval(interval()) else {
        return Ok(());
    };
    print_curve(&rt, answer.hour.curve(0))
}
