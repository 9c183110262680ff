// The path verdict of a constraint (paper 01, Path verdict; 39.7.2.2). No code.
#![tactic(auto)]

use rules_interval::Interval;

// Who owns what: the portfolio of each resource, and 1 for each portfolio that is a net seller.
#[derive(Clone, Copy)]
pub struct Market {
    pub resources: usize,
    pub portfolio: [u64; Interval::MAX_RESOURCES],
    pub seller: [u64; Market::MAX_PORTFOLIOS],
}

// What is found of a constraint.
#[derive(Clone, Copy)]
pub enum Finding {
    Competitive,
    NonCompetitive,
    NotBinding,
}

// The verdict on a constraint: bit p of `named` stands for portfolio p, and `withheld` has what each seller named withholds.
#[derive(Clone, Copy)]
pub struct Verdict {
    pub finding: Finding,
    pub demand: u64,
    pub left: u64,
    pub named: u32,
    pub withheld: [u64; Market::MAX_PORTFOLIOS],
}

impl Market {
    pub const MAX_PORTFOLIOS: usize = 16;
}

impl Verdict {
    pub const MAX_SELLERS: usize = 3;
}
