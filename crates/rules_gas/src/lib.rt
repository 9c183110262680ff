// The book of gas prices (paper 02, 2.7; 39.7.1.1.1.3; refusal 21). No code.
#![tactic(auto)]

// The market whose list of a book is meant.
#[derive(Clone, Copy)]
pub enum GasMarket {
    DayAhead,
    RealTime,
}
