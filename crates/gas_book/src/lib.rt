// The book of gas prices: two lent lists of (day, price), one for each market (paper 02, 2.7; 39.7.1.1.1.3; refusal 21). The contracts cite the definitions of
// rules_gas.
#![tactic(auto)]

ghost use Rattle.std.specs.Prelude.{◌≡◌, ◌≤◌, length};
ghost use Rattle.rules_gas.specs.Book.{length_of_run, days_rise, run_in, gas_run, run_refusal, book_refusal, gas_number, last_price, price_in_use};

use rules_gas::GasMarket;

// How many numbers of a list, two for each entry, belong to entries up to a day, before the first later one.
fn length_to(list: &[u32], day: u32) -> usize
    ensures { (result ≡ length_of_run day list.now) × (result ≤ length list.now) }
{
    let entries = list.len() / 2;
    for i in 0..entries {
        if day < list[2 * i] {
            return 2 * i;
        }
    }
    2 * entries
}

// Whether the days of a list strictly rise.
fn days_rise(list: &[u32]) -> bool
    ensures { result ≡ days_rise list.now }
{
    if list.len() < 2 {
        return true;
    }
    let mut before = list[0];
    for i in 1..list.len() / 2 {
        if list[2 * i] <= before {
            return false;
        }
        before = list[2 * i];
    }
    true
}

// The run of a list's entries up to a day, a part of the list; empty means 21.
pub fn run_in(list: &[u32], day: u32) -> &[u32]
    ensures { result.now ≡ run_in day list.now }
{
    if list.len() % 2 != 0 || !days_rise(list) {
        return &list[..0];
    }
    &list[..length_to(list, day)]
}

// The run of entries up to a trading day, out of the day-ahead list or the real-time list, without copying; empty means 21.
pub fn run_of<'a>(
    day_ahead: &'a [u32],
    real_time: &'a [u32],
    market: GasMarket,
    day: u32,
) -> &'a [u32]
    ensures { result.now ≡ gas_run market day day_ahead.now real_time.now }
{
    match market {
        GasMarket::DayAhead => run_in(day_ahead, day),
        GasMarket::RealTime => run_in(real_time, day),
    }
}

// The price of the last entry of a run; none, which is 21, of an empty one.
pub fn price_of(run: &[u32]) -> Option<u32>
    ensures price { result ≡ last_price run.now }
    ensures number { gas_number result ≡ run_refusal run.now }
{
    run.last().copied()
}

// The gas price in use on a trading day; none, which is 21, where the run is empty.
pub fn price_in_use<'a>(
    day_ahead: &'a [u32],
    real_time: &'a [u32],
    market: GasMarket,
    day: u32,
) -> Option<u32>
    ensures price { result ≡ price_in_use market day day_ahead.now real_time.now }
    ensures number { gas_number result ≡ book_refusal market day day_ahead.now real_time.now }
{
    price_of(run_of(day_ahead, real_time, market, day))
}
