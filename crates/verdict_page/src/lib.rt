// The verdicts of an accepted interval and the sellers that they name (paper 01, Text), printed from lent cells into a lent buffer at an offset. The contracts
// cite the definitions of rules_page and rules_state.
#![tactic(auto)]

ghost use Rattle.std.specs.Prelude.{◌≡◌, [], ◌∷◌, ℕ, ◌+◌, ◌%◌, ◌<◌, ◌≤◌, pos, length, Some, IfSome};
ghost use Rattle.rules_number.specs.Order.{nat_of};
ghost use Rattle.rules_path.specs.Verdicts.{finding_number, bit};
ghost use Rattle.rules_text.specs.Printing.{line_text, group_text};
ghost use Rattle.rules_page.specs.Pages.{verdict_rows, seller_rows, verdict_table, seller_table, verdict_text, Put, verdict_room, put_within, put_within_to, printable as printableOf};
ghost use Rattle.rules_page.specs.Weights.{later, leads};
ghost use Rattle.rules_state.specs.Verdicts.{finding_by, verdict_in, verdicts_in};
ghost use Rattle.verdict_page.specs.Orders.{weight_in, is_left};
ghost use Rattle.verdict_page.specs.Shown.{is_judged, shown_whole, withheld_in};

use page::printable;
use rules_interval::Interval;
use rules_path::Market;

// Verdicts and the sellers named are put where at least this many bytes are left.
pub const PAGE_ROOM: usize = 49_152;

// Whether a cell holds the finding of a constraint that binds: any number other than 0 and 1 is not binding.
fn is_judged(finding: i64) -> bool
    ensures { result ≡ is_judged finding }
{
    finding == 0 || finding == 1
}

// A cell of a verdict with this finding: 0 where it is negative, or where the constraint is not binding.
fn shown_cell(finding: i64, x: i64) -> i64
    ensures { result ≡ pos (shown_whole (finding_by finding) (nat_of x)) }
{
    if is_judged(finding) {
        return number::max(0, x);
    }
    0
}

// The sellers that a verdict with this finding names, as 32 bits.
fn named_by(finding: i64, names: i64) -> u32
    ensures { result ≡ shown_whole (finding_by finding) (nat_of names) % 4294967296 }
{
    (number::whole(shown_cell(finding, names)) % 4_294_967_296) as u32
}

// The values of the line of a verdict on constraint c.
fn verdict_row(i: u64, c: usize, finding: i64, demand: i64, left: i64) -> [i64; 5]
    ensures { result ≡ pos (printableOf i) ∷ pos (printableOf c) ∷ pos (finding_number (finding_by finding)) ∷ pos (shown_whole (finding_by finding) (nat_of demand)) ∷ pos (shown_whole (finding_by finding) (nat_of left)) ∷ [] }
{
    let interval = printable(i);
    let constraint = printable(c as u64);
    if is_judged(finding) {
        let wanted = number::max(0, demand);
        let rest = number::max(0, left);
        return [interval, constraint, finding, wanted, rest];
    }
    [interval, constraint, 2, 0, 0]
}

// Puts the verdict on constraint c as a line, and answers the offset after it.
fn put_verdict(
    out: &mut [u8],
    at: usize,
    i: u64,
    c: usize,
    verdicts: &[i64; rules_state::VERDICT_ROOM],
) -> usize
    requires { (at + 105 ≤ length out.old) × (c < 32) }
    ensures { Put 105 out.old at (group_text (printableOf i) c (verdict_rows (verdict_in verdicts.now c))) out.new result }
{
    let from = rules_state::VERDICT_WIDTH * c;
    let row = verdict_row(i, c, verdicts[from], verdicts[from + 1], verdicts[from + 2]);
    page::put_line(out, at, &row)
}

// Puts the verdicts on the first constraints, a line each, and answers the offset after them.
fn put_verdicts(
    out: &mut [u8],
    at: usize,
    i: u64,
    constraints: usize,
    verdicts: &[i64; rules_state::VERDICT_ROOM],
) -> usize
    requires { at + 3360 ≤ length out.old }
    ensures { Put 3360 out.old at (verdict_table i constraints (verdicts_in verdicts.now)) out.new result }
{
    let n = number::at_most(constraints, Interval::MAX_CONSTRAINTS);
    let mut p = at;
    for c in 0..n {
        p = put_verdict(out, p, i, c, verdicts);
    }
    p
}

// What portfolio p withholds of constraint c.
fn amount_of(verdicts: &[i64; rules_state::VERDICT_ROOM], c: usize, p: usize) -> u64
    requires { (c < 32) × (p < 16) }
    ensures { result ≡ weight_in (withheld_in verdicts.now c) p }
{
    number::whole(verdicts[rules_state::VERDICT_WIDTH * c + 4 + p])
}

// Of the seller that comes first among lower numbers, if there is one, and p, the one that comes first.
fn first_of(
    verdicts: &[i64; rules_state::VERDICT_ROOM],
    c: usize,
    best: Option<usize>,
    p: usize,
) -> usize
    requires { (c < 32) × (p < 16) × IfSome best (λ q. q < 16) }
    ensures { Some result ≡ later (weight_in (withheld_in verdicts.now c)) best p }
{
    match best {
        Some(q) if amount_of(verdicts, c, p) <= amount_of(verdicts, c, q) => q,
        _ => p,
    }
}

// How many bits stand below the lowest one.
fn zeros_below(bits: u32) -> usize
    requires { 0 < bits }
    ensures zeros { (j : ℕ) → j < result → bit j bits ≡ 0 }
    ensures one { (result < 32) × (bit result bits ≡ 1) }
{
    u32::trailing_zeros(bits) as usize
}

// The seller of constraint c to print first of those left.
fn next_seller(verdicts: &[i64; rules_state::VERDICT_ROOM], c: usize, left: u32) -> Option<usize>
    requires { c < 32 }
    ensures { result ≡ leads (weight_in (withheld_in verdicts.now c)) (is_left left) 16 }
{
    let mut best = None;
    let mut rest = left;
    let mut p: usize = 0;
    // By skips, and not by each number: few portfolios are left, and this is done for each of them.
    while p < Market::MAX_PORTFOLIOS {
        if rest == 0 {
            return best;
        }
        let skip = zeros_below(rest);
        p += skip;
        if p >= Market::MAX_PORTFOLIOS {
            return best;
        }
        best = Some(first_of(verdicts, c, best, p));
        rest = (rest >> skip) / 2;
        p += 1;
    }
    best
}

// Puts a seller of constraint c as a line, and answers the offset after it.
fn put_seller(
    out: &mut [u8],
    at: usize,
    i: u64,
    c: usize,
    verdicts: &[i64; rules_state::VERDICT_ROOM],
    p: usize,
) -> usize
    requires { (at + 84 ≤ length out.old) × (c < 32) × (p < 16) }
    ensures { Put 84 out.old at (line_text (pos (printableOf i) ∷ pos c ∷ pos p ∷ pos (weight_in (withheld_in verdicts.now c) p) ∷ [])) out.new result }
{
    let row = [
        printable(i),
        printable(c as u64),
        printable(p as u64),
        printable(amount_of(verdicts, c, p)),
    ];
    page::put_line(out, at, &row)
}

// Puts the sellers named for constraint c, a line each, the larger amount first, and answers the offset after them.
fn put_named(
    out: &mut [u8],
    at: usize,
    i: u64,
    c: usize,
    verdicts: &[i64; rules_state::VERDICT_ROOM],
) -> usize
    requires { (at + 1344 ≤ length out.old) × (c < 32) }
    ensures { Put 1344 out.old at (group_text (printableOf i) c (seller_rows (verdict_in verdicts.now c))) out.new result }
{
    let from = rules_state::VERDICT_WIDTH * c;
    let mut left = named_by(verdicts[from], verdicts[from + 3]);
    let mut q = at;
    while let Some(p) = next_seller(verdicts, c, left) {
        q = put_seller(out, q, i, c, verdicts, p);
        left -= 1 << p;
    }
    q
}

// Puts the sellers named for the first constraints, and answers the offset after them. One function for this and put_verdicts would take what is put of a
// constraint as a closure: no plainer.
fn put_sellers(
    out: &mut [u8],
    at: usize,
    i: u64,
    constraints: usize,
    verdicts: &[i64; rules_state::VERDICT_ROOM],
) -> usize
    requires { at + 43008 ≤ length out.old }
    ensures { Put 43008 out.old at (seller_table i constraints (verdicts_in verdicts.now)) out.new result }
{
    let n = number::at_most(constraints, Interval::MAX_CONSTRAINTS);
    let mut p = at;
    for c in 0..n {
        p = put_named(out, p, i, c, verdicts);
    }
    p
}

// Prints what interval i says of this many constraints, its verdicts and the sellers named, where there is room.
pub fn print_verdicts(
    out: &mut [u8],
    at: usize,
    i: u64,
    constraints: usize,
    verdicts: &[i64; rules_state::VERDICT_ROOM],
) -> Option<usize>
    ensures buffer { out.new ≡ put_within verdict_room out.old at (verdict_text i constraints (verdicts_in verdicts.now)) }
    ensures next { result ≡ put_within_to verdict_room out.old at (verdict_text i constraints (verdicts_in verdicts.now)) }
    ensures whole { at + verdict_room ≤ length out.old → length (verdict_text i constraints (verdicts_in verdicts.now)) ≤ verdict_room }
{
    if !number::has_room(out.len(), at, PAGE_ROOM) {
        return None;
    }
    let a = print::put_names(out, at, b"interval constraint verdict demand left\n");
    let b = put_verdicts(out, a, i, constraints, verdicts);
    let c = print::put_names(out, b, b"interval constraint portfolio withheld\n");
    Some(put_sellers(out, c, i, constraints, verdicts))
}
