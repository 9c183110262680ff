// Lines of values and names lines, put into a lent buffer at an offset (paper 01, Text). The contracts cite the definitions of rules_text.
#![tactic(auto)]

ghost use Rattle.std.specs.Prelude.{◌≡◌, true, false, cond, [], ◌∷◌, ◌++◌, ◌+◌, ◌*◌, ◌/◌, ◌%◌, ◌^◌, ◌<◌, ◌≤◌, length, take, leb, nat_abs, pos};
ghost use Rattle.std.proofs.lemmas.List.Edits.{sets};
ghost use Rattle.std.specs.Int.Signed.{lt_z};
ghost use Rattle.rules_text.specs.Printing.{digits, decimal, line_text, holds, printed, printed_to};

use text_bytes::closing;

// How many digits n has.
fn digit_count(n: u64) -> usize
    requires { n < 10 ^ 19 }
    ensures { result ≡ length (digits 19 n) }
{
    let mut count = 1;
    let mut bound: u64 = 10;
    while bound <= n {
        bound *= 10;
        count += 1;
    }
    count
}

// The tens of n: cheaper as a product and a shift than as a division.
fn tens(n: u64) -> u64
    requires { n < 100 }
    ensures { result ≡ n / 10 }
{
    n * 103 / 1024
}

fn digit(d: u64) -> u8
    requires { d < 10 }
    ensures { result ≡ 48 + d }
{
    48 + d as u8
}

// Puts the digits of n at an offset, two at a time from the last on (so by index, at a stride of two), and answers the offset after them.
fn put_digits(out: &mut [u8], at: usize, n: u64) -> usize
    requires n_bound { n < 10 ^ 19 }
    requires n_in_bounds { at + length (digits 19 n) ≤ length out.old }
    ensures { (out.new ≡ sets out.old at (digits 19 n)) × (result ≡ at + length (digits 19 n)) }
{
    let count = digit_count(n);
    let mut left = count;
    let mut rest = n;
    while 1 < left {
        let two = rest % 100;
        let ten = tens(two);
        out[at + left - 1] = digit(two - ten * 10);
        out[at + left - 2] = digit(ten);
        left -= 2;
        rest /= 100;
    }
    if left == 0 {
        return at + count;
    }
    out[at] = digit(rest);
    at + count
}

fn low(w: u64) -> u8
    ensures { result ≡ w % 256 }
{
    (w % 256) as u8
}

// From here to put_head, numbers are put by how many digits they have, with no loop up to eight and four digits by one store: a page is mostly numbers, and
// printing one has a bar of speed.

// Puts the four lowest bytes of w at an offset, the lowest first: one store.
fn put_word(out: &mut [u8], at: usize, w: u64)
    requires { at + 4 ≤ length out.old }
    ensures { out.new ≡ sets out.old at (w % 256 ∷ w / 256 % 256 ∷ w / 65536 % 256 ∷ w / 16777216 % 256 ∷ []) }
{
    out[at] = low(w);
    out[at + 1] = low(w >> 8);
    out[at + 2] = low(w >> 16);
    out[at + 3] = low(w >> 24);
}

// Four digits as bytes of one number, the first lowest: pairs in lanes of 16 bits, of which one product and one shift take the tens.
fn four(n: u64) -> u64
    requires { n < 10000 }
    ensures { result ≡ 48 + n / 1000 + (48 + n / 100 % 10) * 256 + (48 + n / 10 % 10) * 65536 + (48 + n % 10) * 16777216 }
{
    let hundreds = n * 5243 / 524_288;
    let pairs = n * 65_536 - hundreds * 6_553_599;
    let tens = ((pairs * 103) >> 10) & 0x000f_000f;
    pairs * 256 - tens * 2559 + 0x3030_3030
}

// Puts two digits at an offset.
fn put_two(out: &mut [u8], at: usize, n: u64)
    requires { (n < 100) × (at + 2 ≤ length out.old) }
    ensures { out.new ≡ sets out.old at ((48 + n / 10) ∷ (48 + n % 10) ∷ []) }
{
    let ten = tens(n);
    out[at] = digit(ten);
    out[at + 1] = digit(n - ten * 10);
}

// Puts four digits at an offset.
fn put_four(out: &mut [u8], at: usize, n: u64)
    requires { (n < 10000) × (at + 4 ≤ length out.old) }
    ensures { out.new ≡ sets out.old at ((48 + n / 1000) ∷ (48 + n / 100 % 10) ∷ (48 + n / 10 % 10) ∷ (48 + n % 10) ∷ []) }
{
    put_word(out, at, four(n));
}

// Puts four digits and the byte that closes them at an offset, and answers the offset after it.
fn put_tail(out: &mut [u8], at: usize, n: u64, end: u8) -> usize
    requires { (n < 10000) × (at + 5 ≤ length out.old) }
    ensures { (out.new ≡ sets out.old at ((48 + n / 1000) ∷ (48 + n / 100 % 10) ∷ (48 + n / 10 % 10) ∷ (48 + n % 10) ∷ end ∷ [])) × (result ≡ at + 5) }
{
    put_four(out, at, n);
    out[at + 4] = end;
    at + 5
}

// Puts a number of one digit, and the byte that closes it.
fn put_digit(out: &mut [u8], at: usize, n: u64, end: u8) -> usize
    requires { (n < 10) × (at + 2 ≤ length out.old) }
    ensures { (out.new ≡ sets out.old at (digits 19 n ++ (end ∷ []))) × (result ≡ at + length (digits 19 n) + 1) }
{
    out[at] = digit(n);
    out[at + 1] = end;
    at + 2
}

// Puts a number of up to four digits, and the byte that closes it.
fn put_few(out: &mut [u8], at: usize, n: u64, end: u8) -> usize
    requires { (n < 10000) × (at + length (digits 19 n) < length out.old) }
    ensures { (out.new ≡ sets out.old at (digits 19 n ++ (end ∷ []))) × (result ≡ at + length (digits 19 n) + 1) }
{
    if n < 10 {
        return put_digit(out, at, n, end);
    }
    if n < 100 {
        put_two(out, at, n);
        out[at + 2] = end;
        return at + 3;
    }
    if n < 1000 {
        let high = n / 100;
        out[at] = digit(high);
        put_two(out, at + 1, n - high * 100);
        out[at + 3] = end;
        return at + 4;
    }
    put_tail(out, at, n, end)
}

// Puts a number of five or six digits, and the byte that closes it.
fn put_more(out: &mut [u8], at: usize, n: u64, end: u8) -> usize
    requires { (10000 ≤ n) × (n < 1000000) × (at + length (digits 19 n) < length out.old) }
    ensures { (out.new ≡ sets out.old at (digits 19 n ++ (end ∷ []))) × (result ≡ at + length (digits 19 n) + 1) }
{
    let high = n / 10_000;
    let left = n - high * 10_000;
    if high < 10 {
        out[at] = digit(high);
        return put_tail(out, at + 1, left, end);
    }
    put_two(out, at, high);
    put_tail(out, at + 2, left, end)
}

// Puts a number of seven or eight digits, and the byte that closes it.
fn put_many(out: &mut [u8], at: usize, n: u64, end: u8) -> usize
    requires { (1000000 ≤ n) × (n < 100000000) × (at + length (digits 19 n) < length out.old) }
    ensures { (out.new ≡ sets out.old at (digits 19 n ++ (end ∷ []))) × (result ≡ at + length (digits 19 n) + 1) }
{
    let high = n / 10_000;
    let left = n - high * 10_000;
    if high < 1000 {
        let top = high / 100;
        out[at] = digit(top);
        put_two(out, at + 1, high - top * 100);
        return put_tail(out, at + 3, left, end);
    }
    put_four(out, at, high);
    put_tail(out, at + 4, left, end)
}

// Puts the digits of n and then four, and answers the offset after them. The byte that closes up to four digits is put over.
fn put_high(out: &mut [u8], at: usize, n: u64, four: u64) -> usize
    requires { (n < 10 ^ 19) × (four < 10000) × (at + length (digits 19 n) + 4 ≤ length out.old) }
    ensures { (out.new ≡ sets out.old at (digits 19 n ++ ((48 + four / 1000) ∷ (48 + four / 100 % 10) ∷ (48 + four / 10 % 10) ∷ (48 + four % 10) ∷ []))) × (result ≡ at + length (digits 19 n) + 4) }
{
    if n < 10_000 {
        let p = put_few(out, at, n, 48) - 1;
        put_four(out, p, four);
        return p + 4;
    }
    let p = put_digits(out, at, n);
    put_four(out, p, four);
    p + 4
}

// Puts a number of nine digits or more, and the byte that closes it.
fn put_long(out: &mut [u8], at: usize, n: u64, end: u8) -> usize
    requires { (100000000 ≤ n) × (n < 10 ^ 19) × (at + length (digits 19 n) < length out.old) }
    ensures { (out.new ≡ sets out.old at (digits 19 n ++ (end ∷ []))) × (result ≡ at + length (digits 19 n) + 1) }
{
    let high = n / 100_000_000;
    let left = n - high * 100_000_000;
    let top = left / 10_000;
    let p = put_high(out, at, high, top);
    put_tail(out, p, left - top * 10_000, end)
}

// Puts the digits of n and the byte that closes them at an offset, and answers the offset after it.
fn put_closed(out: &mut [u8], at: usize, n: u64, end: u8) -> usize
    requires { (n < 10 ^ 19) × (at + length (digits 19 n) < length out.old) }
    ensures { (out.new ≡ sets out.old at (digits 19 n ++ (end ∷ []))) × (result ≡ at + length (digits 19 n) + 1) }
{
    if n < 10_000 {
        return put_few(out, at, n, end);
    }
    if n < 1_000_000 {
        return put_more(out, at, n, end);
    }
    if n < 100_000_000 {
        return put_many(out, at, n, end);
    }
    put_long(out, at, n, end)
}

// Puts a number and the byte that closes it at an offset, and answers the offset after it.
fn put_value(out: &mut [u8], at: usize, x: i64, end: u8) -> usize
    requires { at + length (decimal x) < length out.old }
    ensures { (out.new ≡ sets out.old at (decimal x ++ (end ∷ []))) × (result ≡ at + length (decimal x) + 1) }
{
    if x < 0 {
        out[at] = 45;
        return put_closed(out, at + 1, x.unsigned_abs(), end);
    }
    put_closed(out, at, x.unsigned_abs(), end)
}

// The same, at once where it has one digit.
fn put_mark(out: &mut [u8], at: usize, x: i64, end: u8) -> usize
    requires { at + length (decimal x) < length out.old }
    ensures { (out.new ≡ sets out.old at (decimal x ++ (end ∷ []))) × (result ≡ at + length (decimal x) + 1) }
{
    if is_below(x, 10) {
        return put_digit(out, at, x.unsigned_abs(), end);
    }
    put_value(out, at, x, end)
}

// The head of a line as bytes of one number, the first lowest: a digit, and one digit more or two.
fn head_of(a: u64, b: u64) -> u64
    requires { (a < 10) × (b < 100) }
    ensures value { b < 10 → result ≡ 48 + a + 32 * 256 + (48 + b) * 65536 + 32 * 16777216 }
    ensures value_2 { 10 ≤ b → result ≡ 48 + a + 32 * 256 + (48 + b / 10) * 65536 + (48 + b % 10) * 16777216 }
{
    if b < 10 {
        return 0x2030_2030 + a + b * 65_536;
    }
    let ten = tens(b);
    0x3030_2030 + a + ten * 65_536 + (b - ten * 10) * 16_777_216
}

// Puts the head of a line at an offset, and answers the offset after it.
fn put_head(out: &mut [u8], at: usize, a: u64, b: u64) -> usize
    requires { (a < 10) × (b < 100) × (at + 5 ≤ length out.old) }
    ensures { (out.new ≡ sets out.old at (digits 19 a ++ (32 ∷ (digits 19 b ++ (32 ∷ []))))) × (result ≡ at + length (digits 19 b) + 3) }
{
    put_word(out, at, head_of(a, b));
    if b < 10 {
        return at + 4;
    }
    out[at + 4] = 32;
    at + 5
}

// Puts a line of four values, of which the first has one digit and the second up to two, and answers the offset after it.
fn put_step(out: &mut [u8], at: usize, a: u64, b: u64, c: i64, d: i64) -> usize
    requires { (a < 10) × (b < 100) × (at + 105 ≤ length out.old) }
    ensures { (out.new ≡ sets out.old at (line_text (pos a ∷ pos b ∷ c ∷ d ∷ []))) × (result ≡ at + length (line_text (pos a ∷ pos b ∷ c ∷ d ∷ []))) }
{
    let p = put_head(out, at, a, b);
    let q = put_value(out, p, c, 32);
    put_value(out, q, d, 10)
}

// The same of five values, most of which have one digit where a constraint doesn't bind: unlike put_step's, they are tested for it first, for speed.
fn put_five(out: &mut [u8], at: usize, a: u64, b: u64, c: i64, d: i64, e: i64) -> usize
    requires { (a < 10) × (b < 100) × (at + 105 ≤ length out.old) }
    ensures { (out.new ≡ sets out.old at (line_text (pos a ∷ pos b ∷ c ∷ d ∷ e ∷ []))) × (result ≡ at + length (line_text (pos a ∷ pos b ∷ c ∷ d ∷ e ∷ []))) }
{
    let p = put_head(out, at, a, b);
    let q = put_mark(out, p, c, 32);
    let n = put_mark(out, q, d, 32);
    put_mark(out, n, e, 10)
}

// Puts the line of the values at an offset, and answers the offset after it.
fn put_line(out: &mut [u8], at: usize, v: &[i64]) -> usize
    requires { at + length (line_text v.now) ≤ length out.old }
    ensures { (out.new ≡ sets out.old at (line_text v.now)) × (result ≡ at + length (line_text v.now)) }
{
    let mut p = at;
    for (i, x) in v.iter().enumerate() {
        p = put_value(out, p, *x, closing(v.len() - i - 1));
    }
    p
}

// Puts bytes at an offset, and answers the offset after them.
fn put_bytes(out: &mut [u8], at: usize, bytes: &[u8]) -> usize
    requires { at + length bytes.now ≤ length out.old }
    ensures { (out.new ≡ sets out.old at bytes.now) × (result ≡ at + length bytes.now) }
{
    let end = at + bytes.len();
    out[at..end].copy_from_slice(bytes);
    end
}

// How many bytes a number takes.
fn number_width(x: i64) -> usize
    ensures { result ≡ length (decimal x) }
{
    let count = digit_count(x.unsigned_abs());
    if x < 0 { 1 + count } else { count }
}

// Whether the line of the values fits in as many bytes.
fn line_within(room: usize, v: &[i64]) -> bool
    ensures { result ≡ leb (length (line_text v.now)) room }
{
    let mut left = room;
    for x in v {
        let width = number_width(*x) + 1;
        if left < width {
            return false;
        }
        left -= width;
    }
    true
}

// Whether the line of the values fits. None of up to five has more than 105 bytes: five numbers of up to 20, and what closes each.
fn line_fits(size: usize, at: usize, v: &[i64]) -> bool
    ensures { result ≡ leb (at + length (line_text v.now)) size }
{
    if v.len() <= 5 && number::has_room(size, at, 105) {
        return true;
    }
    at <= size && line_within(size - at, v)
}

// Prints the line of the values at an offset, where it fits, whatever they are.
fn print_any(out: &mut [u8], at: usize, v: &[i64]) -> Option<usize>
    ensures out_after { out.new ≡ printed out.old at (line_text v.now) }
    ensures value { result ≡ printed_to out.old at (line_text v.now) }
{
    if !line_fits(out.len(), at, v) {
        return None;
    }
    Some(put_line(out, at, v))
}

// Whether x is a number of 0 to n - 1.
fn is_below(x: i64, n: u64) -> bool
    ensures { result ≡ true → (lt_z x (pos 0) ≡ false) × (nat_abs x < n) }
{
    0 <= x && x.unsigned_abs() < n
}

// Whether a line of up to five values has room, and begins with a digit and one digit more or two.
fn has_head(size: usize, at: usize, a: i64, b: i64) -> bool
    ensures at_bound { result ≡ true → at + 105 ≤ size }
    ensures pos_value { result ≡ true → (lt_z a (pos 0) ≡ false) × (nat_abs a < 10) }
    ensures pos_value_2 { result ≡ true → (lt_z b (pos 0) ≡ false) × (nat_abs b < 100) }
{
    number::has_room(size, at, 105) && is_below(a, 10) && is_below(b, 100)
}

// Prints the line of the values at an offset, where it fits. It stands in its callers' code, where it is known how many values there are, for speed.
#[inline(always)]
pub fn print_line(out: &mut [u8], at: usize, v: &[i64]) -> Option<usize>
    ensures out_after { out.new ≡ printed out.old at (line_text v.now) }
    ensures value { result ≡ printed_to out.old at (line_text v.now) }
{
    match v {
        [a, b, c, d] if has_head(out.len(), at, *a, *b) => Some(put_step(
            out,
            at,
            a.unsigned_abs(),
            b.unsigned_abs(),
            *c,
            *d,
        )),
        [a, b, c, d, e] if has_head(out.len(), at, *a, *b) => {
            Some(put_five(out, at, a.unsigned_abs(), b.unsigned_abs(), *c, *d, *e))
        }
        _ => print_any(out, at, v),
    }
}

// Puts a names line at an offset, where it fits, and answers the offset after it: the same offset where it doesn't.
pub fn put_names(out: &mut [u8], at: usize, names: &[u8]) -> usize
    ensures page { out.new ≡ printed out.old at names.now }
    ensures next { result ≡ cond (holds out.old at names.now) (at + length names.now) at }
    ensures whole { at + length names.now ≤ length out.old → (out.new ≡ sets out.old at names.now) × (result ≡ at + length names.now) }
{
    if !number::has_room(out.len(), at, names.len()) {
        return at;
    }
    put_bytes(out, at, names)
}
