// Lines of an id that is due and one, two, four or seven values, and of a value alone: at once where these are short. The contracts cite specs/Rows and the definitions of rules_text.
#![tactic(auto)]

ghost use Rattle.std.specs.Prelude.{◌≡◌, ℕ, ◌+◌, ◌^◌, ◌<◌, ◌≤◌, length, take, pos, neg_ℤ, if◌then◌else◌, nat_eq, IfSome};
ghost use Rattle.rules_text.specs.Offsets.{number_at, closed_by, row_at, id_row_at};
ghost use Rattle.text_bytes.specs.Shorts.{Plain};
ghost use Rattle.text_rows.specs.Rows.{Stand};

use rules_text::Row;
use std::num::wrapping_sub_u64;
use text_bytes::{Closed, Head, closing, head_at, is_id, sign_width};
use text_numbers::closed_at;

// The number at an offset of fewer than `end` digits, with no 0 in front unless it is 0, that the byte b closes.
// The callers give 8, or what is left: a bound that is not known here keeps the loop as it is until it stands in its caller's code.
fn plain_in(s: &[u8], at: usize, b: u8, end: usize) -> Option<Closed>
    requires { (1 ≤ end) × (end ≤ 8) × (at + end ≤ length s.now) }
    ensures value_bound { IfSome result (λ x. (x.value < 10 ^ 12) × (x.next ≤ at + 8)) }
    ensures plain { IfSome result (λ x. Plain s.now at b x.value x.next) }
{
    let first = wrapping_sub_u64(s[at] as u64, 48);
    if 9 < first {
        return None;
    }
    let mut value = first;
    for count in 1..end {
        let c = s[at + count];
        let d = wrapping_sub_u64(c as u64, 48);
        if 9 < d {
            if c != b {
                return None;
            }
            return Some(Closed {
                value,
                next: at + count + 1,
            });
        }
        if value == 0 {
            return None;
        }
        value = value * 10 + d;
    }
    None
}

// The line at an offset of N values, of which the first is the id n.
fn any_row<const N: usize>(s: &[u8], at: usize, n: usize) -> Option<Row<N>>
    requires { (1 ≤ N) × (N ≤ 8) }
    ensures { result ≡ id_row_at N n s.now at }
{
    let mut v = [0i64; N];
    let mut p = at;
    for i in 0..N {
        let (x, q) = closed_at(s, p, closing(N - i - 1))?;
        v[i] = x;
        p = q;
    }
    if !is_id(n, v[0]) {
        return None;
    }
    Some(Row { v, next: p })
}

// The line at an offset of the id n and a value, at once where this is short.
pub fn one_at(s: &[u8], at: usize, n: usize) -> Option<Row<2>>
    ensures { result ≡ id_row_at 2 n s.now at }
{
    match head_at(s, at, n, 9) {
        Head::Unread => any_row(s, at, n),
        Head::Other => None,
        Head::Past(p) => {
            if let Some(z) = plain_in(s, p, 10, 8) {
                return Some(Row {
                    v: [n as i64, z.value as i64],
                    next: z.next,
                });
            }
            any_row(s, at, n)
        }
    }
}

// The same, at once where the value is a digit.
pub fn mark_at(s: &[u8], at: usize, n: usize) -> Option<Row<2>>
    ensures { result ≡ id_row_at 2 n s.now at }
{
    match head_at(s, at, n, 2) {
        Head::Unread => any_row(s, at, n),
        Head::Other => None,
        Head::Past(p) => {
            let d = wrapping_sub_u64(s[p] as u64, 48);
            if 9 < d {
                return any_row(s, at, n);
            }
            if s[p + 1] != 10 {
                return any_row(s, at, n);
            }
            Some(Row {
                v: [n as i64, d as i64],
                next: p + 2,
            })
        }
    }
}

// The line at an offset of a value alone, at once where this is short.
pub fn single_at(s: &[u8], at: usize) -> Option<Row<1>>
    ensures { result ≡ row_at 1 s.now at 1 }
{
    if s.len() <= at {
        return None;
    }
    if let Some(z) = plain_in(s, at, 10, number::at_most(s.len() - at, 8)) {
        return Some(Row {
            v: [z.value as i64],
            next: z.next,
        });
    }
    let (x, next) = closed_at(s, at, 10)?;
    Some(Row { v: [x], next })
}

// The line at an offset of the id n and two values, at once where these are short.
pub fn two_at(s: &[u8], at: usize, n: usize) -> Option<Row<3>>
    ensures { result ≡ id_row_at 3 n s.now at }
{
    match head_at(s, at, n, 19) {
        Head::Unread => any_row(s, at, n),
        Head::Other => None,
        Head::Past(p) => {
            if let Some(y) = plain_in(s, p, 32, 8) {
                if let Some(z) = plain_in(s, y.next, 10, 8) {
                    return Some(Row {
                        v: [n as i64, y.value as i64, z.value as i64],
                        next: z.next,
                    });
                }
            }
            any_row(s, at, n)
        }
    }
}

// The value that digits spell, after a sign that takes so many bytes.
fn signed(sign: usize, v: u64) -> i64
    requires { v < 10 ^ 12 }
    ensures { result ≡ (if nat_eq sign 0 then pos v else neg_ℤ (pos v)) }
{
    if sign == 0 {
        return v as i64;
    }
    -(v as i64)
}

// The line at an offset of the id n and, from another offset on, four short values; the first of these may be negative.
fn four_in(s: &[u8], at: usize, n: usize, p: usize) -> Option<Row<5>>
    requires { (n < 100) × (p + 33 ≤ length s.now) × (Some (pos n, p) ≡ closed_by s.now 32 (number_at s.now at)) }
    ensures { IfSome result (λ r. Some r ≡ id_row_at 5 n s.now at) }
{
    let sign = sign_width(s[p]);
    let a = plain_in(s, p + sign, 32, 8)?;
    if a.value == 0 && sign != 0 {
        return None;
    }
    let b = plain_in(s, a.next, 32, 8)?;
    let c = plain_in(s, b.next, 32, 8)?;
    let d = plain_in(s, c.next, 10, 8)?;
    Some(Row {
        v: [
            n as i64,
            signed(sign, a.value),
            b.value as i64,
            c.value as i64,
            d.value as i64,
        ],
        next: d.next,
    })
}

// The line at an offset of the id n and four values, at once where these are short.
pub fn four_at(s: &[u8], at: usize, n: usize) -> Option<Row<5>>
    ensures { result ≡ id_row_at 5 n s.now at }
{
    match head_at(s, at, n, 47) {
        Head::Unread => any_row(s, at, n),
        Head::Other => None,
        Head::Past(p) => {
            if let Some(row) = four_in(s, at, n, p) {
                return Some(row);
            }
            any_row(s, at, n)
        }
    }
}

// The seven short values at an offset that end a line, put after the first of eight, and the offset after them.
fn seven_into(s: &[u8], at: usize, v: &mut [i64; 8]) -> Option<usize>
    requires { (at + 56 ≤ length s.now) × (length v.old ≡ 8) }
    ensures v_len { length v.new ≡ 8 }
    ensures stand { IfSome result (λ q. (p : ℕ) → Stand s.now 7 p (take 1 v.old) at → Stand s.now 0 p v.new q) }
{
    let mut p = at;
    for i in 1..8 {
        let z = plain_in(s, p, closing(7 - i), 8)?;
        v[i] = z.value as i64;
        p = z.next;
    }
    Some(p)
}

// The line at an offset of the id n and seven values, at once where these are short.
pub fn eight_at(s: &[u8], at: usize, n: usize) -> Option<Row<8>>
    ensures { result ≡ id_row_at 8 n s.now at }
{
    match head_at(s, at, n, 67) {
        Head::Unread => any_row(s, at, n),
        Head::Other => None,
        Head::Past(p) => {
            let mut v = [0i64; 8];
            v[0] = n as i64;
            if let Some(next) = seven_into(s, p, &mut v) {
                return Some(Row { v, next });
            }
            any_row(s, at, n)
        }
    }
}
