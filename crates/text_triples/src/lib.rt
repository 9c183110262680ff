// Lines of an id that is due and two more values: at once where these are short. The contracts cite specs/Short and the definitions of rules_text.
#![tactic(auto)]

ghost use Rattle.std.specs.Prelude.{◌≡◌, ◌+◌, ◌^◌, ◌<◌, ◌≤◌, length, pos, IfSome};
ghost use Rattle.rules_text.specs.Offsets.{number_at, closed_by, row_at, id_row_at};
ghost use Rattle.text_bytes.specs.Shorts.{Short};

use rules_text::Row;
use std::num::wrapping_sub_u64;
use text_bytes::{Closed, Head, head_at, is_id};
use text_numbers::closed_at;

// The number at an offset of one to seven digits, the first of them no 0, that the byte b closes.
fn short_in(s: &[u8], at: usize, b: u8) -> Option<Closed>
    requires { at + 8 ≤ length s.now }
    ensures value_bound { IfSome result (λ x. (x.value < 10 ^ 12) × (x.next ≤ at + 8)) }
    ensures short { IfSome result (λ x. Short s.now at b x.value x.next) }
{
    let first = wrapping_sub_u64(s[at] as u64, 49);
    if 8 < first {
        return None;
    }
    let mut value = first + 1;
    for count in 1..8 {
        let c = s[at + count];
        let d = wrapping_sub_u64(c as u64, 48);
        if 9 < d {
            if c != b {
                return None;
            }
            return Some(Closed {
                value,
                next: at + count + 1,
            });
        }
        value = value * 10 + d;
    }
    None
}

// The id of one or two digits at an offset that a space closes.
fn id_in(s: &[u8], at: usize) -> Option<Closed>
    requires { at + 3 ≤ length s.now }
    ensures value_bound { IfSome result (λ x. (x.value < 100) × (x.next ≤ at + 3)) }
    ensures next_value { IfSome result (λ x. Some (pos x.value, x.next) ≡ closed_by s.now 32 (number_at s.now at)) }
{
    let first = wrapping_sub_u64(s[at] as u64, 48);
    if s[at + 1] == 32 {
        if 9 < first {
            return None;
        }
        return Some(Closed {
            value: first,
            next: at + 2,
        });
    }
    if 8 < wrapping_sub_u64(first, 1) {
        return None;
    }
    let second = wrapping_sub_u64(s[at + 1] as u64, 48);
    if 9 < second {
        return None;
    }
    if s[at + 2] != 32 {
        return None;
    }
    Some(Closed {
        value: first * 10 + second,
        next: at + 3,
    })
}

// The short number at an offset that ends its line, after a minus or not, and the offset of the next line. It stands in the code of both its callers, for speed.
#[inline(always)]
fn last_in(s: &[u8], at: usize) -> Option<(i64, usize)>
    requires { at + 9 ≤ length s.now }
    ensures { IfSome result (λ x. Some x ≡ closed_by s.now 10 (number_at s.now at)) }
{
    if s[at] == 45 {
        let z = short_in(s, at + 1, 10)?;
        return Some((-(z.value as i64), z.next));
    }
    let z = short_in(s, at, 10)?;
    Some((z.value as i64, z.next))
}

// The second value of a line, at an offset: a short id, or a short number.
fn second_in<const ID: bool>(s: &[u8], at: usize) -> Option<Closed>
    requires { at + 8 ≤ length s.now }
    ensures value_bound { IfSome result (λ x. (x.value < 10 ^ 12) × (x.next ≤ at + 8)) }
    ensures next_value { IfSome result (λ x. Some (pos x.value, x.next) ≡ closed_by s.now 32 (number_at s.now at)) }
{
    if ID {
        id_in(s, at)
    } else {
        short_in(s, at, 32)
    }
}

// The line at an offset of the id n and, from another offset on, two short values.
fn id_and_two<const ID: bool>(s: &[u8], at: usize, n: usize, p: usize) -> Option<Row<3>>
    requires { (n < 100) × (p + 17 ≤ length s.now) × (Some (pos n, p) ≡ closed_by s.now 32 (number_at s.now at)) }
    ensures { IfSome result (λ r. Some r ≡ row_at 3 s.now at 3) }
{
    let y = second_in::<ID>(s, p)?;
    let (z, next) = last_in(s, y.next)?;
    Some(Row {
        v: [n as i64, y.value as i64, z],
        next,
    })
}

// The three values of the line at an offset, with one space between.
fn any_three(s: &[u8], at: usize) -> Option<Row<3>>
    ensures { result ≡ row_at 3 s.now at 3 }
{
    let (first, p) = closed_at(s, at, 32)?;
    let (second, q) = closed_at(s, p, 32)?;
    let (third, next) = closed_at(s, q, 10)?;
    Some(Row {
        v: [first, second, third],
        next,
    })
}

// The three values of the line at an offset, where the first of them is the id n.
fn any_id_three(s: &[u8], at: usize, n: usize) -> Option<Row<3>>
    ensures { result ≡ id_row_at 3 n s.now at }
{
    let row = any_three(s, at)?;
    if !is_id(n, row.v[0]) {
        return None;
    }
    Some(row)
}

// The same, at once where the other values are short.
fn triple_at<const ID: bool>(s: &[u8], at: usize, n: usize) -> Option<Row<3>>
    ensures { result ≡ id_row_at 3 n s.now at }
{
    match head_at(s, at, n, 17) {
        Head::Unread => any_id_three(s, at, n),
        Head::Other => None,
        Head::Past(p) => {
            if let Some(row) = id_and_two::<ID>(s, at, n, p) {
                return Some(row);
            }
            any_three(s, at)
        }
    }
}

// The three values of the line at an offset, where the first of them is the id n. At once where the others are short.
pub fn id_triple_at(s: &[u8], at: usize, n: usize) -> Option<Row<3>>
    ensures { result ≡ id_row_at 3 n s.now at }
{
    triple_at::<false>(s, at, n)
}

// The same, at once where the second value is a short id and the third is short.
pub fn ids_triple_at(s: &[u8], at: usize, n: usize) -> Option<Row<3>>
    ensures { result ≡ id_row_at 3 n s.now at }
{
    triple_at::<true>(s, at, n)
}
