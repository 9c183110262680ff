// Numbers at an offset of a lent text (paper 01, Text). The contracts cite the definitions of rules_text.
#![tactic(auto)]

ghost use Rattle.std.specs.Prelude.{◌≡◌, ◌+◌, ◌^◌, ◌<◌, ◌≤◌, ◌&&◌, length, take, drop, pos, neg_ℤ, ◌==◌, slice_index};
ghost use Rattle.rules_text.specs.Numbers.{digit_count, value, formed, magnitude};
ghost use Rattle.rules_text.specs.Offsets.{number_at, closed_by};

use std::num::wrapping_sub_u64;
use text_bytes::sign_width;

// What digits spell, and how many they are.
#[derive(Clone, Copy)]
struct Digits {
    value: u64,
    count: usize,
}

// The digits among the next `end` bytes from an offset, up to the first byte that is none.
fn digits_in(s: &[u8], at: usize, end: usize) -> Digits
    requires { (end ≤ 13) × (at + end ≤ length s.now) }
    ensures value_value { result.value ≡ value 0 (take end (drop at s.now)) }
    ensures count_value { result.count ≡ digit_count (take end (drop at s.now)) }
{
    let mut value: u64 = 0;
    for count in 0..end {
        let d = wrapping_sub_u64(s[at + count] as u64, 48);
        if 9 < d {
            return Digits { value, count };
        }
        value = value * 10 + d;
    }
    Digits { value, count: end }
}

// The digits at an offset, of which it reads at most 13, one more than a number may have.
fn digits_at(s: &[u8], at: usize) -> Digits
    ensures value_value { result.value ≡ value 0 (take 13 (drop at s.now)) }
    ensures count_value { result.count ≡ digit_count (take 13 (drop at s.now)) }
{
    if s.len() <= at {
        return Digits { value: 0, count: 0 };
    }
    let left = s.len() - at;
    if left < 13 {
        return digits_in(s, at, left);
    }
    digits_in(s, at, 13)
}

// Whether the count digits at an offset are a number: 1 to 12 of them, with no 0 in front.
fn is_number(s: &[u8], at: usize, count: usize) -> bool
    requires { 1 < count → at < length s.now }
    ensures { result ≡ formed (slice_index s.now at) count }
{
    if count < 1 {
        return false;
    }
    if 12 < count {
        return false;
    }
    if count == 1 {
        return true;
    }
    s[at] != 48
}

// The digits at an offset as a number.
fn magnitude_at(s: &[u8], at: usize) -> Option<(u64, usize)>
    ensures { result ≡ magnitude (drop at s.now) }
{
    let digits = digits_at(s, at);
    if !is_number(s, at, digits.count) {
        return None;
    }
    Some((digits.value, digits.count))
}

fn plus(v: u64) -> i64
    requires { v < 10 ^ 12 }
    ensures { result ≡ pos v }
{
    v as i64
}

fn minus(v: u64) -> i64
    requires { v < 10 ^ 12 }
    ensures { result ≡ neg_ℤ (pos v) }
{
    -(v as i64)
}

// The number at an offset.
fn number_at(s: &[u8], at: usize) -> Option<(i64, usize)>
    ensures { result ≡ number_at s.now at }
{
    if s.len() <= at {
        return None;
    }
    let sign = sign_width(s[at]);
    let from = at + sign;
    let (v, count) = magnitude_at(s, from)?;
    let next = from + count;
    if sign == 0 {
        return Some((plus(v), next));
    }
    if v == 0 {
        return None;
    }
    Some((minus(v), next))
}

// Whether the count digits at an offset are a number that the byte b closes.
fn closes(s: &[u8], at: usize, count: usize, b: u8) -> bool
    requires { at + 12 < length s.now }
    ensures { result ≡ (formed (slice_index s.now at) count && slice_index s.now (at + count) == b) }
{
    if !is_number(s, at, count) {
        return false;
    }
    s[at + count] == b
}

// The byte at an offset, or 0 past the end.
fn byte_at(s: &[u8], at: usize) -> u8
    ensures { result ≡ slice_index s.now at }
{
    if at < s.len() { s[at] } else { 0 }
}

// The number at an offset that the byte b closes, near the text's end, with the offset after that byte.
fn late_at(s: &[u8], at: usize, b: u8) -> Option<(i64, usize)>
    ensures { result ≡ closed_by s.now b (number_at s.now at) }
{
    let (x, n) = number_at(s, at)?;
    if byte_at(s, n) != b {
        return None;
    }
    Some((x, n + 1))
}

// The same where 14 bytes are left, of which the first is no digit.
fn negative_at(s: &[u8], at: usize, b: u8) -> Option<(i64, usize)>
    requires { (at + 14 ≤ length s.now) × (digit_count (take 13 (drop at s.now)) ≡ 0) }
    ensures { result ≡ closed_by s.now b (number_at s.now at) }
{
    if s[at] != 45 {
        return None;
    }
    let from = at + 1;
    let digits = digits_in(s, from, 13);
    if !closes(s, from, digits.count, b) {
        return None;
    }
    if digits.value == 0 {
        return None;
    }
    Some((minus(digits.value), from + digits.count + 1))
}

// The number at an offset that the byte b closes, with the offset after that byte. Where 14 bytes are left, the length is tested no more.
pub fn closed_at(s: &[u8], at: usize, b: u8) -> Option<(i64, usize)>
    ensures { result ≡ closed_by s.now b (number_at s.now at) }
{
    if s.len() <= at {
        return None;
    }
    if s.len() - at < 14 {
        return late_at(s, at, b);
    }
    let digits = digits_in(s, at, 13);
    if digits.count == 0 {
        return negative_at(s, at, b);
    }
    if !closes(s, at, digits.count, b) {
        return None;
    }
    Some((plus(digits.value), at + digits.count + 1))
}
