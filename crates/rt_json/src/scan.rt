ghost use Rattle.std.specs.Prelude.{◌≡◌, ◌+◌, ◌≤◌, drop, length, map, not};
ghost use Rattle.std.specs.List.{prefix_len};
ghost use Rattle.std.specs.Simd.Lanes.{mask_l};
ghost use Rattle.rt_json.specs.Reads.{is_ascii_plain, is_plain, past_blanks, past_plain, past_digits};

use crate::bytes::{Digits, digits_after, is_blank, is_plain};
use std::simd::prelude::*;

/// The place of the first byte from `at` on that is no blank.
#[inline(always)]
pub fn past_blanks(bytes: &[u8], at: usize) -> usize
    requires { at ≤ length bytes.now }
    ensures from { at ≤ result }
    ensures within { result ≤ length bytes.now }
    ensures rest { drop result bytes.now ≡ past_blanks (drop at bytes.now) }
{
    let mut to = at;
    while to < bytes.len() && is_blank(bytes[to]) {
        to += 1;
    }
    to
}

/// A bit for each of the sixteen bytes that doesn't stand for itself in a text.
#[inline(always)]
fn stops(bytes: u8x16) -> u64
    ensures { result ≡ mask_l (map (λ b. not (is_plain b)) bytes) }
{
    (bytes.simd_eq(u8x16::splat(b'"'))
        | bytes.simd_eq(u8x16::splat(b'\\'))
        | bytes.simd_lt(u8x16::splat(32))).to_bitmask()
}

/// The same place as `past_plain`, a byte at a time.
#[inline(always)]
fn past_plain_bytes(bytes: &[u8], at: usize) -> usize
    requires { at ≤ length bytes.now }
    ensures { result ≡ at + prefix_len is_plain (drop at bytes.now) }
{
    let mut to = at;
    while to < bytes.len() && is_plain(bytes[to]) {
        to += 1;
    }
    to
}

/// The place of the first byte from `at` on that doesn't stand for itself in a text.
pub fn past_plain(bytes: &[u8], at: usize) -> usize
    requires { at ≤ length bytes.now }
    ensures from { at ≤ result }
    ensures within { result ≤ length bytes.now }
    ensures rest { drop result bytes.now ≡ past_plain (drop at bytes.now) }
{
    let mut to = at;
    while bytes.len() - to >= 16 {
        let found = stops(u8x16::from_slice(&bytes[to..]));
        if found != 0 {
            return to + found.trailing_zeros() as usize;
        }
        to += 16;
    }
    past_plain_bytes(bytes, to)
}

/// A bit for each of the sixteen bytes that doesn't stand for itself in a text, or isn't ASCII.
#[inline(always)]
fn stops_or_high(bytes: u8x16) -> u64
    ensures { result ≡ mask_l (map (λ b. not (is_ascii_plain b)) bytes) }
{
    (bytes.simd_eq(u8x16::splat(b'"'))
        | bytes.simd_eq(u8x16::splat(b'\\'))
        | (bytes - u8x16::splat(32)).simd_ge(u8x16::splat(96))).to_bitmask()
}

#[inline(always)]
fn past_ascii_bytes(bytes: &[u8], at: usize) -> usize
    requires { at ≤ length bytes.now }
    ensures { result ≡ at + prefix_len is_ascii_plain (drop at bytes.now) }
{
    let mut to = at;
    while to < bytes.len() && is_plain(bytes[to]) && bytes[to] < 128 {
        to += 1;
    }
    to
}

/// The place of the first byte from `at` on that doesn't stand for itself in a text, or isn't ASCII.
pub fn past_ascii(bytes: &[u8], at: usize) -> usize
    requires { at ≤ length bytes.now }
    ensures run { result ≡ at + prefix_len is_ascii_plain (drop at bytes.now) }
    ensures within { result ≤ length bytes.now }
{
    let mut to = at;
    while bytes.len() - to >= 16 {
        let found = stops_or_high(u8x16::from_slice(&bytes[to..]));
        if found != 0 {
            return to + found.trailing_zeros() as usize;
        }
        to += 16;
    }
    past_ascii_bytes(bytes, to)
}

/// The place of the first byte from `at` on with which a number can't go on, and where the number stands there.
pub fn past_digits(bytes: &[u8], at: usize, digits: Digits) -> (Digits, usize)
    requires { at ≤ length bytes.now }
    ensures from { at ≤ result.1 }
    ensures within { result.1 ≤ length bytes.now }
    ensures rest { past_digits digits (drop at bytes.now) ≡ (result.0, drop result.1 bytes.now) }
{
    let mut to = at;
    let mut digits = digits;
    while to < bytes.len() {
        match digits_after(digits, bytes[to]) {
            Some(next) => digits = next,
            None => return (digits, to),
        }
        to += 1;
    }
    (digits, to)
}
