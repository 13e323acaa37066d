//! The round keys of a key (FIPS 197, section 5.2).

ghost use Rattle.std.specs.Prelude.{◌≡◌, ℕ, List};
ghost use Rattle.aes_ctr.specs.Field.{times_x};
ghost use Rattle.aes_ctr.specs.Rounds.{sub_bytes};
ghost use Rattle.aes_ctr.specs.KeyExpansion.{next_round_key, x_power, AreRoundKeys};
ghost use Rattle.aes_ctr.specs.Planes.{AreKeyPlanes};

use crate::circuit::substituted;
use crate::transposition::{blocks_of, lower, planes_of, twice};
use std::simd::prelude::*;

/// SubBytes (section 5.1.1), as the cipher does it.
fn sub_bytes(state: [u8; 16]) -> [u8; 16]
    ensures { result ≡ sub_bytes state }
{
    let planes = substituted(planes_of(twice(state)));
    lower(blocks_of(planes)[0])
}

/// A byte times x in the field (section 4.2.1).
pub(crate) fn double(x: u8) -> u8
    ensures { result ≡ times_x x }
{
    if x < 128 { 2 * x } else { 2 * (x - 128) ^ 0x1b }
}

/// The round key after `key`, where `power` is Rcon.
pub(crate) fn next_round_key(key: [u8; 16], power: u8) -> [u8; 16]
    ensures { (n : ℕ) → power ≡ x_power n → result ≡ next_round_key key n }
{
    let s = sub_bytes(key);
    let a = key[0] ^ (s[13] ^ power);
    let b = key[1] ^ s[14];
    let c = key[2] ^ s[15];
    let d = key[3] ^ s[12];
    let [e, f, g, h] = [key[4] ^ a, key[5] ^ b, key[6] ^ c, key[7] ^ d];
    let [i, j, k, l] = [key[8] ^ e, key[9] ^ f, key[10] ^ g, key[11] ^ h];
    let [m, n, o, p] = [key[12] ^ i, key[13] ^ j, key[14] ^ k, key[15] ^ l];
    [a, b, c, d, e, f, g, h, i, j, k, l, m, n, o, p]
}

/// The round keys of a key, round key 0 first.
pub(crate) fn expanded(key: [u8; 16]) -> [[u8; 16]; 11]
    ensures { AreRoundKeys key result }
{
    let mut keys = [key; 11];
    let mut last = key;
    let mut power = 1;
    for n in 0..10 {
        let next = next_round_key(last, power);
        keys[n + 1] = next;
        last = next;
        power = double(power);
    }
    keys
}

/// The planes of a key's round keys, each for all of sixteen states.
pub(crate) fn key_planes(keys: &[[u8; 16]; 11]) -> [[u8x32; 8]; 11]
    ensures { (key : List ℕ) → AreRoundKeys key keys.now → AreKeyPlanes key result }
{
    let mut planes = [[u8x32::splat(0); 8]; 11];
    for n in 0..11 {
        let of_one = planes_of(twice(keys[n]));
        planes[n] = of_one;
    }
    planes
}
