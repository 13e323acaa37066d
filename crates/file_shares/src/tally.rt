//! Of how many numbers something stands, and of how many a good share was gathered.
ghost use Rattle.std.specs.Prelude.{◌≡◌, ◌++◌, length, IfOk, OnOk, is_some};
ghost use Rattle.file_shares.specs.Row.{first_good};
ghost use Rattle.file_shares.specs.Gathered.{places_of, good_below, bad_below, places_below, places_at, some_below, standing_below};
ghost use Rattle.file_shares.specs.Check.{bad_places, good_places};

use crate::chosen::good;
use crate::readings::Readings;
use crate::rows::{Rows, ServerRows, ShareRef};
use share_codec::Params;
use std::alloc::{AllocError, Global};

/// Of how many numbers below `n` something stands, and its places, in the order of the numbers.
pub fn standing(
    alloc: Global,
    rows: &ServerRows,
    n: u16,
) -> Result<(u16, Vec<(usize, u16)>), AllocError>
    requires { length rows.now ≡ n }
    ensures count { IfOk result (λ standing. standing.0 ≡ length (some_below rows.now n)) }
    ensures places { IfOk result (λ standing. standing.1.items ≡ standing_below rows.now n) }
{
    let mut count = 0;
    let mut places = Vec::new(alloc);
    for number in 0..n {
        let there = rows.servers(number);
        put_places(there, number, &mut places)?;
        if !there.is_empty() {
            count += 1;
        }
    }
    Ok((count, places))
}

/// Adds the places of a number.
fn put_places(
    servers: &[usize],
    number: u16,
    places: &mut Vec<(usize, u16)>,
) -> Result<(), AllocError>
    ensures { OnOk result (places.new.items ≡ places.old.items ++ places_at number servers.now) }
{
    for server in servers {
        places.push((*server, number))?;
    }
    Ok(())
}

/// Of how many numbers a good share was gathered, the places of the shares that aren't good, and those of the good ones.
/// Strings that were hashed before, in `readings`, aren't hashed again.
pub fn judge_each(
    alloc: Global,
    rows: &Rows<'_>,
    readings: &Readings,
    params: &Params,
    ueb: &[u8; 32],
) -> Result<(u16, Vec<(usize, u16)>, Vec<(usize, u16)>), AllocError>
    requires rows { length rows.now ≡ params.now.n }
    requires readings { readings.now ≡ params.now }
    ensures good { IfOk result (λ judged. judged.0
        ≡ length (good_below params.now ueb.now rows.now params.now.n)) }
    ensures corrupt { IfOk result (λ judged. judged.1.items
        ≡ bad_below params.now ueb.now rows.now params.now.n) }
    ensures places { IfOk result (λ judged. judged.2.items
        ≡ places_below params.now ueb.now rows.now params.now.n) }
{
    let mut count = 0;
    let mut corrupt = Vec::new(alloc);
    let mut places = Vec::new(alloc);
    for number in 0..params.n {
        let found = rows.places(number);
        if judge(
            alloc,
            found,
            readings,
            number,
            params,
            ueb,
            &mut corrupt,
            &mut places,
        )? {
            count += 1;
        }
    }
    Ok((count, corrupt, places))
}

/// Whether one of the shares of a number is good. Adds the places of those that aren't to the first list, and of those
/// that are to the second.
fn judge(
    alloc: Global,
    found: &[(usize, ShareRef<'_>)],
    readings: &Readings,
    number: u16,
    params: &Params,
    ueb: &[u8; 32],
    corrupt: &mut Vec<(usize, u16)>,
    places: &mut Vec<(usize, u16)>,
) -> Result<bool, AllocError>
    requires { readings.now ≡ params.now }
    ensures good { IfOk result (λ any. any
        ≡ is_some (first_good params.now ueb.now number (places_of found.now))) }
    ensures corrupt { OnOk result (corrupt.new.items
        ≡ corrupt.old.items ++ bad_places params.now ueb.now number (places_of found.now)) }
    ensures places { OnOk result (places.new.items
        ≡ places.old.items ++ good_places params.now ueb.now number (places_of found.now)) }
{
    let mut any = false;
    for (server, bytes) in found {
        if good(alloc, *server, bytes.bytes(), readings, number, params, ueb)?.is_some() {
            any = true;
            places.push((*server, number))?;
        } else {
            corrupt.push((*server, number))?;
        }
    }
    Ok(any)
}
