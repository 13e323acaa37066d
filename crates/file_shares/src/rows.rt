//! What was gathered or told, number by number.
ghost use Rattle.std.specs.Prelude.{◌≡◌, ◌<◌, [], length, map, slice_index_or, IfOk};
ghost use Rattle.std.specs.List.{range_with_len};
ghost use Rattle.std.specs.Rc.{rc_slice_items};
ghost use Rattle.file_shares.specs.Gathered.{found_string, places_of, by_number, servers_by_number};

use std::alloc::{AllocError, Global};
use std::marker::Model;
use std::rc::RcSlice;

/// A string that was gathered, where it stands.
#[derive(Drop)]
pub(crate) struct ShareRef<'a> {
    bytes: &'a RcSlice<u8>,
}

impl<'a> Model for ShareRef<'a> {
    ghost use Rattle.std.specs.Prelude.{List, ℕ};
    ghost use Rattle.std.specs.Rc.{rc_slice_items};

    ghost Value = { List ℕ };

    ghost view = { λ lent. rc_slice_items lent.bytes.now };
}

impl<'a> ShareRef<'a> {
    /// A string, which isn't copied.
    fn new(bytes: &'a RcSlice<u8>) -> Self
        ensures { result ≡ rc_slice_items bytes.now }
    {
        ShareRef { bytes }
    }

    /// The string.
    pub(crate) fn bytes(&self) -> &'a RcSlice<u8>
        ensures { rc_slice_items result.now ≡ self.now }
    {
        self.bytes
    }
}

/// The servers and strings that were gathered of each number, in the order in which they came.
#[derive(Drop)]
pub struct Rows<'a> {
    rows: Vec<Vec<(usize, ShareRef<'a>)>>,
}

impl<'a> Model for Rows<'a> {
    ghost use Rattle.std.specs.Prelude.{List, map};
    ghost use Rattle.file_shares.specs.Row.{ServerShare};
    ghost use Rattle.file_shares.specs.Gathered.{places_of};

    ghost Value = { List (List ServerShare) };

    ghost view = { λ r. map (λ row. places_of row.items) r.rows.items };
}

impl<'a> Rows<'a> {
    /// What was gathered of the numbers below `n`, in one pass.
    pub fn new(
        alloc: Global,
        found: &'a [(usize, u16, RcSlice<u8>)],
        n: u16,
    ) -> Result<Self, AllocError>
        ensures { IfOk result (λ rows. rows ≡ by_number n (map (found_string rc_slice_items) found.now)) }
    {
        let mut rows = empty_rows(alloc, n)?;
        for (server, number, bytes) in found {
            if *number < n {
                let row = &mut rows[*number as usize];
                row.push((*server, ShareRef::new(bytes)))?;
            }
        }
        Ok(Rows { rows })
    }

    /// What was gathered of a number.
    pub(crate) fn places(&self, number: u16) -> &[(usize, ShareRef<'a>)]
        requires { number < length self.now }
        ensures { places_of result.now ≡ slice_index_or self.now number [] }
    {
        &self.rows[number as usize]
    }
}

/// The servers at which a share of each number stands, in the order in which they came.
#[derive(Drop)]
pub struct ServerRows {
    rows: Vec<Vec<usize>>,
}

impl Model for ServerRows {
    ghost use Rattle.std.specs.Prelude.{List, ℕ, map};

    ghost Value = { List (List ℕ) };

    ghost view = { λ r. map (λ row. row.items) r.rows.items };
}

impl ServerRows {
    /// Those of the numbers below `n` among these places, in one pass.
    pub fn new(alloc: Global, places: &[(usize, u16)], n: u16) -> Result<Self, AllocError>
        ensures { IfOk result (λ rows. rows ≡ servers_by_number n places.now) }
    {
        let mut rows = empty_rows(alloc, n)?;
        for (server, number) in places {
            if *number < n {
                let row = &mut rows[*number as usize];
                row.push(*server)?;
            }
        }
        Ok(ServerRows { rows })
    }

    /// The servers of a number.
    pub(crate) fn servers(&self, number: u16) -> &[usize]
        requires { number < length self.now }
        ensures { result.now ≡ slice_index_or self.now number [] }
    {
        &self.rows[number as usize]
    }
}

/// So many rows with nothing in them.
fn empty_rows<T: Drop>(alloc: Global, n: u16) -> Result<Vec<Vec<T>>, AllocError>
    ensures { IfOk result (λ rows.
        map (λ row. row.items) rows.items ≡ map (λ _. []) (range_with_len 0 n)) }
{
    let mut rows = Vec::with_capacity(alloc, n as usize)?;
    for _ in 0..n {
        rows.push(Vec::new(alloc))?;
    }
    Ok(rows)
}
