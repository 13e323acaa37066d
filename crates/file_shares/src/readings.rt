//! Strings that stores had in memory, while their blocks are hashed.
ghost use Rattle.std.specs.Prelude.{◌≡◌, ◌<◌, All, length, IfOk, IfSome, OnOk};
ghost use Rattle.std.specs.Rc.{rc_slice_items};

use share_codec::{Params, ShareReading};
use std::alloc::{AllocError, Global};
use std::marker::Model;
use std::rc::RcSlice;

/// How many blocks are hashed side by side.
const LANES: usize = 8;

/// About how many bytes of blocks are hashed in a step.
const BLOCK_BYTES: usize = 1_048_576;

/// A string that a store had in memory, where it stood, and the hashes of its blocks as far as they are made.
#[derive(Drop)]
struct PlacedReading {
    server: usize,
    number: u16,
    reading: ShareReading,
}

/// Strings that stores had in memory of a file: those that wait to be hashed, and number by number, each with its server,
/// those whose blocks are hashed. Callers see the numbers of the file alone, by which all of them are judged: which strings
/// these are, and how far they are hashed, changes only how long it takes to judge a share.
#[derive(Drop)]
pub struct Readings {
    params: Params,
    waiting: Vec<PlacedReading>,
    hashed: Vec<Vec<(usize, ShareReading)>>,
}

impl Model for Readings {
    ghost use Rattle.std.specs.Prelude.{◌≡◌, All};
    ghost use Rattle.share_codec.specs.Params.{ParamsValue};

    ghost Value = { ParamsValue };

    ghost view = { λ r. r.params };

    // all are judged by these numbers
    ghost invariant = { λ r. All (λ placed. placed.reading.params ≡ r.params) r.waiting.items
        × All (λ row. All (λ held. held.1.params ≡ r.params) row.items) r.hashed.items };
}

impl Readings {
    /// Of a file with these numbers; none yet.
    pub fn new(alloc: Global, params: &Params) -> Readings
        ensures { result ≡ params.now }
    {
        Readings {
            params: *params,
            waiting: Vec::new(alloc),
            hashed: Vec::new(alloc),
        }
    }

    /// Adds a string that a server's store had in memory as the share of a number. No block of it is hashed yet. Where
    /// memory is refused it isn't added.
    pub fn add(&mut self, server: usize, number: u16, bytes: RcSlice<u8>) -> Result<(), AllocError>
        ensures { self.new ≡ self.old }
    {
        let reading = ShareReading::new(*self.waiting.allocator(), bytes, &self.params);
        self.waiting.push(PlacedReading {
            server,
            number,
            reading,
        })?;
        Ok(())
    }

    /// Whether no string waits to be hashed.
    pub fn is_hashed(&self) -> bool {
        self.waiting.is_empty()
    }

    /// With some more blocks hashed: about 1,048,576 bytes of them at most.
    pub fn step(self) -> Result<Readings, AllocError>
        ensures { IfOk result (λ readings. readings ≡ self) }
    {
        let Readings {
            params,
            mut waiting,
            mut hashed,
        } = self;
        hash_some(&params, &mut waiting, &mut hashed)?;
        Ok(Readings {
            params,
            waiting,
            hashed,
        })
    }

    /// The hashes of this string, where the store of this server had it in memory as the share of this number and they are
    /// made. It is compared with one string at most.
    pub(crate) fn find(
        &self,
        server: usize,
        number: u16,
        bytes: &RcSlice<u8>,
    ) -> Option<&ShareReading>
        ensures text { IfSome result (λ reading. reading.now.text ≡ rc_slice_items bytes.now) }
        ensures params { IfSome result (λ reading. reading.now.params ≡ self.now) }
    {
        let at = number as usize;
        if at >= self.hashed.len() {
            return None;
        }
        find_in(&self.hashed[at], server, bytes, &self.params)
    }
}

/// That of these readings whose string this is, where it stood at this server.
fn find_in<'a>(
    row: &'a [(usize, ShareReading)],
    server: usize,
    bytes: &RcSlice<u8>,
    params: &Params,
) -> Option<&'a ShareReading>
    requires { All (λ held. held.1.params ≡ params.now) row.now }
    ensures text { IfSome result (λ reading. reading.now.text ≡ rc_slice_items bytes.now) }
    ensures params { IfSome result (λ reading. reading.now.params ≡ params.now) }
{
    let _ = params;
    for (other, reading) in row {
        if *other == server {
            return if_of(reading, bytes);
        }
    }
    None
}

/// The reading, where its string is this one.
fn if_of<'a>(reading: &'a ShareReading, bytes: &RcSlice<u8>) -> Option<&'a ShareReading>
    ensures text { IfSome result (λ found. found.now.text ≡ rc_slice_items bytes.now) }
    ensures same { IfSome result (λ found. found.now ≡ reading.now) }
{
    if reading.bytes().as_slice() == bytes.as_slice() {
        Some(reading)
    } else {
        None
    }
}

/// Hashes some blocks of the last string that waits. It waits further, unless none of its blocks is left.
fn hash_some(
    params: &Params,
    waiting: &mut Vec<PlacedReading>,
    hashed: &mut Vec<Vec<(usize, ShareReading)>>,
) -> Result<(), AllocError>
    requires waiting { All (λ placed. placed.reading.params ≡ params.now) waiting.old.items }
    requires hashed { All (λ row. All (λ held. held.1.params ≡ params.now) row.items)
        hashed.old.items }
    ensures waiting { OnOk result (
        All (λ placed. placed.reading.params ≡ params.now) waiting.new.items) }
    ensures hashed { OnOk result (
        All (λ row. All (λ held. held.1.params ≡ params.now) row.items) hashed.new.items) }
{
    let Some(placed) = waiting.pop() else {
        return Ok(());
    };
    let PlacedReading {
        server,
        number,
        mut reading,
    } = placed;
    if reading.step(blocks_in_a_step(params))? {
        waiting.push(PlacedReading {
            server,
            number,
            reading,
        })?;
        return Ok(());
    }
    put(params, hashed, server, number, reading)
}

/// How many blocks are hashed in a step.
fn blocks_in_a_step(params: &Params) -> usize {
    let most = LANES.max(BLOCK_BYTES / (params.block_size() + 1));
    most - most % LANES
}

/// Adds a string whose blocks are hashed to those of its number.
fn put(
    params: &Params,
    hashed: &mut Vec<Vec<(usize, ShareReading)>>,
    server: usize,
    number: u16,
    reading: ShareReading,
) -> Result<(), AllocError>
    requires reading { reading.params ≡ params.now }
    requires hashed { All (λ row. All (λ held. held.1.params ≡ params.now) row.items)
        hashed.old.items }
    ensures { OnOk result (
        All (λ row. All (λ held. held.1.params ≡ params.now) row.items) hashed.new.items) }
{
    make_rows(params, hashed, number)?;
    let row = &mut hashed[number as usize];
    row.push((server, reading))?;
    Ok(())
}

/// Adds empty rows until there is one of a number.
fn make_rows(
    params: &Params,
    hashed: &mut Vec<Vec<(usize, ShareReading)>>,
    number: u16,
) -> Result<(), AllocError>
    requires { All (λ row. All (λ held. held.1.params ≡ params.now) row.items) hashed.old.items }
    ensures rows { OnOk result (number < length hashed.new.items) }
    ensures hashed { OnOk result (
        All (λ row. All (λ held. held.1.params ≡ params.now) row.items) hashed.new.items) }
{
    let _ = params;
    while hashed.len() <= number as usize {
        let row = Vec::new(*hashed.allocator());
        hashed.push(row)?;
    }
    Ok(())
}
