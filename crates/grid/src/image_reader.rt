//! Reading a grid's image.
ghost use Rattle.std.specs.Prelude.{◌≡◌, ◌<◌, ◌≤◌, ◌++◌, ◌∷◌, ℕ, take, drop, map, All, OnErr, IfOk, IfErr, IfSome, OnOk, MatchOption, MatchBool, MatchResult, OnSome, Err, IsErrOf, vec_len, Some, None, [], true, suc, ◌+◌, ◌^◌};
ghost use Rattle.std.specs.Prelude.{length as length_of};
ghost use Rattle.std.specs.Option.{option_map};
ghost use Rattle.std.specs.Rc.{rc_slice_items};
ghost use Rattle.std.specs.Io.KnownBytes.{IsAtEnd};
ghost use Rattle.grid.specs.GridState.{states, maps_of, room_at, failures_at, IsHonest, NoneFailed};
ghost use Rattle.grid.specs.Leaves.{Leaves, TellsDown, IsUnchanged, TakesRoom};
ghost use Rattle.grid.specs.Rows.{rows_of};
ghost use Rattle.grid.specs.Refusals.{IsReaderRefusal, IsPartRefusal, IsPutRefusal, IsReadRefusal};
ghost use Rattle.grid.specs.RowOrder.{comes_after, AllBefore};
ghost use Rattle.grid.specs.ImageHeads.{head_key};
ghost use Rattle.grid.specs.Layout.{front as front_size, row_front as row_front_size};
ghost use Rattle.grid.specs.ImageReading.{image_said, said_in, rows_said, said_row, stopped};
ghost use Rattle.grid.specs.ImageSteps.{SaysRow, Reads, RefusesRow, AreFirst};
ghost use Rattle.grid.specs.Views.{TellOn};

use crate::image_fields::{RowHead, head_in, shares_in};
use crate::image_layout::Layout;
use crate::image_writer::CALL_LIMIT;
use crate::{Grid, GridFault};
use share_store::Store;
use std::alloc::Global;
use std::io::{ErrorKind, Read};
use std::rc::RcSlice;

/// How many bytes of a share are read at once. Memory is asked for as bytes come, never for all that an image names.
const PIECE: usize = 65_536;

impl<S: Store> Grid<S> {
    /// A grid of these stores, 1 to 256 that hold nothing, with the shares of an image, which is read up to the end of
    /// the reader's bytes. An image is what [`Grid::write_image`] writes, which is version 2, or the same in version 1: with
    /// `TGRIDIM1` in front, and four bytes for the number of shares and for each length. Its number of servers has to be
    /// that of the stores, and its shares stand in strictly rising order of server, storage index and number.
    ///
    /// A share is put once it was wholly read, and memory is asked for as its bytes come. Refused, where there is no
    /// grid and the stores are handed back with the shares that were put, which took their bytes of room:
    /// - [`GridFault::BadImage`] at the image's first fault, with its place in bytes from 0: that of the first field
    ///   that is cut off, out of its range or out of order (for a share that is, of its server), or of the first byte
    ///   too many; 0 where its first 8 bytes name neither version;
    /// - [`GridFault::Full`] where a share is longer than the room of its server's store;
    /// - [`GridFault::Down`] exactly when that server's store failed;
    /// - [`GridFault::ReadFailed`] where the reader failed, or after 2^40 calls of it, or where the image has more bytes
    ///   than 64 bits count;
    /// - [`GridFault::NoMemory`].
    pub fn read_image<R: Read>(
        alloc: Global,
        stores: Vec<S>,
        reader: &mut R,
    ) -> Result<Self, (GridFault, Vec<S>)>
        requires some { 0 < vec_len stores }
        requires few { vec_len stores ≤ 256 }
        requires empty { All (λ store. S.held store ≡ 0) stores.items }
        ensures leaves { MatchResult result
            (Leaves (states S.shares S.room S.held S.failures S.honest S.history stores.items))
            (λ refusal. Leaves (states S.shares S.room S.held S.failures S.honest S.history stores.items)
            (states S.shares S.room S.held S.failures S.honest S.history refusal.1.items)) }
        ensures told { MatchResult result
            (TellOn (states S.shares S.room S.held S.failures S.honest S.history stores.items))
            (λ refusal. TellOn (states S.shares S.room S.held S.failures S.honest S.history stores.items)
            (states S.shares S.room S.held S.failures S.honest S.history refusal.1.items)) }
        ensures none_failed { IfOk result (NoneFailed
            (states S.shares S.room S.held S.failures S.honest S.history stores.items)) }
        ensures down { IfErr result (λ refusal. TellsDown {T = Unit {0}}
            (states S.shares S.room S.held S.failures S.honest S.history stores.items)
            (states S.shares S.room S.held S.failures S.honest S.history refusal.1.items) (Err refusal.0)) }
        ensures refusals { IfErr result (λ refusal. IsReadRefusal refusal.0) }

        // Where the reader tells its bytes, they are the image.
        ensures no_fault { OnOk result (IfSome (R.remaining reader.old)
            (λ bytes. (image_said (vec_len stores) bytes).fault ≡ None)) }
        ensures end { OnOk result (OnSome (R.remaining reader.old)
            (IsAtEnd (R.remaining reader.new))) }
        ensures bad_image { IfErr result (λ refusal. (place : ℕ) →
            refusal.0 ≡ GridFault.BadImage place → IfSome (R.remaining reader.old)
            (λ bytes. ((image_said (vec_len stores) bytes).fault ≡ Some place)
            × (IsHonest (states S.shares S.room S.held S.failures S.honest S.history stores.items) →
            rows_of (maps_of (states S.shares S.room S.held S.failures S.honest S.history refusal.1.items))
            ≡ (image_said (vec_len stores) bytes).rows))) }
        ensures full { IfErr result (λ refusal. (server : ℕ) →
            refusal.0 ≡ GridFault.Full server → IfSome (R.remaining reader.old)
            (λ bytes. RefusesRow (image_said (vec_len stores) bytes).rows server
            (room_at (states S.shares S.room S.held S.failures S.honest S.history refusal.1.items) server)
            (IsHonest (states S.shares S.room S.held S.failures S.honest S.history stores.items))
            (rows_of (maps_of
            (states S.shares S.room S.held S.failures S.honest S.history refusal.1.items))))) }

        ensures ok { IsHonest (states S.shares S.room S.held S.failures S.honest S.history stores.items) →
            IfOk result (λ grid. IfSome (R.remaining reader.old)
            (λ bytes. rows_of (maps_of grid) ≡ (image_said (vec_len stores) bytes).rows)) }
        ensures rooms { IsHonest (states S.shares S.room S.held S.failures S.honest S.history stores.items) →
            MatchResult result
            (TakesRoom (states S.shares S.room S.held S.failures S.honest S.history stores.items))
            (λ refusal. TakesRoom (states S.shares S.room S.held S.failures S.honest S.history stores.items)
            (states S.shares S.room S.held S.failures S.honest S.history refusal.1.items)) }
        ensures err { IsHonest (states S.shares S.room S.held S.failures S.honest S.history stores.items) →
            IfErr result (λ refusal. IfSome (R.remaining reader.old)
            (λ bytes. AreFirst
            (rows_of (maps_of (states S.shares S.room S.held S.failures S.honest S.history refusal.1.items)))
            (image_said (vec_len stores) bytes).rows)) }
    {
        let mut grid = Grid::new(stores);
        match grid.take_image(alloc, reader) {
            Ok(()) => {
                grid.held_is_what_stands();
                Ok(grid)
            }
            Err(error) => {
                grid.held_is_what_stands();
                let Grid { stores, .. } = grid;
                Err((error, stores))
            }
        }
    }

    /// Takes the shares of an image into its stores, which are empty.
    fn take_image<R: Read>(&mut self, alloc: Global, reader: &mut R) -> Result<(), GridFault>
        ensures leaves { Leaves self.old self.new }
        ensures told { TellOn self.old self.new }
        ensures down { TellsDown self.old self.new result }
        ensures refusals { IfErr result IsReadRefusal }
        ensures reads { IfSome (R.remaining reader.old) (λ bytes.
            Reads (image_said (length_of self.old.stores) bytes) result
            (room_at self.new)
            (IsHonest self.old × (rows_of (maps_of self.old) ≡ []))
            (rows_of (maps_of self.new)) (R.remaining reader.new)) }
    {
        let mut calls = CALL_LIMIT;
        let mut name = [0; 8];
        let came = fill(reader, &mut calls, &mut name)?;
        match Layout::named(&name[..came]) {
            Some(layout) => self.take_shares(alloc, reader, &mut calls, layout),
            None => Err(GridFault::BadImage(0)),
        }
    }

    /// Takes the shares of an image whose name was read into its stores, which are empty.
    fn take_shares<R: Read>(
        &mut self,
        alloc: Global,
        reader: &mut R,
        calls: &mut u64,
        layout: Layout,
    ) -> Result<(), GridFault>
        ensures leaves { Leaves self.old self.new }
        ensures told { TellOn self.old self.new }
        ensures down { TellsDown self.old self.new result }
        ensures refusals { IfErr result IsReadRefusal }
        ensures reads { IfSome (R.remaining reader.old) (λ bytes.
            Reads (said_in layout (length_of self.old.stores) bytes) result
            (room_at self.new)
            (IsHonest self.old × (rows_of (maps_of self.old) ≡ []))
            (rows_of (maps_of self.new)) (R.remaining reader.new)) }
    {
        let mut buffer = [0; 12];
        let front = &mut buffer[..4 + layout.wide()];
        let came = fill(reader, calls, front)?;
        match shares_in(layout, &front[..came], self.servers()) {
            Ok(count) => self.take_rows(alloc, reader, calls, layout, count),
            Err(place) => Err(GridFault::BadImage(place)),
        }
    }

    /// Takes so many rows into its stores, which are empty, and then the image's end.
    fn take_rows<R: Read>(
        &mut self,
        alloc: Global,
        reader: &mut R,
        calls: &mut u64,
        layout: Layout,
        count: u64,
    ) -> Result<(), GridFault>
        ensures leaves { Leaves self.old self.new }
        ensures told { TellOn self.old self.new }
        ensures down { TellsDown self.old self.new result }
        ensures refusals { IfErr result IsReadRefusal }
        ensures reads { IfSome (R.remaining reader.old) (λ bytes.
            Reads (rows_said layout count (length_of self.old.stores) None (front_size layout) bytes) result
            (room_at self.new)
            (IsHonest self.old × (rows_of (maps_of self.old) ≡ []))
            (rows_of (maps_of self.new)) (R.remaining reader.new)) }
    {
        let servers = self.servers();
        let mut place = 12 + layout.wide() as u64;
        let mut last = None;
        for done in 0..count {
            let row = read_row(alloc, reader, calls, layout, servers, &last, place)?;
            place = row.next;
            last = Some(row.head);
            let _put = self.put_row(row.head, row.bytes)?;
        }
        expect_end(reader, calls, place)?;
        Ok(())
    }

    /// Puts a share that was read after all others.
    fn put_row(&mut self, head: RowHead, bytes: RcSlice<u8>) -> Result<bool, GridFault>
        requires server { head.server < length_of self.old.stores }
        requires some { 0 < length_of (rc_slice_items bytes) }
        ensures leaves { Leaves self.old self.new }
        ensures told { TellOn self.old self.new }
        ensures down { TellsDown self.old self.new result }
        ensures refusals { IfErr result IsPutRefusal }
        ensures full { (s : ℕ) → IsErrOf result (GridFault.Full s) →
            (s ≡ head.server) × (room_at self.new s < length_of (rc_slice_items bytes)) }
        ensures ok { IsHonest self.old → AllBefore (rows_of (maps_of self.old)) (head_key head) →
            OnOk result (rows_of (maps_of self.new)
            ≡ rows_of (maps_of self.old) ++ said_row head (rc_slice_items bytes) ∷ []) }
        ensures err { IsHonest self.old →
            OnErr result (rows_of (maps_of self.new) ≡ rows_of (maps_of self.old)) }
    {
        self.put_one(head.server as usize, head.index, head.number, bytes)
    }
}

/// A row as it was read, and the place where the next one stands.
#[derive(Drop)]
struct ShareRow {
    head: RowHead,
    bytes: RcSlice<u8>,
    next: u64,
}

/// Reads the row that stands at this place, after the row that is given. `ReadFailed` also where 64 bits don't count
/// the place of the next.
fn read_row<R: Read>(
    alloc: Global,
    reader: &mut R,
    calls: &mut u64,
    layout: Layout,
    servers: usize,
    last: &Option<RowHead>,
    place: u64,
) -> Result<ShareRow, GridFault>
    ensures refusals { IfErr result IsPartRefusal }
    ensures server { IfOk result (λ row. row.head.server < servers) }
    ensures after { IfOk result (λ row.
        comes_after (option_map head_key last.now) (head_key row.head) ≡ true) }
    ensures length { IfOk result (λ row. length_of (rc_slice_items row.bytes) ≡ row.head.length) }
    ensures some { IfOk result (λ row. 0 < row.head.length) }
    ensures next { IfOk result (λ row. row.next ≡ place + row_front_size layout + row.head.length) }
    ensures told { IfOk result (λ row. IfSome (R.remaining reader.old)
        (λ left. SaysRow layout servers (option_map head_key last.now) place left
        (R.remaining reader.new) row.head (rc_slice_items row.bytes))) }
    ensures bad_image { (p : ℕ) → IsErrOf result (GridFault.BadImage p) →
        IfSome (R.remaining reader.old) (λ left. (n : ℕ) →
        rows_said layout (suc n) servers (option_map head_key last.now) place left
        ≡ stopped p) }
{
    let size = 24 + layout.wide();
    let Some(own_place) = place.checked_add(size as u64) else {
        return Err(GridFault::ReadFailed);
    };
    let mut buffer = [0; 32];
    let front = &mut buffer[..size];
    let came = fill(reader, calls, front)?;
    let head = match head_in(layout, &front[..came], servers, last) {
        Ok(head) => head,
        Err(offset) => return Err(GridFault::BadImage(place + offset)),
    };
    // A length whose bytes end before is a fault, also where 64 bits don't count the place behind them.
    let Some(bytes) = read_bytes(alloc, reader, calls, head.length as usize)? else {
        return Err(GridFault::BadImage(own_place));
    };
    let Some(next) = own_place.checked_add(head.length) else {
        return Err(GridFault::ReadFailed);
    };
    let bytes = RcSlice::from_vec(bytes)?;
    Ok(ShareRow { head, bytes, next })
}

/// Refuses an image that goes on at this place, where it has to end.
fn expect_end<R: Read>(reader: &mut R, calls: &mut u64, place: u64) -> Result<(), GridFault>
    ensures refusals { IfErr result IsPartRefusal }
    ensures ok { OnOk result (IfSome (R.remaining reader.old)
        (λ left. (left ≡ []) × (R.remaining reader.new ≡ Some []))) }
    ensures bad_image { (p : ℕ) → IsErrOf result (GridFault.BadImage p) →
        (p ≡ place) × IfSome (R.remaining reader.old) (λ left. 0 < length_of left) }
{
    let mut next = [0; 1];
    if fill(reader, calls, &mut next)? > 0 {
        return Err(GridFault::BadImage(place));
    }
    Ok(())
}

/// Reads the bytes of a share, of which there are so many. `None` where the reader's bytes end before.
fn read_bytes<R: Read>(
    alloc: Global,
    reader: &mut R,
    calls: &mut u64,
    count: usize,
) -> Result<Option<Vec<u8>>, GridFault>
    ensures refusals { IfErr result IsReaderRefusal }
    ensures count { IfOk result (λ read. IfSome read (λ bytes. vec_len bytes ≡ count)) }
    ensures told { IfOk result (λ read. IfSome (R.remaining reader.old) (λ left.
        MatchOption read (length_of left < count)
        (λ bytes. (count ≤ length_of left) × (bytes.items ≡ take count left)
        × (R.remaining reader.new ≡ Some (drop count left))))) }
{
    let mut bytes = Vec::new(alloc);
    while bytes.len() < count {
        let piece = PIECE.min(count - bytes.len());
        if !read_piece(reader, calls, &mut bytes, piece)? {
            return Ok(None);
        }
    }
    Ok(Some(bytes))
}

/// Adds the next bytes, of which there are so many. `false` where the reader's bytes end before.
fn read_piece<R: Read>(
    reader: &mut R,
    calls: &mut u64,
    bytes: &mut Vec<u8>,
    count: usize,
) -> Result<bool, GridFault>
    requires { vec_len bytes.old + count < 2 ^ 64 }
    ensures refusals { IfErr result IsReaderRefusal }
    ensures length { IfOk result (λ whole. vec_len bytes.new ≡ vec_len bytes.old + count) }
    ensures told { IfOk result (λ whole. IfSome (R.remaining reader.old) (λ left. MatchBool whole
        ((count ≤ length_of left) × (bytes.new.items ≡ bytes.old.items ++ take count left)
        × (R.remaining reader.new ≡ Some (drop count left)))
        (length_of left < count))) }
{
    let start = bytes.len();
    bytes.resize(start + count, 0)?;
    let came = fill(reader, calls, &mut bytes.as_mut_slice()[start..])?;
    if came < count {
        return Ok(false);
    }
    Ok(true)
}

/// Reads until the buffer is full or the reader's bytes end, and says how many bytes came.
fn fill<R: Read>(reader: &mut R, calls: &mut u64, buffer: &mut [u8]) -> Result<usize, GridFault>
    ensures refusals { IfErr result IsReaderRefusal }
    ensures bound { IfOk result (λ came. came ≤ length_of buffer.new) }
    ensures told { IfOk result (λ came. IfSome (R.remaining reader.old) (λ left.
        (take came buffer.new ≡ take (length_of buffer.new) left)
        × (R.remaining reader.new ≡ Some (drop (length_of buffer.new) left)))) }
{
    let mut came = 0;
    while came < buffer.len() {
        if *calls == 0 {
            return Err(GridFault::ReadFailed);
        }
        *calls -= 1;
        match reader.read(&mut buffer[came..]) {
            Ok(0) => return Ok(came),
            Ok(count) => came += count,
            Err(error) => {
                if error.kind() != ErrorKind::Interrupted {
                    return Err(GridFault::ReadFailed);
                }
            }
        }
    }
    Ok(came)
}
