//! Writing a grid's image.
ghost use Rattle.std.specs.Prelude.{◌≡◌, ◌<◌, ◌^◌, ◌++◌, ◌∷◌, [], ℕ, List, IfOk, IfErr, OnOk, OnErr, IsErrOf, slice_get, Some};
ghost use Rattle.std.specs.Prelude.{length as length_of};
ghost use Rattle.std.specs.List.{flat_map};
ghost use Rattle.std.specs.Option.{option_map};
ghost use Rattle.std.specs.Rc.{rc_slice_items};
ghost use Rattle.std.specs.Io.KnownBytes.{Appends};
ghost use Rattle.share_store.specs.Stored.{entry_of};
ghost use Rattle.grid.specs.Found.{entries_at};
ghost use Rattle.grid.specs.Refusals.{IsWriteRefusal, IsLookRefusal};
ghost use Rattle.grid.specs.GridState.{maps_of, IsHonest};
ghost use Rattle.grid.specs.Leaves.{Leaves, TellsDown, IsUnchanged};
ghost use Rattle.grid.specs.Rows.{Row, rows_at, rows_of};
ghost use Rattle.grid.specs.RowsKept.{row_of};
ghost use Rattle.grid.specs.Layout.{be32, be64};
ghost use Rattle.grid.specs.Image.{image, image_head, row_head, row_bytes, refused_field, refused_place};
ghost use Rattle.grid.specs.ImageLaws.{CanBeWritten};
ghost use Rattle.grid.specs.Written.{WritesBeginning};
ghost use Rattle.grid.specs.RowsWritten.{AreWritten, WritesImage};
ghost use Rattle.grid.specs.Views.{StandStill, TellOn};
ghost use Rattle.grid.specs.declared.image_layout.Layout.TheVariants.{VersionTwo};

use crate::{Grid, GridFault};
use octets::write_whole;
use share_store::{Share, Store};
use std::alloc::AllocError;
use std::io::Write;

/// How many calls of a writer or of a reader one image takes at most.
pub const CALL_LIMIT: u64 = 1_099_511_627_776;

/// How far an image was written.
#[derive(Clone, Copy)]
pub struct Progress {
    /// How many calls of the writer are left.
    pub calls: u64,
    /// Where the next row is to stand, in bytes from 0.
    pub place: u64,
    /// How many rows are left of those that the image's front says.
    pub left: u64,
}

impl<S: Store> Grid<S> {
    /// Writes the grid's image, in version 2: `TGRIDIM2`, the number of servers and of shares, and then each share with
    /// its server, its storage index, its number, its length and its bytes, server by server and in the order of each
    /// store. The number of shares and lengths have eight bytes and other numbers four, the highest first. Over honest
    /// stores what was written is the image of what stands, and nothing changes. Over any stores what was written is
    /// the image of some shares, of as many as its number says.
    ///
    /// The stores are gone over twice, first to count the shares and then to write them, and no more than one share's
    /// bytes are held at a time. Refused, where nothing is written while shares are counted, and afterwards a beginning
    /// of the image may have been written:
    /// - [`GridFault::Down`] exactly when that server's store failed, the first or the second time;
    /// - [`GridFault::BadImage`] for a share's number above 255, with the place of that field, in bytes from 0, or with
    ///   the place 12, and nothing written, for more shares than 64 bits count;
    /// - [`GridFault::WriteFailed`] where the writer failed or took no byte, or after 2^40 calls of it, or where the image
    ///   has more bytes than 64 bits count, or where a store, which isn't honest then, gave another number of shares
    ///   than were counted;
    /// - [`GridFault::NoMemory`].
    pub fn write_image<W: Write>(&mut self, writer: &mut W) -> Result<(), GridFault>
        ensures leaves { Leaves self.old self.new }
        ensures stamps { self.new.stamps ≡ self.old.stamps }
        ensures down { TellsDown self.old self.new result }
        ensures refusals { IfErr result IsWriteRefusal }
        ensures counted { OnOk result (WritesImage (length_of self.old.stores)
            (W.contents writer.old) (W.contents writer.new)) }

        ensures unchanged { IsHonest self.old → IsUnchanged self.old self.new }
        ensures stand_still { StandStill self.old self.new }
        ensures told { TellOn self.old self.new }
        ensures ok { IsHonest self.old →
            OnOk result (Appends (W.contents writer.old) (W.contents writer.new)
            (image (length_of self.old.stores) (rows_of (maps_of self.old)))) }
        ensures rows { IsHonest self.old →
            OnOk result (CanBeWritten VersionTwo (length_of self.old.stores) (rows_of (maps_of self.old))) }
        ensures bad_image { IsHonest self.old → (place : ℕ) →
            IsErrOf result (GridFault.BadImage place) →
            refused_place (rows_of (maps_of self.old)) ≡ Some place }
        ensures err { IsHonest self.old →
            OnErr result (WritesBeginning (image (length_of self.old.stores) (rows_of (maps_of self.old)))
            (W.contents writer.old) (W.contents writer.new)) }
    {
        let mut head = Vec::new(*self.stores.allocator());
        let shares = self.count_shares()?;
        put_image_head(&mut head, self.servers() as u32, shares)?;
        let mut progress = Progress {
            calls: CALL_LIMIT,
            place: 20,
            left: shares,
        };
        write_whole(writer, &head, &mut progress.calls)?;
        self.write_rows(writer, &mut head, &mut progress)?;
        if progress.left > 0 {
            return Err(GridFault::WriteFailed);
        }
        Ok(())
    }

    /// How many shares the stores have, together. No share is held once it was counted. Refused with
    /// [`GridFault::BadImage`] where 64 bits don't count them.
    fn count_shares(&mut self) -> Result<u64, GridFault>
        ensures leaves { Leaves self.old self.new }
        ensures stamps { self.new.stamps ≡ self.old.stamps }
        ensures down { TellsDown self.old self.new result }
        ensures refusals { IfErr result IsWriteRefusal }
        ensures unchanged { IsHonest self.old → IsUnchanged self.old self.new }
        ensures stand_still { StandStill self.old self.new }
        ensures told { TellOn self.old self.new }
        ensures bad_image { IsHonest self.old → (place : ℕ) →
            IsErrOf result (GridFault.BadImage place) →
            refused_place (rows_of (maps_of self.old)) ≡ Some place }
        ensures found { IsHonest self.old →
            IfOk result (λ count. count ≡ length_of (rows_of (maps_of self.old))) }
    {
        let mut count: u64 = 0;
        for server in 0..self.servers() {
            let here = self.count_at(server)?;
            let Some(more) = count.checked_add(here) else {
                return Err(GridFault::BadImage(12));
            };
            count = more;
        }
        Ok(count)
    }

    /// How many shares one server's store has.
    fn count_at(&mut self, server: usize) -> Result<u64, GridFault>
        requires { server < length_of self.old.stores }
        ensures leaves { Leaves self.old self.new }
        ensures stamps { self.new.stamps ≡ self.old.stamps }
        ensures down { TellsDown self.old self.new result }
        ensures refusals { IfErr result IsLookRefusal }
        ensures unchanged { IsHonest self.old → IsUnchanged self.old self.new }
        ensures stand_still { StandStill self.old self.new }
        ensures told { TellOn self.old self.new }
        ensures found { IsHonest self.old →
            IfOk result (λ count. count ≡ length_of (entries_at (maps_of self.old) server)) }
    {
        for at in 0..u64::MAX {
            match self.share_at(server, at)? {
                None => return Ok(at),
                Some(_counted) => {}
            }
        }
        Ok(u64::MAX)
    }

    /// Writes each share's row: server by server, in the order of each store, each as soon as it was read.
    fn write_rows<W: Write>(
        &mut self,
        writer: &mut W,
        head: &mut Vec<u8>,
        progress: &mut Progress,
    ) -> Result<(), GridFault>
        ensures leaves { Leaves self.old self.new }
        ensures stamps { self.new.stamps ≡ self.old.stamps }
        ensures down { TellsDown self.old self.new result }
        ensures refusals { IfErr result IsWriteRefusal }
        ensures unchanged { IsHonest self.old → IsUnchanged self.old self.new }
        ensures stand_still { StandStill self.old self.new }
        ensures told { TellOn self.old self.new }
        ensures ok { OnOk result ((rows : List Row)
            × AreWritten progress.old progress.new (W.contents writer.old) (W.contents writer.new) rows
            × (IsHonest self.old → rows ≡ rows_of (maps_of self.old))) }
        ensures bad_image { IsHonest self.old → (place : ℕ) →
            IsErrOf result (GridFault.BadImage place) →
            refused_field progress.old.place (rows_of (maps_of self.old)) ≡ Some place }
        ensures err { IsHonest self.old → OnErr result (WritesBeginning
            (flat_map (row_bytes VersionTwo) (rows_of (maps_of self.old)))
            (W.contents writer.old) (W.contents writer.new)) }
    {
        for server in 0..self.servers() {
            self.write_server(writer, head, progress, server)?;
        }
        Ok(())
    }

    /// Writes the rows of one server's shares.
    fn write_server<W: Write>(
        &mut self,
        writer: &mut W,
        head: &mut Vec<u8>,
        progress: &mut Progress,
        server: usize,
    ) -> Result<(), GridFault>
        requires some { server < length_of self.old.stores }
        requires small { server < 256 }
        ensures leaves { Leaves self.old self.new }
        ensures stamps { self.new.stamps ≡ self.old.stamps }
        ensures down { TellsDown self.old self.new result }
        ensures refusals { IfErr result IsWriteRefusal }
        ensures unchanged { IsHonest self.old → IsUnchanged self.old self.new }
        ensures stand_still { StandStill self.old self.new }
        ensures told { TellOn self.old self.new }
        ensures ok { OnOk result ((rows : List Row)
            × AreWritten progress.old progress.new (W.contents writer.old) (W.contents writer.new) rows
            × (IsHonest self.old → rows ≡ rows_at (maps_of self.old) server)) }
        ensures bad_image { IsHonest self.old → (place : ℕ) →
            IsErrOf result (GridFault.BadImage place) → (more : List Row) →
            refused_field progress.old.place (rows_at (maps_of self.old) server ++ more) ≡ Some place }
        ensures err { IsHonest self.old → OnErr result (WritesBeginning
            (flat_map (row_bytes VersionTwo) (rows_at (maps_of self.old) server))
            (W.contents writer.old) (W.contents writer.new)) }
    {
        for at in 0..u64::MAX {
            match self.share_at(server, at)? {
                None => return Ok(()),
                Some(share) => write_row(writer, head, progress, server as u32, &share)?,
            }
        }
        Ok(())
    }

    /// The share at a place of one server's store.
    fn share_at(&mut self, server: usize, at: u64) -> Result<Option<Share>, GridFault>
        requires { server < length_of self.old.stores }
        ensures leaves { Leaves self.old self.new }
        ensures stamps { self.new.stamps ≡ self.old.stamps }
        ensures down { TellsDown self.old self.new result }
        ensures refusals { IfErr result IsLookRefusal }
        ensures unchanged { IsHonest self.old → IsUnchanged self.old self.new }
        ensures stand_still { StandStill self.old self.new }
        ensures told { TellOn self.old self.new }
        ensures few { IsHonest self.old →
            length_of (entries_at (maps_of self.old) server) < 2 ^ 64 }
        ensures found { IsHonest self.old → IfOk result (λ share. option_map entry_of share
            ≡ slice_get (entries_at (maps_of self.old) server) at) }
    {
        let store = &mut self.stores[server];
        let failures = store.failures();
        let share = store.nth(at)?;
        if store.failures() > failures {
            return Err(GridFault::Down(server));
        }
        Ok(share)
    }
}

/// Writes one share's row, where one is left to be written.
fn write_row<W: Write>(
    writer: &mut W,
    head: &mut Vec<u8>,
    progress: &mut Progress,
    server: u32,
    share: &Share,
) -> Result<(), GridFault>
    ensures refusals { IfErr result IsWriteRefusal }
    ensures not_down { (s : ℕ) → IsErrOf result (GridFault.Down s) → ⊥ }
    ensures ok { OnOk result (AreWritten progress.old progress.new
        (W.contents writer.old) (W.contents writer.new) (row_of (server, share.now) ∷ [])) }
    ensures bad_image { (place : ℕ) → IsErrOf result (GridFault.BadImage place) →
        (more : List Row) →
        refused_field progress.old.place (row_of (server, share.now) ∷ more) ≡ Some place }
    ensures err { OnErr result (WritesBeginning (row_bytes VersionTwo (row_of (server, share.now)))
        (W.contents writer.old) (W.contents writer.new)) }
{
    let length = share.bytes.len() as u64;
    if progress.left == 0 {
        return Err(GridFault::WriteFailed);
    }
    let Some(bytes_place) = progress.place.checked_add(32) else {
        return Err(GridFault::WriteFailed);
    };
    if share.number > 255 {
        return Err(GridFault::BadImage(progress.place + 20));
    }
    let Some(next) = bytes_place.checked_add(length) else {
        return Err(GridFault::WriteFailed);
    };
    put_row_head(head, server, share, length)?;
    write_whole(writer, head, &mut progress.calls)?;
    write_whole(writer, share.bytes.as_slice(), &mut progress.calls)?;
    progress.place = next;
    progress.left -= 1;
    Ok(())
}

/// Makes the bytes at the front of an image.
fn put_image_head(head: &mut Vec<u8>, servers: u32, count: u64) -> Result<(), AllocError>
    ensures { OnOk result (head.new.items ≡ image_head VersionTwo servers count) }
{
    head.clear();
    head.extend_from_slice(b"TGRIDIM2")?;
    head.extend_from_slice(&four_bytes(servers))?;
    head.extend_from_slice(&eight_bytes(count))
}

/// Makes the bytes before a share's own.
fn put_row_head(
    head: &mut Vec<u8>,
    server: u32,
    share: &Share,
    length: u64,
) -> Result<(), AllocError>
    requires { length ≡ length_of (rc_slice_items share.now.bytes) }
    ensures items { OnOk result (head.new.items ≡ row_head VersionTwo (row_of (server, share.now))) }
    ensures sized { OnOk result (length_of share.now.index ≡ 16) }
{
    head.clear();
    head.extend_from_slice(&four_bytes(server))?;
    head.extend_from_slice(&share.index)?;
    head.extend_from_slice(&four_bytes(u32::from(share.number)))?;
    head.extend_from_slice(&eight_bytes(length))
}

/// A number in four bytes, the highest first.
fn four_bytes(number: u32) -> [u8; 4]
    ensures { result ≡ be32 number }
{
    number.to_be_bytes()
}

/// A number in eight bytes, the highest first.
fn eight_bytes(number: u64) -> [u8; 8]
    ensures { result ≡ be64 number }
{
    number.to_be_bytes()
}
