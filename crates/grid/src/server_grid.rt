//! A grid of stores.
ghost use Rattle.std.specs.Prelude.{◌≡◌, ◌<◌, ◌≤◌, ◌↔◌, ◌⊎◌, Err, ◌++◌, ℕ, [], length, map, All, IfOk, IfErr, OnOk, OnErr, IsErrOf, None, Some, is_some, nat_lt, unwrap_or, vec_len, IsTrue, slice_get};
ghost use Rattle.std.specs.Rc.{rc_slice_items};
ghost use Rattle.std.specs.FinMap as finite;
ghost use Rattle.share_store.specs.Looked.{Looked};
ghost use Rattle.share_store.specs.NumberedShares.{AllBut, below_limit, numbered_bytes};
ghost use Rattle.share_store.specs.Put.{put_once};
ghost use Rattle.share_store.specs.Shared.{IsShared, SeesAmid, TellsOn};
ghost use Rattle.share_store.specs.Stored.{entry_of};
ghost use Rattle.grid.specs.GridState.{states, stores_seen, maps_of, stood, room_at, held_at, size_at, failures_at, failures_in, raised_at, IsHonest, NoneFailed};
ghost use Rattle.grid.specs.Stamps.{raised, stamp_of};
ghost use Rattle.grid.specs.Stamped.{IsStamped, MayRaise};
ghost use Rattle.grid.specs.Leaves.{Leaves, TellsDown, IsUnchanged, HoldsAsBefore};
ghost use Rattle.grid.specs.Histories.{TellsOfChange};
ghost use Rattle.grid.specs.Changes.{put_at, without, spoiled};
ghost use Rattle.grid.specs.Placement.{placed, server_of};
ghost use Rattle.grid.specs.Changed.{ArePut, PutStopsAt, IsLost, IsSpoiled};
ghost use Rattle.grid.specs.NewBytes.{HasRoom};
ghost use Rattle.grid.specs.Refusals.{IsPutRefusal, IsChangeRefusal};
ghost use Rattle.grid.specs.Found.{entries_at, found_in, found_below, found_bytes, found_place, of_server};
ghost use Rattle.grid.specs.OneStore.{IsPutHere};
ghost use Rattle.grid.specs.Views.{AllTell, EachStore, KeepsShares, Sees, SomeStood, StandStill, TellOn};

use crate::GridFault;
use crate::counts::Counts;
use crate::fault::answer_of;
use share_store::laws::size_laws;
use share_store::{MemStore, Store};
use std::alloc::AllocError;
use std::marker::Model;
use std::rc::RcSlice;

/// Servers with a store each, 1 to 256. A server is named by its place among them, from 0. Contracts see a state for
/// each server: what stands there, its room, what it holds, its count of failures, whether its store is honest, and what
/// it tells of its past.
#[derive(Drop)]
pub struct Grid<S: Store> {
    /// The stores, in the order of the servers.
    pub(crate) stores: Vec<S>,
    /// How often what stands under each storage index may have changed.
    pub(crate) counts: Counts,
}

impl<S: Store> Model for Grid<S> {
    ghost use Rattle.std.specs.Prelude.{◌<◌, ◌≤◌, vec_len};
    ghost use Rattle.grid.specs.GridState.{GridState, grid_code, stores_seen};

    ghost Value = { GridState };

    ghost coded = { grid_code };

    ghost view = { λ grid. record {
      stores = stores_seen S.shares S.room S.held S.failures S.honest S.history grid.stores.items;
      stamps = grid.counts;
    } };

    ghost invariant = { λ grid. (0 < vec_len grid.stores) × (vec_len grid.stores ≤ 256) };
}

impl<S: Store> Grid<S> {
    /// A grid of these stores, 1 to 256.
    pub fn new(stores: Vec<S>) -> Self
        requires some { 0 < vec_len stores }
        requires few { vec_len stores ≤ 256 }
        ensures { result ≡ states S.shares S.room S.held S.failures S.honest S.history stores.items }
    {
        let counts = Counts::new(*stores.allocator());
        Grid { stores, counts }
    }

    /// How many servers there are, 1 to 256. No memory is taken.
    pub fn servers(&self) -> usize
        ensures servers { result ≡ length self.now.stores }
        ensures some { 0 < length self.now.stores }
        ensures few { length self.now.stores ≤ 256 }
    {
        self.stores.len()
    }

    /// The stores, in the order of the servers, to look at the room of each, what it holds and how often it failed.
    pub fn stores(&self) -> &[S]
        ensures { stores_seen S.shares S.room S.held S.failures S.honest S.history result.now ≡ self.now.stores }
    {
        &self.stores
    }

    /// Puts the shares of a file, at most 256 and none of them empty: share i as number i at server
    /// (last byte of `index` + i) modulo the number of servers. A share that stands is kept as it is.
    ///
    /// Where it isn't refused, a share stood at the place of each of them at some moment of the call, also over stores
    /// that others change.
    ///
    /// It stops at the first share that is refused, and over honest stores exactly those before it were put:
    /// [`GridFault::Full`] only where that share is longer than the room of its server's store and, over honest
    /// stores, none stands there, [`GridFault::Down`] exactly when that store failed, or [`GridFault::NoMemory`].
    pub fn put_all(&mut self, index: [u8; 16], shares: &[RcSlice<u8>]) -> Result<(), GridFault>
        requires few { length shares.now ≤ 256 }
        requires some { All (λ share. 0 < length (rc_slice_items share)) shares.now }
        ensures leaves { Leaves self.old self.new }
        ensures stamped { IsStamped self.old self.new }
        ensures raised { 0 < length shares.now →
            OnOk result (self.new.stamps ≡ raised index self.old.stamps) }
        ensures may_raise { MayRaise index self.old self.new ((result ≡ Err GridFault.NoMemory)
            ⊎ (shares.now ≡ [])) }
        ensures down { TellsDown self.old self.new result }
        ensures ok { IsHonest self.old →
            OnOk result (ArePut index (map rc_slice_items shares.now) self.old self.new) }
        ensures err { IfErr result
            (PutStopsAt index (map rc_slice_items shares.now) self.old self.new) }
        // Refused or not, a crash in the call leaves at each place what stood there or the share that goes there.
        ensures history { IsHonest self.old → TellsOfChange (placed (length self.old.stores) index
            (map rc_slice_items shares.now) (stood self.old)) self.old self.new }
        ensures never_full { IsHonest self.old →
            HasRoom self.old index (map rc_slice_items shares.now) →
            (s : ℕ) → IsErrOf result (GridFault.Full s) → ⊥ }
        ensures told { TellOn self.old self.new }
        ensures stood { AllTell self.old → OnOk result ((i : ℕ) → i < length shares.now →
            SomeStood self.old self.new (server_of (length self.old.stores) index i) (index, i)) }
    {
        if shares.len() == 0 {
            return Ok(());
        }
        self.raise(index)?;
        self.put_each(index, shares)
    }

    /// Takes a share away, and answers `true`. `false` where none stood.
    ///
    /// Refused, with nothing changed: [`GridFault::NoServer`] exactly when there is no such server,
    /// [`GridFault::Down`] exactly when its store failed, or [`GridFault::NoMemory`].
    pub fn lose(&mut self, server: usize, index: [u8; 16], number: u16) -> Result<bool, GridFault>
        ensures leaves { Leaves self.old self.new }
        ensures stamped { IsStamped self.old self.new }
        ensures raised { OnOk result (self.new.stamps ≡ raised index self.old.stamps) }
        ensures may_raise { MayRaise index self.old self.new ((result ≡ Err GridFault.NoServer)
            ⊎ (result ≡ Err GridFault.NoMemory)) }
        ensures nothing_there { IsErrOf result GridFault.NoServer → self.new ≡ self.old }
        ensures down { TellsDown self.old self.new result }
        ensures refusals { IfErr result IsChangeRefusal }
        ensures no_server { IsErrOf result GridFault.NoServer ↔ (length self.old.stores ≤ server) }

        ensures lost { IsHonest self.old →
            IfOk result (λ lost. lost ≡ is_some (stood self.old server (index, number))) }
        ensures ok { IsHonest self.old →
            OnOk result (IsLost server (index, number) self.old self.new) }
        ensures err { IsHonest self.old → OnErr result (HoldsAsBefore self.old self.new) }
        ensures history { IsHonest self.old → TellsOfChange
            (without server (index, number) (stood self.old)) self.old self.new }
        ensures told { TellOn self.old self.new }
    {
        if server >= self.stores.len() {
            return Err(GridFault::NoServer);
        }
        self.raise(index)?;
        self.lose_at(server, index, number)
    }

    /// Changes the lowest bit of one byte of a share, the byte at `place` from 0, and answers `true`. `false` where
    /// there is no such byte.
    ///
    /// Refused, with nothing changed: [`GridFault::NoServer`] exactly when there is no such server,
    /// [`GridFault::Down`] exactly when its store failed, or [`GridFault::NoMemory`].
    pub fn spoil(
        &mut self,
        server: usize,
        index: [u8; 16],
        number: u16,
        place: u64,
    ) -> Result<bool, GridFault>
        ensures leaves { Leaves self.old self.new }
        ensures stamped { IsStamped self.old self.new }
        ensures raised { OnOk result (self.new.stamps ≡ raised index self.old.stamps) }
        ensures may_raise { MayRaise index self.old self.new ((result ≡ Err GridFault.NoServer)
            ⊎ (result ≡ Err GridFault.NoMemory)) }
        ensures nothing_there { IsErrOf result GridFault.NoServer → self.new ≡ self.old }
        ensures down { TellsDown self.old self.new result }
        ensures refusals { IfErr result IsChangeRefusal }
        ensures no_server { IsErrOf result GridFault.NoServer ↔ (length self.old.stores ≤ server) }

        ensures toggled { IsHonest self.old → IfOk result (λ toggled. toggled
            ≡ nat_lt place (length (unwrap_or (stood self.old server (index, number)) []))) }
        ensures ok { IsHonest self.old →
            OnOk result (IsSpoiled server (index, number) place self.old self.new) }
        ensures err { IsHonest self.old → OnErr result (HoldsAsBefore self.old self.new) }
        ensures history { IsHonest self.old → TellsOfChange
            (spoiled server (index, number) place (stood self.old)) self.old self.new }
        ensures told { TellOn self.old self.new }
    {
        if server >= self.stores.len() {
            return Err(GridFault::NoServer);
        }
        self.raise(index)?;
        self.spoil_at(server, index, number, place)
    }

    /// A number that tells whether what stands under a storage index may have changed: the stamp of each index is 0 at
    /// first, and [`Grid::put_all`], [`Grid::lose`] and [`Grid::spoil`] raise it before they ask a store. Where it is what it
    /// was, nothing that stands there has changed since. None where 64 bits no longer count it. No memory is taken.
    pub fn stamp(&self, index: &[u8; 16]) -> Option<u64>
        ensures { result ≡ stamp_of (raised_at self.now index.now) }
    {
        match self.counts.count(index) {
            u64::MAX => None,
            count => Some(count),
        }
    }

    /// How often the stores have failed, together.
    pub fn failures(&self) -> u128
        ensures { result ≡ failures_in self.now }
    {
        let mut failures = 0;
        for store in &self.stores {
            failures += u128::from(store.failures());
        }
        failures
    }

    /// A law and no more: over honest stores what each server's store says that it holds is how many bytes the shares
    /// have that stand there. By `leaves` of each call its room and these keep their sum. It takes no memory and does
    /// nothing.
    pub fn held_is_what_stands(&self)
        ensures { IsHonest self.now → (s : ℕ) → held_at self.now s ≡ size_at self.now s }
    {
        let _stores = &self.stores;
    }

    /// Raises the stamp of a storage index. Where memory is refused nothing changes.
    fn raise(&mut self, index: [u8; 16]) -> Result<(), AllocError>
        ensures ok { OnOk result (self.new
            ≡ record { stores = self.old.stores; stamps = raised index self.old.stamps }) }
        ensures err { OnErr result (self.new ≡ self.old) }
    {
        self.counts.raise(index)
    }

    /// Puts the shares of a file, one after the other. No stamp is raised.
    fn put_each(&mut self, index: [u8; 16], shares: &[RcSlice<u8>]) -> Result<(), GridFault>
        requires few { length shares.now ≤ 256 }
        requires some { All (λ share. 0 < length (rc_slice_items share)) shares.now }
        ensures leaves { Leaves self.old self.new }
        ensures stamps { self.new.stamps ≡ self.old.stamps }
        ensures down { TellsDown self.old self.new result }
        ensures ok { IsHonest self.old →
            OnOk result (ArePut index (map rc_slice_items shares.now) self.old self.new) }
        ensures err { IfErr result
            (PutStopsAt index (map rc_slice_items shares.now) self.old self.new) }
        ensures history { IsHonest self.old → TellsOfChange (placed (length self.old.stores) index
            (map rc_slice_items shares.now) (stood self.old)) self.old self.new }
        ensures never_full { IsHonest self.old →
            HasRoom self.old index (map rc_slice_items shares.now) →
            (s : ℕ) → IsErrOf result (GridFault.Full s) → ⊥ }
        ensures told { TellOn self.old self.new }
        ensures stood { AllTell self.old → OnOk result ((i : ℕ) → i < length shares.now →
            SomeStood self.old self.new (server_of (length self.old.stores) index i) (index, i)) }
    {
        let servers = self.servers();
        for (i, share) in shares.iter().enumerate() {
            let server = (usize::from(index[15]) + i) % servers;
            let _put = self.put_one(server, index, i as u16, share.clone()?)?;
        }
        Ok(())
    }

    /// Takes a share away. No stamp is raised.
    fn lose_at(&mut self, server: usize, index: [u8; 16], number: u16) -> Result<bool, GridFault>
        ensures leaves { Leaves self.old self.new }
        ensures stamps { self.new.stamps ≡ self.old.stamps }
        ensures down { TellsDown self.old self.new result }
        ensures refusals { IfErr result IsChangeRefusal }
        ensures no_server { IsErrOf result GridFault.NoServer ↔ (length self.old.stores ≤ server) }

        ensures lost { IsHonest self.old →
            IfOk result (λ lost. lost ≡ is_some (stood self.old server (index, number))) }
        ensures ok { IsHonest self.old →
            OnOk result (IsLost server (index, number) self.old self.new) }
        ensures err { IsHonest self.old → OnErr result (HoldsAsBefore self.old self.new) }
        ensures history { IsHonest self.old → TellsOfChange
            (without server (index, number) (stood self.old)) self.old self.new }
        ensures told { TellOn self.old self.new }
    {
        size_laws();
        if server >= self.stores.len() {
            return Err(GridFault::NoServer);
        }
        answer_of(server, self.stores[server].lose(index, number))
    }

    /// Changes the lowest bit of one byte of a share. No stamp is raised.
    fn spoil_at(
        &mut self,
        server: usize,
        index: [u8; 16],
        number: u16,
        place: u64,
    ) -> Result<bool, GridFault>
        ensures leaves { Leaves self.old self.new }
        ensures stamps { self.new.stamps ≡ self.old.stamps }
        ensures down { TellsDown self.old self.new result }
        ensures refusals { IfErr result IsChangeRefusal }
        ensures no_server { IsErrOf result GridFault.NoServer ↔ (length self.old.stores ≤ server) }

        ensures toggled { IsHonest self.old → IfOk result (λ toggled. toggled
            ≡ nat_lt place (length (unwrap_or (stood self.old server (index, number)) []))) }
        ensures ok { IsHonest self.old →
            OnOk result (IsSpoiled server (index, number) place self.old self.new) }
        ensures err { IsHonest self.old → OnErr result (HoldsAsBefore self.old self.new) }
        ensures history { IsHonest self.old → TellsOfChange
            (spoiled server (index, number) place (stood self.old)) self.old self.new }
        ensures told { TellOn self.old self.new }
    {
        size_laws();
        if server >= self.stores.len() {
            return Err(GridFault::NoServer);
        }
        answer_of(server, self.stores[server].toggle(index, number, place))
    }

    /// Each share that stands under a storage index, with its server and its number: server by server, in the order
    /// of the numbers. Bytes are lent without a copy. Over honest stores nothing else is given, and nothing is left
    /// out but shares of servers whose store failed in the call. The same holds of what is seen of stores that others
    /// change, each place at some moment of the call. Refused where there was no memory for the list.
    pub fn gather(&mut self, index: [u8; 16]) -> Result<Vec<(usize, u16, RcSlice<u8>)>, AllocError>
        ensures leaves { Leaves self.old self.new }
        ensures stamps { self.new.stamps ≡ self.old.stamps }
        ensures unchanged { IsHonest self.old → IsUnchanged self.old self.new }
        ensures stand_still { StandStill self.old self.new }
        ensures told { TellOn self.old self.new }
        ensures found { IsHonest self.old → IfOk result (λ found.
            AllBut (λ f. failures_at self.old f.0 < failures_at self.new f.0)
            (found_below (maps_of self.old) index (length self.old.stores))
            (map (found_bytes rc_slice_items) found.items)) }
        ensures all { IsHonest self.old → NoneFailed self.old self.new → IfOk result (λ found.
            map (found_bytes rc_slice_items) found.items
            ≡ found_below (maps_of self.old) index (length self.old.stores)) }
        ensures stands { IsHonest self.old → IfOk result (λ found.
            All (λ f. stood self.old f.0 (index, f.1) ≡ Some f.2)
            (map (found_bytes rc_slice_items) found.items)) }
        ensures seen { AllTell self.old → IfOk result (λ found. Sees self.old self.new (λ views.
            AllBut (λ f. failures_at self.old f.0 < failures_at self.new f.0)
            (found_below views index (length self.old.stores))
            (map (found_bytes rc_slice_items) found.items))) }
    {
        self.gather_within(index, None)
    }

    /// The same of the shares whose numbers are below a limit. No store is asked for the bytes of another.
    pub fn gather_below(
        &mut self,
        index: [u8; 16],
        limit: u16,
    ) -> Result<Vec<(usize, u16, RcSlice<u8>)>, AllocError>
        ensures leaves { Leaves self.old self.new }
        ensures stamps { self.new.stamps ≡ self.old.stamps }
        ensures unchanged { IsHonest self.old → IsUnchanged self.old self.new }
        ensures stand_still { StandStill self.old self.new }
        ensures told { TellOn self.old self.new }
        ensures found { IsHonest self.old → IfOk result (λ found.
            AllBut (λ f. failures_at self.old f.0 < failures_at self.new f.0)
            (below_limit (λ f. f.1) (Some limit)
            (found_below (maps_of self.old) index (length self.old.stores)))
            (map (found_bytes rc_slice_items) found.items)) }
        ensures all { IsHonest self.old → NoneFailed self.old self.new → IfOk result (λ found.
            map (found_bytes rc_slice_items) found.items
            ≡ below_limit (λ f. f.1) (Some limit)
            (found_below (maps_of self.old) index (length self.old.stores))) }
        ensures stands { IsHonest self.old → IfOk result (λ found.
            All (λ f. stood self.old f.0 (index, f.1) ≡ Some f.2)
            (map (found_bytes rc_slice_items) found.items)) }
        ensures seen { AllTell self.old → IfOk result (λ found. Sees self.old self.new (λ views.
            AllBut (λ f. failures_at self.old f.0 < failures_at self.new f.0)
            (below_limit (λ f. f.1) (Some limit)
            (found_below views index (length self.old.stores)))
            (map (found_bytes rc_slice_items) found.items))) }
    {
        self.gather_within(index, Some(limit))
    }

    /// The shares of the numbers below a limit that stores have in memory, each with its server and number: a guess of what
    /// [`Grid::gather_below`] will give, with which work on them can begin before. Nothing is promised of it. Refused where
    /// there was no memory for the list.
    pub fn peek_below(
        &self,
        index: [u8; 16],
        limit: u16,
    ) -> Result<Vec<(usize, u16, RcSlice<u8>)>, AllocError> {
        let mut found = Vec::new(*self.stores.allocator());
        for (server, store) in self.stores.iter().enumerate() {
            for number in 0..limit {
                if let Some(bytes) = store.peek(index, number) {
                    found.push((server, number, bytes))?;
                }
            }
        }
        Ok(found)
    }

    /// Where shares stand under a storage index: the server and the number of each, server by server, in the order of
    /// the numbers. No store is asked for bytes. Over honest stores these are the places of shares that stand, and none
    /// is left out but those at servers whose store failed in the call. The same holds of what is seen of stores that
    /// others change, each place at some moment of the call. Refused where there was no memory for them.
    pub fn places(&mut self, index: [u8; 16]) -> Result<Vec<(usize, u16)>, AllocError>
        ensures leaves { Leaves self.old self.new }
        ensures stamps { self.new.stamps ≡ self.old.stamps }
        ensures unchanged { IsHonest self.old → IsUnchanged self.old self.new }
        ensures stand_still { StandStill self.old self.new }
        ensures told { TellOn self.old self.new }
        ensures found { IsHonest self.old → IfOk result (λ places. (given : _)
            × (places.items ≡ map found_place given)
            × AllBut (λ f. failures_at self.old f.0 < failures_at self.new f.0)
            (found_below (maps_of self.old) index (length self.old.stores)) given) }
        ensures all { IsHonest self.old → NoneFailed self.old self.new → IfOk result (λ places.
            places.items
            ≡ map found_place (found_below (maps_of self.old) index (length self.old.stores))) }
        ensures seen { AllTell self.old → IfOk result (λ places. (given : _)
            × (places.items ≡ map found_place given) × Sees self.old self.new (λ views.
            AllBut (λ f. failures_at self.old f.0 < failures_at self.new f.0)
            (found_below views index (length self.old.stores)) given)) }
    {
        let mut places = Vec::new(*self.stores.allocator());
        for server in 0..self.servers() {
            self.places_at(server, index, &mut places)?;
        }
        Ok(places)
    }

    /// Adds the places under a storage index at one server.
    fn places_at(
        &mut self,
        server: usize,
        index: [u8; 16],
        places: &mut Vec<(usize, u16)>,
    ) -> Result<(), AllocError>
        requires { server < length self.old.stores }
        ensures leaves { Leaves self.old self.new }
        ensures stamps { self.new.stamps ≡ self.old.stamps }
        ensures unchanged { IsHonest self.old → IsUnchanged self.old self.new }
        ensures stand_still { StandStill self.old self.new }
        ensures told { TellOn self.old self.new }
        ensures found { IsHonest self.old → OnOk result ((given : _)
            × (places.new.items ≡ places.old.items ++ map found_place given)
            × AllBut (λ f. failures_at self.old f.0 < failures_at self.new f.0)
            (found_in server index (entries_at (maps_of self.old) server)) given) }
        ensures seen { AllTell self.old → OnOk result ((given : _)
            × (places.new.items ≡ places.old.items ++ map found_place given)
            × Sees self.old self.new (λ views.
            AllBut (λ f. failures_at self.old f.0 < failures_at self.new f.0)
            (found_in server index (entries_at views server)) given)) }
    {
        places_in(&mut self.stores[server], server, index, places)
    }

    /// Tells every store what it will be asked for, below the limit if there is one, so that those on other machines
    /// have it come at the same time.
    fn prefetch_all(&mut self, index: [u8; 16], limit: Option<u16>)
        ensures leaves { Leaves self.old self.new }
        ensures stamps { self.new.stamps ≡ self.old.stamps }
        ensures unchanged { IsHonest self.old → IsUnchanged self.old self.new }
        ensures stand_still { StandStill self.old self.new }
        ensures told { TellOn self.old self.new }
    {
        for server in 0..self.servers() {
            self.prefetch_at(server, index, limit);
        }
    }

    /// Tells one server's store what it will be asked for.
    fn prefetch_at(&mut self, server: usize, index: [u8; 16], limit: Option<u16>)
        requires { server < length self.old.stores }
        ensures leaves { Leaves self.old self.new }
        ensures stamps { self.new.stamps ≡ self.old.stamps }
        ensures unchanged { IsHonest self.old → IsUnchanged self.old self.new }
        ensures stand_still { StandStill self.old self.new }
        ensures told { TellOn self.old self.new }
    {
        self.stores[server].prefetch(index, limit);
    }

    /// The same as [`Grid::gather`], where there may be a limit. Every store is told before the first is asked.
    fn gather_within(
        &mut self,
        index: [u8; 16],
        limit: Option<u16>,
    ) -> Result<Vec<(usize, u16, RcSlice<u8>)>, AllocError>
        ensures leaves { Leaves self.old self.new }
        ensures stamps { self.new.stamps ≡ self.old.stamps }
        ensures unchanged { IsHonest self.old → IsUnchanged self.old self.new }
        ensures stand_still { StandStill self.old self.new }
        ensures told { TellOn self.old self.new }
        ensures found { IsHonest self.old → IfOk result (λ found.
            AllBut (λ f. failures_at self.old f.0 < failures_at self.new f.0)
            (below_limit (λ f. f.1) limit
            (found_below (maps_of self.old) index (length self.old.stores)))
            (map (found_bytes rc_slice_items) found.items)) }
        ensures all { IsHonest self.old → NoneFailed self.old self.new → IfOk result (λ found.
            map (found_bytes rc_slice_items) found.items
            ≡ below_limit (λ f. f.1) limit
            (found_below (maps_of self.old) index (length self.old.stores))) }
        ensures stands { IsHonest self.old → IfOk result (λ found.
            All (λ f. stood self.old f.0 (index, f.1) ≡ Some f.2)
            (map (found_bytes rc_slice_items) found.items)) }
        ensures seen { AllTell self.old → IfOk result (λ found. Sees self.old self.new (λ views.
            AllBut (λ f. failures_at self.old f.0 < failures_at self.new f.0)
            (below_limit (λ f. f.1) limit
            (found_below views index (length self.old.stores)))
            (map (found_bytes rc_slice_items) found.items))) }
    {
        self.prefetch_all(index, limit);
        let mut found = Vec::new(*self.stores.allocator());
        for server in 0..self.servers() {
            self.gather_at(server, index, limit, &mut found)?;
        }
        Ok(found)
    }

    /// Adds what stands under a storage index at one server, below the limit if there is one.
    fn gather_at(
        &mut self,
        server: usize,
        index: [u8; 16],
        limit: Option<u16>,
        found: &mut Vec<(usize, u16, RcSlice<u8>)>,
    ) -> Result<(), AllocError>
        requires { server < length self.old.stores }
        ensures leaves { Leaves self.old self.new }
        ensures stamps { self.new.stamps ≡ self.old.stamps }
        ensures unchanged { IsHonest self.old → IsUnchanged self.old self.new }
        ensures stand_still { StandStill self.old self.new }
        ensures told { TellOn self.old self.new }
        ensures found { IsHonest self.old → OnOk result ((given : _)
            × (map (found_bytes rc_slice_items) found.new.items
            ≡ map (found_bytes rc_slice_items) found.old.items ++ given)
            × AllBut (λ f. failures_at self.old f.0 < failures_at self.new f.0)
            (below_limit (λ f. f.1) limit
            (found_in server index (entries_at (maps_of self.old) server))) given) }
        ensures seen { AllTell self.old → OnOk result ((given : _)
            × (map (found_bytes rc_slice_items) found.new.items
            ≡ map (found_bytes rc_slice_items) found.old.items ++ given)
            × Sees self.old self.new (λ views.
            AllBut (λ f. failures_at self.old f.0 < failures_at self.new f.0)
            (below_limit (λ f. f.1) limit (found_in server index (entries_at views server)))
            given)) }
    {
        gather_in(&mut self.stores[server], server, index, limit, found)
    }

    /// Puts one share at a server.
    pub(crate) fn put_one(
        &mut self,
        server: usize,
        index: [u8; 16],
        number: u16,
        bytes: RcSlice<u8>,
    ) -> Result<bool, GridFault>
        requires server { server < length self.old.stores }
        requires some { 0 < length (rc_slice_items bytes) }
        ensures leaves { Leaves self.old self.new }
        ensures stamps { self.new.stamps ≡ self.old.stamps }
        ensures down { TellsDown self.old self.new result }
        ensures refusals { IfErr result IsPutRefusal }
        ensures full { (s : ℕ) → IsErrOf result (GridFault.Full s) →
            (s ≡ server) × (room_at self.new server < length (rc_slice_items bytes)) }
        ensures down_here { (s : ℕ) → IsErrOf result (GridFault.Down s) → s ≡ server }
        ensures full_only { IsHonest self.old → (s : ℕ) → IsErrOf result (GridFault.Full s) →
            stood self.new server (index, number) ≡ None }
        ensures ok { IsHonest self.old → OnOk result
            (IsPutHere server (index, number) (rc_slice_items bytes) self.old self.new) }
        ensures err { IsHonest self.old → OnErr result (HoldsAsBefore self.old self.new) }
        ensures history { IsHonest self.old → TellsOfChange
            (put_at server (index, number) (rc_slice_items bytes) (stood self.old))
            self.old self.new }
        ensures told { TellOn self.old self.new }
        ensures kept { EachStore KeepsShares self.old.stores self.new.stores }
        ensures stood { AllTell self.old →
            OnOk result (SomeStood self.old self.new server (index, number)) }
    {
        size_laws();
        answer_of(server, self.stores[server].put(index, number, bytes))
    }
}

/// Adds what stands under a storage index in one store, below the limit if there is one, as a server's.
fn gather_in<S: Store>(
    store: &mut S,
    server: usize,
    index: [u8; 16],
    limit: Option<u16>,
    found: &mut Vec<(usize, u16, RcSlice<u8>)>,
) -> Result<(), AllocError>
    ensures looked { Looked S.honest S.shares S.room S.failures store.old store.new }
    ensures same_history { IsTrue (S.honest store.old) →
        S.history store.new ≡ S.history store.old }
    ensures told { TellsOn S.honest S.history store.old store.new }
    ensures found { IsTrue (S.honest store.old) → OnOk result ((given : _)
        × (map (found_bytes rc_slice_items) found.new.items
        ≡ map (found_bytes rc_slice_items) found.old.items ++ given)
        × AllBut (λ f. (f.0 ≡ server) × (S.failures store.old < S.failures store.new))
        (below_limit (λ f. f.1) limit
        (found_in server index (finite.entries (S.shares store.old)))) given) }
    ensures seen { IsShared (S.honest store.old) (S.history store.old) →
        OnOk result ((given : _)
        × (map (found_bytes rc_slice_items) found.new.items
        ≡ map (found_bytes rc_slice_items) found.old.items ++ given)
        × SeesAmid (S.history store.old) (S.history store.new) (λ view.
        AllBut (λ f. (f.0 ≡ server) × (S.failures store.old < S.failures store.new))
        (below_limit (λ f. f.1) limit (found_in server index (finite.entries view))) given)) }
{
    let shares = store.gather(index, limit)?;
    add_shares(server, shares, found)
}

/// Adds these shares, each with its number, as a server's.
fn add_shares(
    server: usize,
    shares: Vec<(u16, RcSlice<u8>)>,
    found: &mut Vec<(usize, u16, RcSlice<u8>)>,
) -> Result<(), AllocError>
    ensures { OnOk result (map (found_bytes rc_slice_items) found.new.items
        ≡ map (found_bytes rc_slice_items) found.old.items
        ++ map (of_server server) (map (numbered_bytes rc_slice_items) shares.items)) }
{
    for (number, bytes) in shares {
        found.push((server, number, bytes))?;
    }
    Ok(())
}

/// Adds the places under a storage index in one store, as a server's.
fn places_in<S: Store>(
    store: &mut S,
    server: usize,
    index: [u8; 16],
    places: &mut Vec<(usize, u16)>,
) -> Result<(), AllocError>
    ensures looked { Looked S.honest S.shares S.room S.failures store.old store.new }
    ensures same_history { IsTrue (S.honest store.old) →
        S.history store.new ≡ S.history store.old }
    ensures told { TellsOn S.honest S.history store.old store.new }
    ensures found { IsTrue (S.honest store.old) → OnOk result ((given : _)
        × (places.new.items ≡ places.old.items ++ map found_place given)
        × AllBut (λ f. (f.0 ≡ server) × (S.failures store.old < S.failures store.new))
        (found_in server index (finite.entries (S.shares store.old))) given) }
    ensures seen { IsShared (S.honest store.old) (S.history store.old) →
        OnOk result ((given : _)
        × (places.new.items ≡ places.old.items ++ map found_place given)
        × SeesAmid (S.history store.old) (S.history store.new) (λ view.
        AllBut (λ f. (f.0 ≡ server) × (S.failures store.old < S.failures store.new))
        (found_in server index (finite.entries view)) given)) }
{
    let numbers = store.numbers(index)?;
    add_places(server, numbers, places)
}

/// Adds these numbers, as a server's.
fn add_places(
    server: usize,
    numbers: Vec<u16>,
    places: &mut Vec<(usize, u16)>,
) -> Result<(), AllocError>
    ensures { OnOk result (places.new.items
        ≡ places.old.items ++ map (λ number. (server, number)) numbers.items) }
{
    for number in numbers {
        places.push((server, number))?;
    }
    Ok(())
}

impl Grid<MemStore> {
    /// A law and no more: no store in memory has failed. It takes no memory and does nothing.
    pub fn no_store_failed(&self)
        ensures { (s : ℕ) → failures_at self.now s ≡ 0 }
    {
        let _stores = &self.stores;
    }
}
