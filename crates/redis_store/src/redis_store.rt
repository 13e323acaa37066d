//! The store.
ghost use Rattle.std.specs.FinMap as map;
ghost use Rattle.std.specs.Prelude.{◌≡◌, ◌≤◌, ◌<◌, ◌+◌, ◌↔◌, ◌∷◌, ℕ, List, Option, [], None, Some, false, true, length, All, codes, map as mapped, OnOk, OnErr, IfOk, IfErr, IfSome, IsOkAnd, IsErrOf, IsSomeAnd, IsTrue};
ghost use Rattle.std.specs.Option.{option_map};
ghost use Rattle.std.specs.Rc.{rc_slice_items};
ghost use Rattle.resp.specs.Spelled.{SpellsReply};
ghost use Rattle.share_store.specs.NumberedShares.{numbered_bytes};
ghost use Rattle.redis_store.specs.Replies.{IsErrorOf};
ghost use Rattle.redis_store.specs.Keys.{key};
ghost use Rattle.redis_store.specs.Exchanges.{short_limits, with_command};
ghost use Rattle.redis_store.specs.Ahead.{ahead, before_last};
ghost use Rattle.redis_store.specs.Answers.{SaysWhether};
ghost use Rattle.redis_store.specs.Commands.{get_command, delete_command, put_command, set_command, exists_command, exists_below, get_below, asked_below};
ghost use Rattle.resp.specs.Command.{command};
ghost use Rattle.redis_store.specs.GridText.{grid_name};
ghost use Rattle.redis_store.specs.AfterExchange.{IsErrorReply, IsLeftAfter, IsLeftInTheEnd, IsWell};
ghost use Rattle.redis_store.specs.Told.{IsAtHand, IsToldIn, IsSaidBy, AreSaidBy, IsSetBy, IsSettingSaidBy, IsShareGivenBy, AreSharesGivenBy, IsRefusedBy};
ghost use Rattle.redis_store.specs.Put.{IsPutBy, IsPutRefusedBy};

use crate::ServerFault;
use crate::answers::{
    fault_of, is_done, lent, numbers_in, said_in, setting_in, share_in, shares_in,
};
use crate::commands::{
    PUT, REPLACE, config, delete, exist_below, exists, get, get_each_below, put, put_head,
};
use crate::connection::{Connection, Greeting, SHORT};
use crate::keys::spell_key;
use crate::link::Link;
use folder_shelf::StoreSettings;
use octets::Bytes;
use resp::{Limits, Reply};
use share_store::{Share, Store, StoreFault};
use std::alloc::{AllocError, Global};
use std::rc::RcSlice;

/// How many bytes of a share are copied into its command, at most: to write so few by themselves takes longer.
const COPIED: usize = 16384;

/// What a store has to know of its server.
#[derive(Drop)]
pub struct Server {
    /// The bytes with which the names of its shares begin. All who write under such names are stores like this one.
    pub grid: Bytes,
    /// Whose the server has to be: its place, and the grid. Their text stands under the name that is `grid` and the
    /// word `grid` behind it.
    pub settings: StoreSettings,
    /// What the server wants to be told first (AUTH).
    pub password: Option<Bytes>,
    /// How many bytes a share has, at most.
    pub longest: u32,
}

/// A store of shares on a Redis server, which others may use at the same time. It has no index: each call asks the
/// server. It isn't honest, since no contract says what a server keeps, and since others put shares between two
/// calls.
pub struct RedisStore<L: Link + Drop> {
    connection: Connection<L>,
    grid: Bytes,
    longest: u32,
    failures: u64,
    last_fault: Option<ServerFault>,
}

// Its own, so that what owns one calls it: a derived drop is spelled out wherever a value may be dropped.
impl<L: Link + Drop> Drop for RedisStore<L> {
    fn drop(self) {
        let Self {
            connection: _,
            grid: _,
            longest: _,
            failures: _,
            last_fault: _,
        } = self;
    }
}

impl<L: Link + Drop> RedisStore<L> {
    /// The store on the server that this link leads to. Nothing is asked yet. Refused where memory is.
    pub fn new(alloc: Global, link: L, server: Server) -> Result<RedisStore<L>, AllocError>
        ensures link { IfOk result (λ store. store.connection.link ≡ link) }
        ensures closed { IfOk result (λ store. store.connection.is_open ≡ false) }
        ensures first { IfOk result (λ store. store.connection.first ≡ record {
          password = server.password;
          name = grid_name server.grid;
          settings = server.settings;
        }) }
        ensures rest { IfOk result (λ store.
            store.connection.rest ≡ record { seconds = 1; until = 0 }) }
        ensures grid { IfOk result (λ store. store.grid ≡ server.grid) }
        ensures longest { IfOk result (λ store. store.longest ≡ server.longest) }
        ensures failures { IfOk result (λ store. store.failures ≡ 0) }
    {
        let Server {
            grid,
            settings,
            password,
            longest,
        } = server;
        let mut name = Vec::from_slice(alloc, grid.as_slice())?;
        name.extend_from_slice(b"grid")?;
        let first = Greeting {
            password,
            name: Bytes::from_vec(name),
            settings,
        };
        Ok(RedisStore {
            connection: Connection::new(alloc, link, first),
            grid,
            longest,
            failures: 0,
            last_fault: None,
        })
    }

    /// Connects to the server where no connection is open, so that one that is down or another's is told at once.
    pub fn reach(&mut self) -> Result<(), ServerFault>
        ensures open { OnOk result (self.new.connection.is_open ≡ true) }
        ensures at_hand { OnOk result (IsAtHand self.old.connection.is_open
            self.old.connection.first (L.talk self.old.connection.link)
            (L.talk self.new.connection.link)) }
        ensures left { IfErr result (λ fault. IsLeftAfter fault self.old.connection.rest
            self.new.connection.is_open self.new.connection.rest) }
        ensures failures { self.new.failures ≡ self.old.failures }
        ensures same { (self.new.grid ≡ self.old.grid) × (self.new.longest ≡ self.old.longest)
            × (self.new.connection.first ≡ self.old.connection.first) }
    {
        self.connection.ready()
    }

    /// What the server says of a setting of its own, as `maxmemory-policy` (`CONFIG GET`). `None` where it doesn't say.
    pub fn setting(&mut self, name: &[u8]) -> Result<Option<Bytes>, ServerFault>
        ensures said { IfOk result (λ value. IfSome value (λ bytes. IsSettingSaidBy
            self.old.connection.is_open self.old.connection.first
            (L.talk self.old.connection.link) (L.talk self.new.connection.link)
            name.now bytes)) }
        ensures well { OnOk result ((self.new.connection.is_open ≡ true)
            × IsWell self.old.connection.rest self.new.connection.rest) }
        ensures left { IfErr result (λ fault. IsLeftAfter fault self.old.connection.rest
            self.new.connection.is_open self.new.connection.rest) }
        ensures failures { self.new.failures ≡ self.old.failures }
        ensures same { (self.new.grid ≡ self.old.grid) × (self.new.longest ≡ self.old.longest)
            × (self.new.connection.first ≡ self.old.connection.first) }
    {
        let alloc = self.connection.alloc;
        let command = config(alloc, name)?;
        let reply = self.connection.ask(SHORT, &[&command])?;
        let value = setting_in(alloc, &reply)?;
        self.connection.well();
        Ok(value)
    }

    /// The link to the server.
    pub fn into_link(self) -> L
        ensures { result ≡ self.connection.link }
    {
        let RedisStore {
            connection,
            grid: _,
            longest: _,
            failures: _,
            last_fault: _,
        } = self;
        connection.into_link()
    }

    /// Why the store failed when it last did.
    pub fn last_fault(&self) -> Option<ServerFault>
        ensures { result ≡ self.now.last_fault }
    {
        self.last_fault
    }

    /// Counts a failure. Where no more can be counted it is refused as one for which there was no memory.
    fn count(&mut self, fault: ServerFault) -> Result<(), AllocError>
        ensures counted { OnOk result (self.new.failures ≡ self.old.failures + 1) }
        ensures uncounted { OnErr result (self.new.failures ≡ self.old.failures) }
        ensures last_fault { self.new.last_fault ≡ Some fault }
        ensures connection { self.new.connection ≡ self.old.connection }
        ensures same { (self.new.grid ≡ self.old.grid) × (self.new.longest ≡ self.old.longest) }
    {
        self.last_fault = Some(fault);
        if self.failures == u64::MAX {
            return Err(AllocError);
        }
        self.failures += 1;
        Ok(())
    }

    /// Counts a change that is refused because the server gave no answer, and says why.
    fn refuse(&mut self, fault: ServerFault) -> StoreFault
        ensures down { (result ≡ StoreFault.Down) ↔ (self.old.failures < self.new.failures) }
        ensures rises { self.old.failures ≤ self.new.failures }
        ensures not_full { result ≡ StoreFault.Full → ⊥ }
        ensures last_fault { self.new.last_fault ≡ Some fault }
        ensures connection { self.new.connection ≡ self.old.connection }
        ensures same { (self.new.grid ≡ self.old.grid) × (self.new.longest ≡ self.old.longest) }
    {
        match self.count(fault) {
            Ok(()) => StoreFault::Down,
            Err(_) => StoreFault::NoMemory,
        }
    }

    /// The key of a share.
    fn name_of(&self, index: &[u8; 16], number: u16) -> Result<Vec<u8>, AllocError>
        ensures { IfOk result (λ name. name.items ≡ key self.now.grid index.now number) }
    {
        spell_key(self.connection.alloc, self.grid.as_slice(), index, number)
    }

    /// The bytes under the key of a share. None where the key has no bytes, which are no share's.
    fn fetch(&mut self, index: &[u8; 16], number: u16) -> Result<Option<RcSlice<u8>>, ServerFault>
        ensures given { IfOk result (λ share. IsShareGivenBy
            self.old.connection.is_open self.old.connection.first
            (L.talk self.old.connection.link) (L.talk self.new.connection.link)
            self.old.longest (get_command (key self.old.grid index.now number))
            (option_map rc_slice_items share)) }
        ensures some { IfOk result (λ share. IfSome share (λ bytes.
            0 < length (rc_slice_items bytes))) }
        ensures well { OnOk result ((self.new.connection.is_open ≡ true)
            × IsWell self.old.connection.rest self.new.connection.rest) }
        ensures left { IfErr result (λ fault. IsLeftAfter fault self.old.connection.rest
            self.new.connection.is_open self.new.connection.rest) }
        ensures same { (self.new.grid ≡ self.old.grid) × (self.new.longest ≡ self.old.longest)
            × (self.new.connection.first ≡ self.old.connection.first) }
        ensures failures { self.new.failures ≡ self.old.failures }
    {
        let name = self.name_of(index, number)?;
        let command = get(self.connection.alloc, &name)?;
        let limits = Limits {
            line: 512,
            bulk: self.longest,
            elements: 0,
        };
        let reply = self.connection.ask(limits, &[&command])?;
        match share_in(reply) {
            Ok(share) => {
                self.connection.well();
                lent(share)
            }
            Err(fault) => {
                self.connection.reject(fault);
                Err(fault)
            }
        }
    }

    /// Whether a share stands there.
    fn stands(&mut self, index: &[u8; 16], number: u16) -> Result<bool, ServerFault>
        ensures said { IfOk result (λ said. IsSaidBy
            self.old.connection.is_open self.old.connection.first
            (L.talk self.old.connection.link) (L.talk self.new.connection.link)
            (exists_command (key self.old.grid index.now number)) said) }
        ensures well { OnOk result ((self.new.connection.is_open ≡ true)
            × IsWell self.old.connection.rest self.new.connection.rest) }
        ensures left { IfErr result (λ fault. IsLeftAfter fault self.old.connection.rest
            self.new.connection.is_open self.new.connection.rest) }
        ensures same { (self.new.grid ≡ self.old.grid) × (self.new.longest ≡ self.old.longest)
            × (self.new.connection.first ≡ self.old.connection.first) }
        ensures failures { self.new.failures ≡ self.old.failures }
    {
        let name = self.name_of(index, number)?;
        let command = exists(self.connection.alloc, &name)?;
        let reply = self.connection.ask(SHORT, &[&command])?;
        self.judge(&reply)
    }

    /// The numbers of the shares that stand under an index, rising: one exchange asks for all.
    fn standing(&mut self, index: &[u8; 16]) -> Result<Vec<u16>, ServerFault>
        ensures said { IfOk result (λ numbers. AreSaidBy
            self.old.connection.is_open self.old.connection.first
            (L.talk self.old.connection.link) (L.talk self.new.connection.link)
            (exists_below self.old.grid index.now self.old.connection.first.settings.made)
            self.old.connection.first.settings.made numbers.items) }
        ensures well { OnOk result ((self.new.connection.is_open ≡ true)
            × IsWell self.old.connection.rest self.new.connection.rest) }
        ensures left { IfErr result (λ fault. IsLeftAfter fault self.old.connection.rest
            self.new.connection.is_open self.new.connection.rest) }
        ensures same { (self.new.grid ≡ self.old.grid) × (self.new.longest ≡ self.old.longest)
            × (self.new.connection.first ≡ self.old.connection.first) }
        ensures failures { self.new.failures ≡ self.old.failures }
    {
        let alloc = self.connection.alloc;
        let made = self.connection.first.settings.made;
        let commands = exist_below(alloc, self.grid.as_slice(), index, made)?;
        let replies = self.connection.ask_each(SHORT, &commands, made)?;
        match numbers_in(alloc, &replies) {
            Ok(numbers) => {
                self.connection.well();
                Ok(numbers)
            }
            Err(fault) => {
                self.connection.reject(fault);
                Err(fault)
            }
        }
    }

    /// The shares under an index whose numbers are below a limit, each with its number: one exchange asks for all, which
    /// may be begun.
    fn fetch_below(
        &mut self,
        index: &[u8; 16],
        limit: u16,
    ) -> Result<Vec<(u16, RcSlice<u8>)>, ServerFault>
        ensures given { (self.old.connection.awaited
            ≡ ahead (get_below self.old.grid index.now limit) limit → ⊥) → IfOk result (λ shares. AreSharesGivenBy
            self.old.connection.is_open self.old.connection.first
            (L.talk self.old.connection.link) (L.talk self.new.connection.link)
            self.old.longest (get_below self.old.grid index.now limit) limit
            (mapped (numbered_bytes rc_slice_items) shares.items)) }
        ensures given_ahead { self.old.connection.awaited
            ≡ ahead (get_below self.old.grid index.now limit) limit → IfOk result (λ shares. AreSharesGivenBy
            true self.old.connection.first
            (before_last (L.talk self.old.connection.link)) (L.talk self.new.connection.link)
            self.old.longest (get_below self.old.grid index.now limit) limit
            (mapped (numbered_bytes rc_slice_items) shares.items)) }
        ensures some { IfOk result (λ shares. All (λ share. 0 < length share.1)
            (mapped (numbered_bytes rc_slice_items) shares.items)) }
        ensures well { OnOk result ((self.new.connection.is_open ≡ true)
            × IsWell self.old.connection.rest self.new.connection.rest) }
        ensures left { IfErr result (λ fault. IsLeftAfter fault self.old.connection.rest
            self.new.connection.is_open self.new.connection.rest) }
        ensures same { (self.new.grid ≡ self.old.grid) × (self.new.longest ≡ self.old.longest)
            × (self.new.connection.first ≡ self.old.connection.first) }
        ensures failures { self.new.failures ≡ self.old.failures }
    {
        let alloc = self.connection.alloc;
        let commands = get_each_below(alloc, self.grid.as_slice(), index, limit)?;
        let limits = Limits {
            line: 512,
            bulk: self.longest,
            elements: 0,
        };
        let replies = self.connection.take_each(limits, &commands, limit)?;
        match shares_in(alloc, replies) {
            Ok(shares) => {
                self.connection.well();
                Ok(shares)
            }
            Err(fault) => {
                self.connection.reject(fault);
                Err(fault)
            }
        }
    }

    /// Puts a share's bytes under its key where nothing stands, and says whether it did. Where something stands it is looked
    /// at: what is other bytes than these is replaced by them, and that is a put too, since the bytes of a share follow
    /// from its place. Where the answer is lost it may be done or not, and stays so: another may have found it standing and
    /// said so.
    fn offer(&mut self, index: &[u8; 16], number: u16, share: &[u8]) -> Result<bool, ServerFault>
        ensures said { IfOk result (λ put. IsPutBy
            self.old.connection.is_open self.old.connection.first
            (L.talk self.old.connection.link) (L.talk self.new.connection.link)
            self.old.longest (key self.old.grid index.now number) share.now put) }
        ensures full { IsErrOf result ServerFault.Full → IsPutRefusedBy
            self.old.connection.is_open self.old.connection.first
            (L.talk self.old.connection.link) (L.talk self.new.connection.link)
            (key self.old.grid index.now number) share.now (codes "OOM ") }
        ensures of_grid { OnOk result ((number < self.old.connection.first.settings.made)
            × (length share.now ≤ self.old.longest)) }
        ensures well { OnOk result ((self.new.connection.is_open ≡ true)
            × IsWell self.old.connection.rest self.new.connection.rest) }
        ensures left { IfErr result (λ fault. IsLeftInTheEnd fault self.old.connection.rest
            self.new.connection.is_open self.new.connection.rest) }
        ensures same { (self.new.grid ≡ self.old.grid) × (self.new.longest ≡ self.old.longest)
            × (self.new.connection.first ≡ self.old.connection.first) }
        ensures failures { self.new.failures ≡ self.old.failures }
    {
        let made = self.connection.first.settings.made;
        if number >= made || share.len() > self.longest as usize {
            return Err(ServerFault::NoShare);
        }
        let name = self.name_of(index, number)?;
        if self.put_anew(&name, share)? {
            return Ok(true);
        }
        if self.is_there(index, number, share)? {
            return Ok(false);
        }
        self.replace(&name, share)?;
        Ok(true)
    }

    /// Whether it is a share's bytes that stand under its key.
    fn is_there(&mut self, index: &[u8; 16], number: u16, share: &[u8]) -> Result<bool, ServerFault>
        ensures given { IfOk result (λ is_there. (found : Option (List ℕ)) × IsShareGivenBy
            self.old.connection.is_open self.old.connection.first
            (L.talk self.old.connection.link) (L.talk self.new.connection.link)
            self.old.longest (get_command (key self.old.grid index.now number)) found
            × (IsTrue is_there ↔ (found ≡ Some share.now))) }
        ensures not_full { IsErrOf result ServerFault.Full → ⊥ }
        ensures well { OnOk result ((self.new.connection.is_open ≡ true)
            × IsWell self.old.connection.rest self.new.connection.rest) }
        ensures left { IfErr result (λ fault. IsLeftAfter fault self.old.connection.rest
            self.new.connection.is_open self.new.connection.rest) }
        ensures same { (self.new.grid ≡ self.old.grid) × (self.new.longest ≡ self.old.longest)
            × (self.new.connection.first ≡ self.old.connection.first) }
        ensures failures { self.new.failures ≡ self.old.failures }
    {
        match self.fetch(index, number) {
            Ok(stands) => Ok(is_share(&stands, share)),
            Err(ServerFault::Full) => Err(ServerFault::Refused),
            Err(fault) => Err(fault),
        }
    }

    /// Puts a share's bytes under a name where nothing stands, and says whether it did.
    fn put_anew(&mut self, name: &[u8], share: &[u8]) -> Result<bool, ServerFault>
        ensures said { IfOk result (λ said. IsSaidBy
            self.old.connection.is_open self.old.connection.first
            (L.talk self.old.connection.link) (L.talk self.new.connection.link)
            (put_command name.now share.now) said) }
        ensures full { IsErrOf result ServerFault.Full → IsRefusedBy
            self.old.connection.is_open self.old.connection.first
            (L.talk self.old.connection.link) (L.talk self.new.connection.link)
            (put_command name.now share.now) (codes "OOM ") }
        ensures well { OnOk result ((self.new.connection.is_open ≡ true)
            × IsWell self.old.connection.rest self.new.connection.rest) }
        ensures left { IfErr result (λ fault. IsLeftAfter fault self.old.connection.rest
            self.new.connection.is_open self.new.connection.rest) }
        ensures same { (self.new.grid ≡ self.old.grid) × (self.new.longest ≡ self.old.longest)
            × (self.new.connection.first ≡ self.old.connection.first) }
        ensures failures { self.new.failures ≡ self.old.failures }
    {
        let reply = self.tell_put(PUT, name, share)?;
        self.judge(&reply)
    }

    /// Puts a share's bytes under a name, whatever stands there.
    fn replace(&mut self, name: &[u8], share: &[u8]) -> Result<(), ServerFault>
        ensures done { OnOk result (IsSetBy
            self.old.connection.is_open self.old.connection.first
            (L.talk self.old.connection.link) (L.talk self.new.connection.link)
            name.now share.now) }
        ensures full { IsErrOf result ServerFault.Full → IsRefusedBy
            self.old.connection.is_open self.old.connection.first
            (L.talk self.old.connection.link) (L.talk self.new.connection.link)
            (set_command name.now share.now) (codes "OOM ") }
        ensures well { OnOk result ((self.new.connection.is_open ≡ true)
            × IsWell self.old.connection.rest self.new.connection.rest) }
        ensures left { IfErr result (λ fault. IsLeftAfter fault self.old.connection.rest
            self.new.connection.is_open self.new.connection.rest) }
        ensures same { (self.new.grid ≡ self.old.grid) × (self.new.longest ≡ self.old.longest)
            × (self.new.connection.first ≡ self.old.connection.first) }
        ensures failures { self.new.failures ≡ self.old.failures }
    {
        let reply = self.tell_put(REPLACE, name, share)?;
        if is_done(&reply) {
            self.connection.well();
            return Ok(());
        }
        let fault = fault_of(&reply);
        self.connection.reject(fault);
        Err(fault)
    }

    /// The reply to a share's bytes put under a name, by [`PUT`] or [`REPLACE`]. Many bytes aren't copied.
    fn tell_put(&mut self, verb: &[u8], name: &[u8], share: &[u8]) -> Result<Reply, ServerFault>
        ensures told { IfOk result (λ reply. (came : List ℕ) × SpellsReply short_limits reply came
            × IsToldIn self.old.connection.is_open self.old.connection.first
            (L.talk self.old.connection.link) (L.talk self.new.connection.link)
            (command (verb.now ∷ name.now ∷ share.now ∷ [])) came) }
        ensures open { OnOk result (self.new.connection.is_open ≡ true) }
        ensures rest { OnOk result (self.new.connection.rest ≡ self.old.connection.rest) }
        ensures left { IfErr result (λ fault. IsLeftAfter fault self.old.connection.rest
            self.new.connection.is_open self.new.connection.rest) }
        ensures not_refused { IfErr result (λ fault. IsErrorReply fault → ⊥) }
        ensures same { (self.new.grid ≡ self.old.grid) × (self.new.longest ≡ self.old.longest)
            × (self.new.connection.first ≡ self.old.connection.first) }
        ensures failures { self.new.failures ≡ self.old.failures }
    {
        let alloc = self.connection.alloc;
        if share.len() <= COPIED {
            let command = put(alloc, verb, name, share)?;
            return self.connection.ask(SHORT, &[&command]);
        }
        let head = put_head(alloc, verb, name, share.len())?;
        self.connection.ask(SHORT, &[&head, share, b"\r\n"])
    }

    /// Takes away what stands under the key of a share, and says whether something did.
    fn erase(&mut self, index: &[u8; 16], number: u16) -> Result<bool, ServerFault>
        ensures said { IfOk result (λ said. IsSaidBy
            self.old.connection.is_open self.old.connection.first
            (L.talk self.old.connection.link) (L.talk self.new.connection.link)
            (delete_command (key self.old.grid index.now number)) said) }
        ensures well { OnOk result ((self.new.connection.is_open ≡ true)
            × IsWell self.old.connection.rest self.new.connection.rest) }
        ensures left { IfErr result (λ fault. IsLeftAfter fault self.old.connection.rest
            self.new.connection.is_open self.new.connection.rest) }
        ensures same { (self.new.grid ≡ self.old.grid) × (self.new.longest ≡ self.old.longest)
            × (self.new.connection.first ≡ self.old.connection.first) }
        ensures failures { self.new.failures ≡ self.old.failures }
    {
        let name = self.name_of(index, number)?;
        let command = delete(self.connection.alloc, &name)?;
        let reply = self.connection.ask(SHORT, &[&command])?;
        self.judge(&reply)
    }

    /// Whether a reply says one or none, and what it leaves of the connection over which it came.
    fn judge(&mut self, reply: &Reply) -> Result<bool, ServerFault>
        requires { self.old.connection.is_open ≡ true }
        ensures said { IfOk result (λ said. SaysWhether said reply.now) }
        ensures full { IsErrOf result ServerFault.Full → IsErrorOf (codes "OOM ") reply.now }
        ensures talk { OnOk result
            (L.talk self.new.connection.link ≡ L.talk self.old.connection.link) }
        ensures healthy { IfErr result (λ fault. IsErrorReply fault
            → L.talk self.new.connection.link ≡ L.talk self.old.connection.link) }
        ensures well { OnOk result ((self.new.connection.is_open ≡ true)
            × IsWell self.old.connection.rest self.new.connection.rest) }
        ensures left { IfErr result (λ fault. IsLeftAfter fault self.old.connection.rest
            self.new.connection.is_open self.new.connection.rest) }
        ensures same { (self.new.grid ≡ self.old.grid) × (self.new.longest ≡ self.old.longest)
            × (self.new.connection.first ≡ self.old.connection.first) }
        ensures failures { self.new.failures ≡ self.old.failures }
    {
        match said_in(reply) {
            Ok(said) => {
                self.connection.well();
                Ok(said)
            }
            Err(fault) => {
                self.connection.reject(fault);
                Err(fault)
            }
        }
    }
}

/// Whether what stands under a key is a share of these bytes.
fn is_share(stands: &Option<RcSlice<u8>>, share: &[u8]) -> bool
    ensures { IsTrue result ↔ (option_map rc_slice_items stands.now ≡ Some share.now) }
{
    match stands {
        None => false,
        Some(bytes) => bytes.as_slice() == share,
    }
}

/// How many numbers are asked for: the first ones of the grid's, below the limit if there is one.
fn asked(limit: Option<u16>, made: u16) -> u16
    ensures { result ≡ asked_below limit made }
{
    match limit {
        None => made,
        Some(limit) => limit.min(made),
    }
}

impl<L: Link + Drop> Store for RedisStore<L> {
    ghost honest = { λ store. false };

    ghost shares = { λ store. map.empty };

    ghost room = { λ store. 0 };

    ghost held = { λ store. 0 };

    ghost failures = { λ store. store.failures };

    /// `EXISTS key`.
    fn has(&mut self, index: [u8; 16], number: u16) -> Result<bool, AllocError>
        ensures rises { self.old.failures ≤ self.new.failures }
        ensures failed { self.old.failures < self.new.failures → result ≡ Ok false }
        ensures said { IfOk result (λ said. self.new.failures ≡ self.old.failures →
            IsSaidBy
            self.old.connection.is_open self.old.connection.first
            (L.talk self.old.connection.link) (L.talk self.new.connection.link)
            (exists_command (key self.old.grid index number)) said) }
        ensures well { OnOk result (self.new.failures ≡ self.old.failures →
            (self.new.connection.is_open ≡ true)
            × IsWell self.old.connection.rest self.new.connection.rest) }
        ensures left { self.old.failures < self.new.failures →
            IsSomeAnd self.new.last_fault (λ fault. IsLeftAfter fault
            self.old.connection.rest self.new.connection.is_open self.new.connection.rest) }
        ensures same { (self.new.grid ≡ self.old.grid) × (self.new.longest ≡ self.old.longest)
            × (self.new.connection.first ≡ self.old.connection.first) }
    {
        match self.stands(&index, number) {
            Ok(found) => Ok(found),
            Err(ServerFault::NoMemory) => Err(AllocError),
            Err(fault) => {
                self.count(fault)?;
                Ok(false)
            }
        }
    }

    /// `EXISTS key` of each number below the number of shares, in one exchange.
    fn numbers(&mut self, index: [u8; 16]) -> Result<Vec<u16>, AllocError>
        ensures rises { self.old.failures ≤ self.new.failures }
        ensures failed { self.old.failures < self.new.failures →
            IsOkAnd result (λ numbers. numbers.items ≡ []) }
        ensures said { IfOk result (λ numbers. self.new.failures ≡ self.old.failures →
            AreSaidBy
            self.old.connection.is_open self.old.connection.first
            (L.talk self.old.connection.link) (L.talk self.new.connection.link)
            (exists_below self.old.grid index self.old.connection.first.settings.made)
            self.old.connection.first.settings.made numbers.items) }
        ensures well { OnOk result (self.new.failures ≡ self.old.failures →
            (self.new.connection.is_open ≡ true)
            × IsWell self.old.connection.rest self.new.connection.rest) }
        ensures left { self.old.failures < self.new.failures →
            IsSomeAnd self.new.last_fault (λ fault. IsLeftAfter fault
            self.old.connection.rest self.new.connection.is_open self.new.connection.rest) }
        ensures same { (self.new.grid ≡ self.old.grid) × (self.new.longest ≡ self.old.longest)
            × (self.new.connection.first ≡ self.old.connection.first) }
    {
        match self.standing(&index) {
            Ok(numbers) => Ok(numbers),
            Err(ServerFault::NoMemory) => Err(AllocError),
            Err(fault) => {
                self.count(fault)?;
                Ok(Vec::new(self.connection.alloc))
            }
        }
    }

    /// `GET key`.
    fn get(&mut self, index: [u8; 16], number: u16) -> Result<Option<RcSlice<u8>>, AllocError>
        ensures rises { self.old.failures ≤ self.new.failures }
        ensures failed { self.old.failures < self.new.failures → result ≡ Ok None }
        ensures given { IfOk result (λ share. self.new.failures ≡ self.old.failures →
            IsShareGivenBy
            self.old.connection.is_open self.old.connection.first
            (L.talk self.old.connection.link) (L.talk self.new.connection.link)
            self.old.longest (get_command (key self.old.grid index number))
            (option_map rc_slice_items share)) }
        ensures some { IfOk result (λ share. IfSome share (λ bytes.
            0 < length (rc_slice_items bytes))) }
        ensures well { OnOk result (self.new.failures ≡ self.old.failures →
            (self.new.connection.is_open ≡ true)
            × IsWell self.old.connection.rest self.new.connection.rest) }
        ensures left { self.old.failures < self.new.failures →
            IsSomeAnd self.new.last_fault (λ fault. IsLeftAfter fault
            self.old.connection.rest self.new.connection.is_open self.new.connection.rest) }
        ensures same { (self.new.grid ≡ self.old.grid) × (self.new.longest ≡ self.old.longest)
            × (self.new.connection.first ≡ self.old.connection.first) }
    {
        match self.fetch(&index, number) {
            Ok(share) => Ok(share),
            Err(ServerFault::NoMemory) => Err(AllocError),
            Err(fault) => {
                self.count(fault)?;
                Ok(None)
            }
        }
    }

    /// `GET key` of each number below the number of shares, and below the limit if there is one, in one exchange.
    fn gather(
        &mut self,
        index: [u8; 16],
        limit: Option<u16>,
    ) -> Result<Vec<(u16, RcSlice<u8>)>, AllocError>
        ensures rises { self.old.failures ≤ self.new.failures }
        ensures failed { self.old.failures < self.new.failures →
            IsOkAnd result (λ shares. shares.items ≡ []) }
        ensures given { (self.old.connection.awaited
            ≡ ahead (get_below self.old.grid index
            (asked_below limit self.old.connection.first.settings.made))
            (asked_below limit self.old.connection.first.settings.made) → ⊥) → IfOk result (λ shares. self.new.failures ≡ self.old.failures →
            AreSharesGivenBy
            self.old.connection.is_open self.old.connection.first
            (L.talk self.old.connection.link) (L.talk self.new.connection.link)
            self.old.longest (get_below self.old.grid index
            (asked_below limit self.old.connection.first.settings.made))
            (asked_below limit self.old.connection.first.settings.made)
            (mapped (numbered_bytes rc_slice_items) shares.items)) }
        ensures given_ahead { self.old.connection.awaited
            ≡ ahead (get_below self.old.grid index
            (asked_below limit self.old.connection.first.settings.made))
            (asked_below limit self.old.connection.first.settings.made) → IfOk result (λ shares. self.new.failures ≡ self.old.failures →
            AreSharesGivenBy
            true self.old.connection.first
            (before_last (L.talk self.old.connection.link)) (L.talk self.new.connection.link)
            self.old.longest (get_below self.old.grid index
            (asked_below limit self.old.connection.first.settings.made))
            (asked_below limit self.old.connection.first.settings.made)
            (mapped (numbered_bytes rc_slice_items) shares.items)) }
        ensures some { IfOk result (λ shares. All (λ share. 0 < length share.1)
            (mapped (numbered_bytes rc_slice_items) shares.items)) }
        ensures well { OnOk result (self.new.failures ≡ self.old.failures →
            (self.new.connection.is_open ≡ true)
            × IsWell self.old.connection.rest self.new.connection.rest) }
        ensures left { self.old.failures < self.new.failures →
            IsSomeAnd self.new.last_fault (λ fault. IsLeftAfter fault
            self.old.connection.rest self.new.connection.is_open self.new.connection.rest) }
        ensures same { (self.new.grid ≡ self.old.grid) × (self.new.longest ≡ self.old.longest)
            × (self.new.connection.first ≡ self.old.connection.first) }
    {
        let count = asked(limit, self.connection.first.settings.made);
        match self.fetch_below(&index, count) {
            Ok(shares) => Ok(shares),
            Err(ServerFault::NoMemory) => Err(AllocError),
            Err(fault) => {
                self.count(fault)?;
                Ok(Vec::new(self.connection.alloc))
            }
        }
    }

    /// The commands of `gather` with these arguments, where a connection is open, and no wait for what they give.
    fn prefetch(&mut self, index: [u8; 16], limit: Option<u16>)
        ensures failures { self.new.failures ≡ self.old.failures }
        ensures last_fault { self.new.last_fault ≡ self.old.last_fault }
        ensures closed { self.old.connection.is_open ≡ false →
            self.new.connection ≡ self.old.connection }
        ensures open { self.new.connection.is_open ≡ true →
            L.talk self.new.connection.link ≡ L.talk self.old.connection.link }
        ensures ahead { self.old.connection.is_open ≡ true →
            IfSome self.new.connection.awaited (λ told. (Some told
            ≡ ahead (get_below self.old.grid index
            (asked_below limit self.old.connection.first.settings.made))
            (asked_below limit self.old.connection.first.settings.made))
            × (L.talk self.new.connection.link
            ≡ with_command (L.talk self.old.connection.link) told.commands)) }
        ensures rest { self.new.connection.rest ≡ self.old.connection.rest }
        ensures same { (self.new.grid ≡ self.old.grid) × (self.new.longest ≡ self.old.longest)
            × (self.new.connection.first ≡ self.old.connection.first) }
    {
        if !self.connection.is_open {
            return;
        }
        let alloc = self.connection.alloc;
        let made = self.connection.first.settings.made;
        let count = asked(limit, made);
        if let Ok(commands) = get_each_below(alloc, self.grid.as_slice(), &index, count) {
            self.connection.tell_ahead(Bytes::from_vec(commands), count);
        }
    }

    /// Fails: the server has no order of its shares.
    fn nth(&mut self, at: u64) -> Result<Option<Share>, AllocError>
        ensures rises { self.old.failures ≤ self.new.failures }
        ensures failed { self.old.failures < self.new.failures → result ≡ Ok None }
        ensures fails { OnOk result (self.old.failures < self.new.failures) }
        ensures connection { self.new.connection ≡ self.old.connection }
        ensures same { (self.new.grid ≡ self.old.grid) × (self.new.longest ≡ self.old.longest) }
    {
        self.count(ServerFault::NotShared)?;
        Ok(None)
    }

    /// `SETNX key bytes`, and where something stands `GET key`, and where that is other bytes `SET key bytes`.
    fn put(&mut self, index: [u8; 16], number: u16, bytes: RcSlice<u8>) -> Result<bool, StoreFault>
        requires { 0 < length (rc_slice_items bytes) }
        ensures rises { self.old.failures ≤ self.new.failures }
        ensures down { IsErrOf result StoreFault.Down ↔ (self.old.failures < self.new.failures) }
        ensures said { IfOk result (λ put. IsPutBy
            self.old.connection.is_open self.old.connection.first
            (L.talk self.old.connection.link) (L.talk self.new.connection.link)
            self.old.longest (key self.old.grid index number) (rc_slice_items bytes) put) }
        ensures of_grid { OnOk result ((number < self.old.connection.first.settings.made)
            × (length (rc_slice_items bytes) ≤ self.old.longest)) }
        ensures full_said { IsErrOf result StoreFault.Full → IsPutRefusedBy
            self.old.connection.is_open self.old.connection.first
            (L.talk self.old.connection.link) (L.talk self.new.connection.link)
            (key self.old.grid index number) (rc_slice_items bytes) (codes "OOM ") }
        ensures full_well { IsErrOf result StoreFault.Full →
            (self.new.connection.is_open ≡ true)
            × IsWell self.old.connection.rest self.new.connection.rest }
        ensures well { OnOk result (self.new.failures ≡ self.old.failures →
            (self.new.connection.is_open ≡ true)
            × IsWell self.old.connection.rest self.new.connection.rest) }
        ensures left { self.old.failures < self.new.failures →
            IsSomeAnd self.new.last_fault (λ fault. IsLeftInTheEnd fault
            self.old.connection.rest self.new.connection.is_open self.new.connection.rest) }
        ensures same { (self.new.grid ≡ self.old.grid) × (self.new.longest ≡ self.old.longest)
            × (self.new.connection.first ≡ self.old.connection.first) }
    {
        match self.offer(&index, number, bytes.as_slice()) {
            Ok(put) => Ok(put),
            Err(ServerFault::NoMemory) => Err(StoreFault::NoMemory),
            Err(ServerFault::Full) => Err(StoreFault::Full),
            Err(fault) => Err(self.refuse(fault)),
        }
    }

    /// `DEL key`.
    fn lose(&mut self, index: [u8; 16], number: u16) -> Result<bool, StoreFault>
        ensures rises { self.old.failures ≤ self.new.failures }
        ensures down { IsErrOf result StoreFault.Down ↔ (self.old.failures < self.new.failures) }
        ensures not_full { IsErrOf result StoreFault.Full → ⊥ }
        ensures said { IfOk result (λ said. IsSaidBy
            self.old.connection.is_open self.old.connection.first
            (L.talk self.old.connection.link) (L.talk self.new.connection.link)
            (delete_command (key self.old.grid index number)) said) }
        ensures well { OnOk result (self.new.failures ≡ self.old.failures →
            (self.new.connection.is_open ≡ true)
            × IsWell self.old.connection.rest self.new.connection.rest) }
        ensures left { self.old.failures < self.new.failures →
            IsSomeAnd self.new.last_fault (λ fault. IsLeftAfter fault
            self.old.connection.rest self.new.connection.is_open self.new.connection.rest) }
        ensures same { (self.new.grid ≡ self.old.grid) × (self.new.longest ≡ self.old.longest)
            × (self.new.connection.first ≡ self.old.connection.first) }
    {
        match self.erase(&index, number) {
            Ok(lost) => Ok(lost),
            Err(ServerFault::NoMemory) => Err(StoreFault::NoMemory),
            Err(fault) => Err(self.refuse(fault)),
        }
    }

    /// Fails: a share that others read isn't changed.
    fn toggle(&mut self, index: [u8; 16], number: u16, place: u64) -> Result<bool, StoreFault>
        ensures rises { self.old.failures ≤ self.new.failures }
        ensures down { IsErrOf result StoreFault.Down ↔ (self.old.failures < self.new.failures) }
        ensures not_full { IsErrOf result StoreFault.Full → ⊥ }
        ensures fails { OnOk result ⊥ }
        ensures connection { self.new.connection ≡ self.old.connection }
        ensures same { (self.new.grid ≡ self.old.grid) × (self.new.longest ≡ self.old.longest) }
    {
        Err(self.refuse(ServerFault::NotShared))
    }

    /// 0: the room is the server's, and nobody knows it.
    fn room(&self) -> u64 {
        0
    }

    /// 0: nobody knows what the server holds.
    fn held(&self) -> u64 {
        0
    }

    fn failures(&self) -> u64 {
        self.failures
    }

    ghost held_is = { λ store honest. absurd (cc) };

    ghost none_empty = { λ store honest. absurd (cc) };

    ghost fits = { λ store honest. absurd (cc) };
}
