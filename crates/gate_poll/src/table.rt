//! The connections by their ids.
ghost use Rattle.std.specs.Prelude.{◌≡◌, ◌≢◌, ◌+◌, ◌<◌, ◌≤◌, ◌↔◌, ◌⊎◌, MatchBool, ℕ, IsTrue, Some, None, true, false, IfOk, IfSome, IfNone, length, [], unwrap_or, option_copied};
ghost use Rattle.std.specs.Option.{option_map, option_map_or};
ghost use Rattle.gate_flow.specs.Hosted.{IsHosted, IsOwnId};
ghost use Rattle.gate_turns.specs.Seat.{new_seat};
ghost use Rattle.gate_turns.specs.Lanes.{turns_due};
ghost use Rattle.gate_turns.specs.Places.{IsChoiceFor, IsLongestIdle, NobodyIsIdle, places_taken};
ghost use Rattle.gate_turns.specs.Turns.{seat_at, HasCome, HasLeft, IsDismissible, OthersStay};
ghost use Rattle.gate_turns.specs.declared.places.Choice.{Choice};
ghost use Rattle.gate_limits.specs.PeerAddress.{places_allowed};
ghost use Rattle.gate_poll.specs.Peers.{owes};
ghost use Rattle.gate_core.specs.ConnectionState.{connection_at};
ghost use Rattle.gate_poll.specs.Table.{peer_in, IsLetGo, OthersKept, IsOwnPeer, AreOwnPeers, IsTurnOf, AreKeptBut, IsSocketCalled};

use crate::forget::Forget;
use crate::peer::{Moment, Outcome, Peer};
use crate::tools::Tools;
use gate_flow::{Flow, Lobby};
use gate_limits::{Ids, Limits, PeerAddress, register};
use gate_turns::{Choice, Chosen, Lane, Seat, Turns};
use log::{Log, warn};
use mio::Poll;
use mio::net::TcpStream;
use share_store::Store;
use std::alloc::{AllocError, Global};
use std::collections::BTreeMap;
use std::time::{Clock, CpuClock, Instant};

/// How many connections are cut at a time.
const CUT: usize = 1024;

/// The connections by their ids, each with its seat among those that have turns. An id is a connection's id in the gateway
/// and its token in the poll, and none is used twice: an event that comes late finds nothing.
pub struct Table {
    alloc: Global,
    ids: Ids,
    peers: BTreeMap<u64, Peer>,
    turns: Turns,
    cut: Vec<u64>,
    stopping: bool,
    /// What turns are had with.
    pub tools: Tools,
}

// Its own, so that what owns one calls it: a derived drop is spelled out wherever a value may be dropped.
impl Drop for Table {
    fn drop(self) {
        let Table {
            alloc: _,
            ids: _,
            peers: _,
            turns: _,
            cut: _,
            stopping: _,
            tools: _,
        } = self;
    }
}

impl Table {
    ghost use Rattle.gate_poll.specs.Events.{IsInformed};
    ghost use Rattle.gate_poll.specs.Secrets.{IsOpenedUnder};
    ghost use Rattle.gate_poll.specs.Table.{IsRoomMade, IsTableKept, Serves, ServesUnder, LetsGo};

    /// No connections, and room for as many as the limits say.
    pub fn new(alloc: Global, limits: &Limits, now: Instant) -> Result<Table, AllocError>
        ensures kept { IfOk result IsTableKept }
        ensures first { IfOk result (λ table. table.ids.next ≡ 1) }
        ensures due { IfOk result (λ table. turns_due table.turns.lanes ≡ 0) }
    {
        Ok(Table {
            alloc,
            ids: Ids::new(),
            peers: BTreeMap::new(alloc),
            turns: Turns::new(alloc, limits.most)?,
            cut: Vec::with_capacity(alloc, CUT)?,
            stopping: false,
            tools: Tools::new(alloc, limits, now)?,
        })
    }

    /// Whether a newcomer may have a place: one is free, or somebody is idle.
    pub fn has_place(&self) -> bool
        ensures { MatchBool result ((length self.now.turns.seats < self.now.turns.lanes.room)
            ⊎ ((id : ℕ) × IsLongestIdle None self.now.turns.seats id))
            ((self.now.turns.lanes.room ≤ length self.now.turns.seats)
            × NobodyIsIdle None self.now.turns.seats) }
    {
        self.turns.has_place()
    }

    /// How many connections are open.
    pub fn len(&self) -> usize
        ensures { result ≡ length self.now.turns.seats }
    {
        self.turns.len()
    }

    /// Whether no connection is open.
    pub fn is_empty(&self) -> bool
        ensures { IsTrue result ↔ (length self.now.turns.seats ≡ 0) }
    {
        self.len() == 0
    }

    /// Whether one has a turn to come.
    pub fn has_turns(&self) -> bool {
        self.turns.has_turns()
    }

    /// The id of the connection that is taken in next.
    pub fn coming(&self) -> u64
        ensures { result ≡ self.now.ids.next }
    {
        self.ids.coming()
    }

    /// An id that was not used before, for a control connection. `None` once all were.
    pub fn new_id(&mut self) -> Option<u64>
        requires { IsTableKept self.old }
        ensures kept { IsTableKept self.new }
        ensures next { self.old.ids.next ≤ self.new.ids.next }
        ensures peers { self.new.peers ≡ self.old.peers }
        ensures turns { self.new.turns ≡ self.old.turns }
    {
        self.ids.take()
    }

    /// Takes a newcomer's socket in, where room can be made for it; else it is dropped.
    pub fn welcome<S: Store, F: Forget>(
        &mut self,
        poll: &Poll,
        stream: TcpStream,
        peer: PeerAddress,
        secret: Option<&[u8]>,
        lobby: &mut Lobby<S>,
        forgets: &mut F,
        now: Instant,
    )
        requires { IsTableKept self.old }
        ensures served { ServesUnder (IsOpenedUnder self.old.ids.next
            (unwrap_or (option_copied secret.entry) lobby.old.settings.secret))
            self.old self.new lobby.old lobby.new }
        ensures let_go { LetsGo (F.forgot forgets.old) (F.forgot forgets.new) self.old self.new
            lobby.old lobby.new }
        ensures due { turns_due self.new.turns.lanes ≡ turns_due self.old.turns.lanes }
    {
        gate_flow::laws::gateways_are_hosted();
        if self.make_room(peer, lobby, forgets) {
            self.take_in(poll, stream, peer, secret, lobby, forgets, now);
        }
    }

    /// Makes room for a newcomer, where its address has fewer places than it may and one is free, or somebody is idle who
    /// has been for longest: of its address, where that has as many as it may, else of all. Says whether there is room.
    fn make_room<S: Store, F: Forget>(
        &mut self,
        peer: PeerAddress,
        lobby: &mut Lobby<S>,
        forgets: &mut F,
    ) -> bool
        requires { IsTableKept self.old }
        ensures placed { (choice : Choice) × (IsChoiceFor self.old.turns.lanes.room
            (places_allowed self.old.tools.limits peer) peer.number self.old.turns.seats choice
            × IsRoomMade choice result self.old.peers.entries self.old.turns self.new.turns) }
        ensures served { Serves self.old self.new lobby.old lobby.new }
        ensures let_go { LetsGo (F.forgot forgets.old) (F.forgot forgets.new) self.old self.new
            lobby.old lobby.new }
        ensures ids { self.new.ids ≡ self.old.ids }
        ensures due { turns_due self.new.turns.lanes ≡ turns_due self.old.turns.lanes }
    {
        gate_flow::laws::gateways_are_hosted();
        let most = self.tools.limits.places_of(peer);
        match self.turns.place_for(peer.number, most) {
            Choice::Opens => true,
            Choice::Replaces(id) => {
                let made = self.dismiss(id, lobby, forgets);
                self.tools.counts.replaces();
                made
            }
            Choice::Refused => {
                self.tools.counts.refuses();
                false
            }
        }
    }

    /// Takes a socket in, under an id that was not used before. Its connection is opened under this secret, and under the
    /// gateway's where there is none. Where the system, the gateway or memory refuses it, or its address has as many places
    /// as it may, it is dropped.
    fn take_in<S: Store, F: Forget>(
        &mut self,
        poll: &Poll,
        mut stream: TcpStream,
        from: PeerAddress,
        secret: Option<&[u8]>,
        lobby: &mut Lobby<S>,
        forgets: &mut F,
        now: Instant,
    )
        requires { IsTableKept self.old }
        ensures served { ServesUnder (IsOpenedUnder self.old.ids.next
            (unwrap_or (option_copied secret.entry) lobby.old.settings.secret))
            self.old self.new lobby.old lobby.new }
        ensures let_go { LetsGo (F.forgot forgets.old) (F.forgot forgets.new) self.old self.new
            lobby.old lobby.new }
        ensures due { turns_due self.new.turns.lanes ≡ turns_due self.old.turns.lanes }
    {
        gate_flow::laws::gateways_are_hosted();
        let Some(id) = self.ids.take() else {
            self.tools.counts.refuses();
            return;
        };
        if !register(poll, id, &mut stream) {
            self.tools.counts.refuses();
            return;
        }
        let Ok(flow) = lobby.open(self.alloc, id, secret) else {
            self.tools.counts.refuses();
            return;
        };
        let peer = Peer::new(stream, flow, now);
        let most = self.tools.limits.places_of(from);
        match add(
            &mut self.peers,
            &mut self.turns,
            id,
            peer,
            from.number,
            most,
        ) {
            None => self.tools.counts.opens(self.turns.len()),
            Some(flow) => {
                give_up(lobby, forgets, flow);
                self.tools.counts.refuses();
            }
        }
    }

    /// A socket was reported ready. An id that is not open changes nothing.
    pub fn is_ready(&mut self, id: u64, readable: bool, writable: bool)
        requires { IsTableKept self.old }
        ensures told { IsInformed id readable writable self.old.turns self.new.turns }
        ensures kept { IsTableKept self.new }
        ensures ids { self.new.ids ≡ self.old.ids }
        ensures peers { self.new.peers ≡ self.old.peers }
        ensures due { turns_due self.new.turns.lanes ≡ turns_due self.old.turns.lanes }
    {
        self.turns.report(id, readable, writable);
    }

    /// The one that came first of those that wait for memory has a turn to come, if it may go on now. It is one a round, so
    /// that not all are called to find that the first of them took the room. While [`Table::may_resume`] says that another
    /// may go on, the next round follows at once.
    pub fn resume(&mut self)
        requires { IsTableKept self.old }
        ensures kept { IsTableKept self.new }
        ensures ids { self.new.ids ≡ self.old.ids }
        ensures peers { self.new.peers ≡ self.old.peers }
        ensures due { turns_due self.new.turns.lanes ≡ turns_due self.old.turns.lanes }
    {
        self.tools.counts_kept();
        if let Some(id) = self.tools.memory.next() {
            self.is_ready(id, true, false);
        }
    }

    /// Whether one that waits for memory may go on.
    pub fn may_resume(&self) -> bool {
        self.tools.memory.may_resume()
    }

    /// A round of turns, as `Turns` gives them.
    pub fn round<S: Store, F: Forget, R: Clock + CpuClock + Log>(
        &mut self,
        rt: &R,
        lobby: &mut Lobby<S>,
        forgets: &mut F,
        now: Instant,
    )
        requires kept { IsTableKept self.old }
        requires over { turns_due self.old.turns.lanes ≡ 0 }
        ensures served { Serves self.old self.new lobby.old lobby.new }
        ensures let_go { LetsGo (F.forgot forgets.old) (F.forgot forgets.new) self.old self.new
            lobby.old lobby.new }
        ensures over { turns_due self.new.turns.lanes ≡ 0 }
    {
        gate_flow::laws::gateways_are_hosted();
        let mut moment = Moment::at(rt, now);
        self.turns.begin_round();
        'turns: while let Some(chosen) = self.turns.next() {
            self.turn(rt, lobby, forgets, chosen, &mut moment);
        }
    }

    /// A connection has its turn.
    fn turn<S: Store, F: Forget, R: Clock + CpuClock + Log>(
        &mut self,
        rt: &R,
        lobby: &mut Lobby<S>,
        forgets: &mut F,
        chosen: Chosen,
        moment: &mut Moment,
    )
        requires { IsTurnOf chosen.id self.old.ids.next self.old.peers.entries self.old.turns }
        ensures served { Serves self.old self.new lobby.old lobby.new }
        ensures let_go { LetsGo (F.forgot forgets.old) (F.forgot forgets.new) self.old self.new
            lobby.old lobby.new }
        ensures due { turns_due self.new.turns.lanes ≤ turns_due self.old.turns.lanes }
    {
        gate_flow::laws::gateways_are_hosted();
        let id = chosen.id;
        let Some(seat) = self.turns.seat(id) else {
            return;
        };
        let outcome = call(
            &mut self.peers,
            rt,
            lobby,
            &mut self.tools,
            moment,
            id,
            &seat,
        );
        shorten(
            &mut self.turns,
            outcome.turned.long && chosen.lane == Lane::Fresh,
        );
        if !self.turns.turned(id, outcome.turned, self.stopping) {
            self.tools.tells(rt, id, &outcome, moment.now);
            self.remove(id, lobby, forgets);
            moment.skips(rt);
        }
    }

    /// Closes a connection that has no seat any more, and gives up what the gateway holds of it.
    fn remove<S: Store, F: Forget>(&mut self, id: u64, lobby: &mut Lobby<S>, forgets: &mut F)
        requires { AreKeptBut id self.old.ids.next self.old.peers.entries self.old.turns }
        ensures served { Serves self.old self.new lobby.old lobby.new }
        ensures let_go { LetsGo (F.forgot forgets.old) (F.forgot forgets.new) self.old self.new
            lobby.old lobby.new }
        ensures turns { self.new.turns ≡ self.old.turns }
        ensures ids { self.new.ids ≡ self.old.ids }
    {
        gate_flow::laws::gateways_are_hosted();
        self.tools.memory.changes(kept_of(&self.peers, id), 0);
        self.tools.memory.lets_go(id);
        let flow = take_out(&mut self.peers, id);
        give_up_some(lobby, forgets, id, flow);
        self.tools.counts.closes(self.turns.len());
    }

    /// Cuts those whose time is over, at most 1,024 of them.
    pub fn sweep<S: Store, F: Forget, R: Log>(
        &mut self,
        rt: &R,
        lobby: &mut Lobby<S>,
        forgets: &mut F,
        now: Instant,
    )
        requires { IsTableKept self.old }
        ensures served { Serves self.old self.new lobby.old lobby.new }
        ensures let_go { LetsGo (F.forgot forgets.old) (F.forgot forgets.new) self.old self.new
            lobby.old lobby.new }
        ensures due { turns_due self.new.turns.lanes ≡ turns_due self.old.turns.lanes }
    {
        gate_flow::laws::gateways_are_hosted();
        self.tools.passes(rt, now);
        find_late(&self.peers, &self.tools, now, &mut self.cut);
        'late: for _ in 0..self.cut.len() {
            let Some(id) = self.cut.pop() else {
                return;
            };
            self.cut_late(rt, id, lobby, forgets, now);
        }
    }

    /// Cuts a connection whose time is over, if it waits for its socket. One to which all was said is over.
    fn cut_late<S: Store, F: Forget, R: Log>(
        &mut self,
        rt: &R,
        id: u64,
        lobby: &mut Lobby<S>,
        forgets: &mut F,
        now: Instant,
    )
        requires { IsTableKept self.old }
        ensures served { Serves self.old self.new lobby.old lobby.new }
        ensures let_go { LetsGo (F.forgot forgets.old) (F.forgot forgets.new) self.old self.new
            lobby.old lobby.new }
        ensures due { turns_due self.new.turns.lanes ≡ turns_due self.old.turns.lanes }
    {
        gate_flow::laws::gateways_are_hosted();
        if !self.turns.leave(id) {
            return;
        }
        let told = self.is_told(id);
        self.tools.cuts(rt, id, told, now);
        self.remove(id, lobby, forgets);
    }

    /// Whether all was said to a connection.
    fn is_told(&self, id: u64) -> bool {
        match self.peers.get(&id) {
            Some(peer) => peer.is_done(),
            None => false,
        }
    }

    /// From now on connections are closed once nothing is owed to them, those that wait for a request at once.
    pub fn stop_all<S: Store, F: Forget>(&mut self, lobby: &mut Lobby<S>, forgets: &mut F)
        requires { IsTableKept self.old }
        ensures served { Serves self.old self.new lobby.old lobby.new }
        ensures let_go { LetsGo (F.forgot forgets.old) (F.forgot forgets.new) self.old self.new
            lobby.old lobby.new }
        ensures due { turns_due self.new.turns.lanes ≡ turns_due self.old.turns.lanes }
    {
        gate_flow::laws::gateways_are_hosted();
        self.stopping = true;
        let ids = self.all_ids();
        for id in &ids {
            self.stop_one(*id, lobby, forgets);
        }
    }

    /// Closes a connection since serving is to stop, if it waits for its socket and nothing is owed to it.
    fn stop_one<S: Store, F: Forget>(&mut self, id: u64, lobby: &mut Lobby<S>, forgets: &mut F)
        requires { IsTableKept self.old }
        ensures served { Serves self.old self.new lobby.old lobby.new }
        ensures let_go { LetsGo (F.forgot forgets.old) (F.forgot forgets.new) self.old self.new
            lobby.old lobby.new }
        ensures due { turns_due self.new.turns.lanes ≡ turns_due self.old.turns.lanes }
    {
        if self.dismiss(id, lobby, forgets) {
            self.tools.counts.stops();
        }
    }

    /// The ids of the connections, as many as there is memory for.
    fn all_ids(&self) -> Vec<u64> {
        let mut ids = Vec::new(self.alloc);
        for (id, _) in self.peers.iter() {
            if ids.push(*id).is_err() {
                break;
            }
        }
        ids
    }

    /// Closes a connection that waits for its socket and to which nothing is owed, and says whether that was so.
    fn dismiss<S: Store, F: Forget>(
        &mut self,
        id: u64,
        lobby: &mut Lobby<S>,
        forgets: &mut F,
    ) -> bool
        requires { IsTableKept self.old }
        ensures left { MatchBool result (HasLeft id self.old.turns self.new.turns)
            (¬ (IsDismissible (seat_at self.old.turns id))) }
        ensures ids { self.new.ids ≡ self.old.ids }
        ensures served { Serves self.old self.new lobby.old lobby.new }
        ensures let_go { LetsGo (F.forgot forgets.old) (F.forgot forgets.new) self.old self.new
            lobby.old lobby.new }
        ensures due { turns_due self.new.turns.lanes ≡ turns_due self.old.turns.lanes }
    {
        gate_flow::laws::gateways_are_hosted();
        if !self.turns.dismiss(id) {
            return false;
        }
        self.remove(id, lobby, forgets);
        true
    }

    /// Closes all connections.
    pub fn give_up_all<S: Store, F: Forget>(&mut self, lobby: &mut Lobby<S>, forgets: &mut F)
        requires { IsTableKept self.old }
        ensures hosted { IsHosted 1 self.old.ids.next lobby.old lobby.new }
        ensures let_go { LetsGo (F.forgot forgets.old) (F.forgot forgets.new) self.old self.new
            lobby.old lobby.new }
        ensures none { (id : ℕ) → peer_in self.new.peers.entries id ≡ None }
    {
        gate_flow::laws::gateways_are_hosted();
        'all: while let Some(flow) = take_first(&mut self.peers) {
            give_up(lobby, forgets, flow);
            self.tools.counts.stops();
        }
        self.tools.counts.closes(0);
    }
}

/// Cuts a round short for fresh ones, if one of them had a long step.
fn shorten(turns: &mut Turns, long: bool)
    ensures seats { turns.new.seats ≡ turns.old.seats }
    ensures turn { turns.new.turn ≡ turns.old.turn }
    ensures due { turns_due turns.new.lanes ≤ turns_due turns.old.lanes }
{
    if long {
        turns.cut_short();
    }
}

/// Finds those whose time is over, at most 1,024 of them.
fn find_late(peers: &BTreeMap<u64, Peer>, tools: &Tools, now: Instant, late: &mut Vec<u64>) {
    late.clear();
    for (id, peer) in peers.iter() {
        if late.len() < CUT && peer.is_late(now, tools) {
            let _ = late.push(*id);
        }
    }
}

/// Calls the socket of a connection that has its turn. It is over where there is no such connection.
fn call<S: Store, R: Clock + CpuClock>(
    peers: &mut BTreeMap<u64, Peer>,
    rt: &R,
    lobby: &mut Lobby<S>,
    tools: &mut Tools,
    moment: &mut Moment,
    id: u64,
    seat: &Seat,
) -> Outcome
    requires { IfSome (peer_in peers.old.entries id) (λ peer. peer.flow.id ≡ id) }
    ensures called { IfSome (peer_in peers.old.entries id) (λ _.
        IsSocketCalled id result.turned peers.old.entries peers.new.entries) }
    ensures others { OthersKept id peers.old.entries peers.new.entries }
    ensures hosted { IsHosted id (id + 1) lobby.old lobby.new }
{
    gate_flow::laws::gateways_are_hosted();
    match peers.get_mut(&id) {
        Some(peer) => peer.goes_on(rt, lobby, tools, moment, seat),
        None => Outcome::none(),
    }
}

/// Gives a connection a seat, of an address that may have so many. Where it has them, or memory is refused, its flow comes
/// back, and nothing changed.
fn add(
    peers: &mut BTreeMap<u64, Peer>,
    turns: &mut Turns,
    id: u64,
    peer: Peer,
    address: u64,
    most: usize,
) -> Option<Flow>
    requires fresh { peer_in peers.old.entries id ≡ None }
    requires seat { seat_at turns.old id ≡ None }
    requires idle { turns.old.turn ≡ None }
    requires owed { owes peer ≡ false }
    ensures added { IfNone result (HasCome id (new_seat address) turns.old turns.new
        × (peer_in peers.new.entries id ≡ Some peer)) }
    ensures own { IfNone result (places_taken address turns.old.seats < most) }
    ensures refused { IfSome result (λ flow. (flow ≡ peer.flow) × (turns.new ≡ turns.old)
        × (peer_in peers.new.entries id ≡ None)) }
    ensures others { OthersKept id peers.old.entries peers.new.entries }
    ensures seats { OthersStay id turns.old turns.new }
    ensures turn { turns.new.turn ≡ None }
{
    if let Err(refused) = peers.insert(id, peer) {
        let (_, peer) = refused.value;
        return Some(peer.into_flow());
    }
    if turns.open(id, address, most) {
        return None;
    }
    match peers.remove(&id) {
        Some(peer) => Some(peer.into_flow()),
        None => None,
    }
}

/// How many bytes are kept of a connection, and none where there is no such connection.
fn kept_of(peers: &BTreeMap<u64, Peer>, id: u64) -> usize
    ensures { result ≡ option_map_or (λ peer. peer.kept) (peer_in peers.now.entries id) 0 }
{
    match peers.get(&id) {
        Some(peer) => peer.kept(),
        None => 0,
    }
}

/// Takes a connection out, and gives its flow.
fn take_out(peers: &mut BTreeMap<u64, Peer>, id: u64) -> Option<Flow>
    ensures gone { peer_in peers.new.entries id ≡ None }
    ensures others { OthersKept id peers.old.entries peers.new.entries }
    ensures found { result ≡ option_map (λ peer. peer.flow) (peer_in peers.old.entries id) }
{
    match peers.remove(&id) {
        Some(peer) => Some(peer.into_flow()),
        None => None,
    }
}

/// Takes one of the connections out, and gives its flow.
fn take_first(peers: &mut BTreeMap<u64, Peer>) -> Option<Flow>
    ensures own { (next : ℕ) → AreOwnPeers next peers.old.entries →
        IfSome result (λ flow. IsOwnId 1 next flow.id) }
    ensures kept { (next : ℕ) → AreOwnPeers next peers.old.entries →
        AreOwnPeers next peers.new.entries }
    ensures others { (next : ℕ) → AreOwnPeers next peers.old.entries →
        IfSome result (λ flow. OthersKept flow.id peers.old.entries peers.new.entries) }
    ensures fewer { IfSome result (λ _.
        length peers.new.entries < length peers.old.entries) }
    ensures none { IfNone result (peers.new.entries ≡ []) }
    ensures same { IfNone result (peers.new.entries ≡ peers.old.entries) }
{
    match peers.pop_first() {
        Some((_, peer)) => Some(peer.into_flow()),
        None => None,
    }
}

/// Gives up what the gateway holds of a connection, if it was there.
fn give_up_some<S: Store, F: Forget>(
    lobby: &mut Lobby<S>,
    forgets: &mut F,
    id: u64,
    flow: Option<Flow>,
)
    requires { IfSome flow (λ flow. flow.id ≡ id) }
    ensures hosted { IsHosted id (id + 1) lobby.old lobby.new }
    ensures still { (other : ℕ) → F.forgot forgets.old other → F.forgot forgets.new other }
    ensures let_go { IfSome flow (λ _. F.forgot forgets.new id
        × IsLetGo id (connection_at lobby.new id)) }
    ensures none { IfNone flow (lobby.new ≡ lobby.old) }
{
    gate_flow::laws::gateways_are_hosted();
    match flow {
        Some(flow) => give_up(lobby, forgets, flow),
        None => {}
    }
}

/// Closes a connection at the gateway, and lets go of what it holds of it. Where memory is refused its entry stays.
fn give_up<S: Store, F: Forget>(lobby: &mut Lobby<S>, forgets: &mut F, flow: Flow)
    ensures hosted { IsHosted flow.id (flow.id + 1) lobby.old lobby.new }
    ensures still { (other : ℕ) → F.forgot forgets.old other → F.forgot forgets.new other }
    ensures forgot { F.forgot forgets.new flow.id }
    ensures let_go { IsLetGo flow.id (connection_at lobby.new flow.id) }
{
    gate_flow::laws::gateways_are_hosted();
    let id = flow.id();
    lobby.let_go_of(id);
    lobby.close(flow);
    forgets.forget(lobby, id);
}
