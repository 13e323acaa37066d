//! The loop.
ghost use Rattle.std.specs.Prelude.{◌≡◌, ◌≤◌, ◌<◌, ◌-◌, ◌^◌, ◌↔◌, ◌⊎◌, ℕ, true, None, IfSome, IsTrue, IsSomeAnd};
ghost use Rattle.gate_core.specs.ConnectionState.{connection_at};
ghost use Rattle.mio.specs.Event.{event_token};
ghost use Rattle.gate_limits.specs.Listeners.{listener_place};
ghost use Rattle.gate_turns.specs.Acceptor.{MayAccept};
ghost use Rattle.gate_turns.specs.Acceptors.{knocked, with_acceptor};
ghost use Rattle.gate_turns.specs.Lanes.{turns_due};
ghost use Rattle.gate_poll.specs.Events.{IsInformed, IsKnocked, wakes_reader, wakes_writer};
ghost use Rattle.gate_poll.specs.Secrets.{IsUnder, IsUnderSome, IsUnderOneOf};
ghost use Rattle.gate_poll.specs.Table.{IsTableKept, IsHostedUnder, Serves, ServesUnder, LetsGo, IsLetGo, IsOverAt};

use crate::fault::ServeFault;
use crate::forget::{Forget, Forgetter};
use crate::table::Table;
use crate::watch::Watch;
use gate_control::{Control, ControlTable};
use gate_flow::Lobby;
use gate_limits::{
    Arrival, Arrivals, CONTROL, Counts, Entrance, Limits, Listener, Listeners, place_of, register,
};
use gate_turns::{Acceptors, Ending};
use log::{Log, info, warn};
use mio::event::Event;
use mio::net::TcpListener;
use mio::{Events, Poll, Token};
use share_store::Store;
use std::net::Net;
use std::time::{Clock, CpuClock, Duration, Instant};

/// How many events are taken at a time.
const EVENTS: usize = 1024;

/// How many connections are accepted between two rounds of turns.
const ACCEPTS: u32 = 64;

/// How many control connections are accepted between two rounds of turns.
const CONTROL_ACCEPTS: u32 = 16;

/// How long the loop waits at most, and how often it looks for those whose time is over.
const TICK_MILLIS: u64 = 500;

/// The loop's state besides the connections.
#[derive(Drop)]
struct EventLoop {
    poll: Poll,
    /// The acceptors of the listeners, by their places.
    acceptors: Acceptors,
    control: Option<Entrance>,
    swept: Instant,
    watch: Watch,
    /// Since when serving is to stop.
    ending: Ending,
}

/// Serves connections, all at once, until so many were served as the limits say, or a control request asked that
/// serving stop. They come by at most 64 listeners: by more none is served, which is `PollFailed`. Each has an id of its
/// own: the gateway is called for connections of ids from 1 on alone, which are opened under the secret of the listener
/// that each came by, or the gateway's own where that has none, and nothing else of it is changed. In the end none is open:
/// each connection of the gateway is as it was before, or was closed and then forgotten.
pub fn serve_on<S: Store, R: Net + Clock + CpuClock + AllocGlobal + Log, C: Control<S>>(
    rt: &R,
    listeners: Vec<Listener>,
    control: Option<TcpListener>,
    limits: &Limits,
    lobby: &mut Lobby<S>,
    answers: &mut C,
) -> Result<Counts, ServeFault>
    ensures hosted { (next : ℕ) × IsHostedUnder (IsUnderOneOf listeners.items
        lobby.old.settings.secret) 1 next lobby.old lobby.new }
    ensures over { (id : ℕ) → IsOverAt (connection_at lobby.old id) (connection_at lobby.new id) id }
{
    let arrivals = Listeners::new(listeners);
    let mut forgets = Forgetter;
    serve_all(rt, arrivals, control, limits, lobby, &mut forgets, answers)
}

/// Serves connections that come so, and has those forgotten that are over.
fn serve_all<
    S: Store,
    A: Arrivals + Drop,
    F: Forget,
    R: Net + Clock + CpuClock + AllocGlobal + Log,
    C: Control<S>,
>(
    rt: &R,
    arrivals: A,
    control: Option<TcpListener>,
    limits: &Limits,
    lobby: &mut Lobby<S>,
    forgets: &mut F,
    answers: &mut C,
) -> Result<Counts, ServeFault>
    ensures hosted { (next : ℕ) × IsHostedUnder (IsUnder (A.came arrivals) (A.secret_at arrivals)
        lobby.old.settings.secret) 1 next lobby.old lobby.new }
    ensures over { (id : ℕ) → (connection_at lobby.new id ≡ connection_at lobby.old id)
        ⊎ (F.forgot forgets.new id × IsLetGo id (connection_at lobby.new id)) }
{
    gate_flow::laws::gateways_are_hosted();
    let mut events = Events::with_capacity(rt.alloc(), EVENTS)?;
    let mut table = Table::new(rt.alloc(), limits, Instant::now(rt)?)?;
    let mut desk = ControlTable::new(rt.alloc())?;
    let mut gate = EventLoop::open(rt, &arrivals, control)?;
    let mut arrivals = Some(arrivals);
    let ended = gate.serve(
        rt,
        &mut arrivals,
        &mut events,
        &mut table,
        &mut desk,
        limits,
        lobby,
        forgets,
        answers,
    );
    table.give_up_all(lobby, forgets);
    match ended {
        Ok(()) => Ok(table.tools.counts),
        Err(fault) => Err(fault),
    }
}

/// Marks what was reported ready, and the next one that waited for memory, if it may go on now.
fn mark(events: &Events, gate: &mut EventLoop, table: &mut Table, desk: &mut ControlTable)
    requires { IsTableKept table.old }
    ensures kept { IsTableKept table.new }
    ensures ids { table.new.ids ≡ table.old.ids }
    ensures peers { table.new.peers ≡ table.old.peers }
    ensures due { turns_due table.new.turns.lanes ≡ turns_due table.old.turns.lanes }
{
    for event in events {
        mark_one(event, gate, table, desk);
    }
    table.resume();
}

/// Marks one that was reported ready: a listener by its token, or a connection.
fn mark_one(event: &Event, gate: &mut EventLoop, table: &mut Table, desk: &mut ControlTable)
    requires { IsTableKept table.old }
    ensures kept { IsTableKept table.new }
    ensures ids { table.new.ids ≡ table.old.ids }
    ensures peers { table.new.peers ≡ table.old.peers }
    ensures due { turns_due table.new.turns.lanes ≡ turns_due table.old.turns.lanes }
    ensures knocked { IfSome (listener_place (event_token event.now).0) (λ place.
        gate.new.acceptors ≡ with_acceptor place knocked gate.old.acceptors) }
    ensures control { (event_token event.now).0 ≡ 2 ^ 64 - 65 →
        IsKnocked gate.old.control gate.new.control }
    ensures told { (event_token event.now).0 < 2 ^ 64 - 65 →
        IsInformed (event_token event.now).0 (wakes_reader event.now) (wakes_writer event.now)
        table.old.turns table.new.turns }
{
    let Token(token) = event.token();
    if let Some(place) = place_of(token) {
        gate.acceptors.knocks(place);
    } else if token == CONTROL {
        knock(&mut gate.control);
    } else {
        report(event, table, desk);
    }
}

/// Tells a connection what an event says of its socket.
fn report(event: &Event, table: &mut Table, desk: &mut ControlTable)
    requires { IsTableKept table.old }
    ensures kept { IsTableKept table.new }
    ensures ids { table.new.ids ≡ table.old.ids }
    ensures peers { table.new.peers ≡ table.old.peers }
    ensures due { turns_due table.new.turns.lanes ≡ turns_due table.old.turns.lanes }
    ensures told { IsInformed (event_token event.now).0 (wakes_reader event.now)
        (wakes_writer event.now) table.old.turns table.new.turns }
{
    let Token(token) = event.token();
    let readable = event.is_readable() || event.is_read_closed() || event.is_error();
    let writable = event.is_writable() || event.is_write_closed() || event.is_error();
    table.is_ready(token as u64, readable, writable);
    desk.is_ready(token as u64);
}

/// Control connections may wait to be accepted.
fn knock(entrance: &mut Option<Entrance>)
    ensures { IsKnocked entrance.old entrance.new }
{
    if let Some(entrance) = entrance {
        entrance.acceptor.knocks();
    }
}

/// Whether a control connection may be accepted now.
fn may_accept(entrance: &Option<Entrance>, now: Instant) -> bool
    ensures { IsTrue result ↔ IsSomeAnd entrance.now (λ entrance. MayAccept entrance.acceptor now true) }
{
    match entrance {
        Some(entrance) => entrance.acceptor.may_accept(now, true),
        None => false,
    }
}

impl EventLoop {
    /// Begins to listen for connections.
    fn open<A: Arrivals, R: Net + Clock + AllocGlobal>(
        rt: &R,
        arrivals: &A,
        control: Option<TcpListener>,
    ) -> Result<EventLoop, ServeFault> {
        let poll = Poll::new(rt)?;
        arrivals.register(&poll)?;
        let control = match control {
            Some(listener) => Some(Entrance::open(&poll, listener, Token(CONTROL))?),
            None => None,
        };
        Ok(EventLoop {
            poll,
            acceptors: Acceptors::new(rt.alloc(), arrivals.len())?,
            control,
            swept: Instant::now(rt)?,
            watch: Watch::new(rt.alloc()),
            ending: Ending::new(),
        })
    }

    /// Serves, a round after the other, until that is over.
    fn serve<S: Store, A: Arrivals + Drop, F: Forget, R: Clock + CpuClock + Log, C: Control<S>>(
        &mut self,
        rt: &R,
        arrivals: &mut Option<A>,
        events: &mut Events,
        table: &mut Table,
        desk: &mut ControlTable,
        limits: &Limits,
        lobby: &mut Lobby<S>,
        forgets: &mut F,
        answers: &mut C,
    ) -> Result<(), ServeFault>
        requires kept { IsTableKept table.old }
        requires over { turns_due table.old.turns.lanes ≡ 0 }
        ensures served { ServesUnder (IsUnderSome A.came A.secret_at arrivals.old
            lobby.old.settings.secret) table.old table.new lobby.old lobby.new }
        ensures let_go { LetsGo (F.forgot forgets.old) (F.forgot forgets.new) table.old table.new
            lobby.old lobby.new }
    {
        gate_flow::laws::gateways_are_hosted();
        'rounds: for _ in 0..u64::MAX {
            if self.round(
                rt, arrivals, events, table, desk, limits, lobby, forgets, answers,
            )? {
                return Ok(());
            }
        }
        Ok(())
    }

    /// One round: what is ready is marked, some are accepted, and those that have a turn to come have it. It is said
    /// whether serving is over.
    fn round<S: Store, A: Arrivals + Drop, F: Forget, R: Clock + CpuClock + Log, C: Control<S>>(
        &mut self,
        rt: &R,
        arrivals: &mut Option<A>,
        events: &mut Events,
        table: &mut Table,
        desk: &mut ControlTable,
        limits: &Limits,
        lobby: &mut Lobby<S>,
        forgets: &mut F,
        answers: &mut C,
    ) -> Result<bool, ServeFault>
        requires kept { IsTableKept table.old }
        requires over { turns_due table.old.turns.lanes ≡ 0 }
        ensures served { ServesUnder (IsUnderSome A.came A.secret_at arrivals.old
            lobby.old.settings.secret) table.old table.new lobby.old lobby.new }
        ensures let_go { LetsGo (F.forgot forgets.old) (F.forgot forgets.new) table.old table.new
            lobby.old lobby.new }
        ensures over { turns_due table.new.turns.lanes ≡ 0 }
        ensures listens { (arrivals.new ≡ arrivals.old) ⊎ (arrivals.new ≡ None) }
    {
        gate_flow::laws::gateways_are_hosted();
        let time = self.time_to_wait(arrivals.is_some(), table, Instant::now(rt)?);
        self.poll.poll(events, Some(time))?;
        mark(events, self, table, desk);
        let now = Instant::now(rt)?;
        self.accept_some(rt, arrivals, table, lobby, forgets, now);
        self.accept_control(table, desk, now);
        table.round(rt, lobby, forgets, now);
        desk.round(answers, &table.tools.counts, lobby.gateway());
        self.sweep(rt, table, desk, lobby, forgets, now);
        Ok(self.is_over(rt, arrivals, table, desk, limits, lobby, forgets, now))
    }

    /// How long it may be waited for sockets: not at all while a turn is to come, or a connection may be accepted.
    fn time_to_wait(&self, listens: bool, table: &Table, now: Instant) -> Duration {
        if table.has_turns()
            || table.may_resume()
            || (listens && self.acceptors.may_accept(now, table.has_place()))
            || may_accept(&self.control, now)
        {
            Duration::ZERO
        } else {
            tick()
        }
    }

    /// Accepts some of those that wait, while there is room.
    fn accept_some<S: Store, A: Arrivals, F: Forget, R: Log>(
        &mut self,
        rt: &R,
        arrivals: &Option<A>,
        table: &mut Table,
        lobby: &mut Lobby<S>,
        forgets: &mut F,
        now: Instant,
    )
        requires { IsTableKept table.old }
        ensures served { ServesUnder (IsUnderSome A.came A.secret_at arrivals.now
            lobby.old.settings.secret) table.old table.new lobby.old lobby.new }
        ensures let_go { LetsGo (F.forgot forgets.old) (F.forgot forgets.new) table.old table.new
            lobby.old lobby.new }
        ensures due { turns_due table.new.turns.lanes ≡ turns_due table.old.turns.lanes }
    {
        gate_flow::laws::gateways_are_hosted();
        let Some(arrivals) = arrivals else {
            return;
        };
        'attempts: for _ in 0..ACCEPTS {
            if !self.accept_one(rt, arrivals, table, lobby, forgets, now) {
                return;
            }
        }
    }

    /// Accepts one connection, at the acceptor whose turn it is, and says whether one might be accepted at any. It is opened
    /// under the secret of the listener that it came by.
    fn accept_one<S: Store, A: Arrivals, F: Forget, R: Log>(
        &mut self,
        rt: &R,
        arrivals: &A,
        table: &mut Table,
        lobby: &mut Lobby<S>,
        forgets: &mut F,
        now: Instant,
    ) -> bool
        requires { IsTableKept table.old }
        ensures served { ServesUnder (IsUnder (A.came arrivals.now) (A.secret_at arrivals.now)
            lobby.old.settings.secret) table.old table.new lobby.old lobby.new }
        ensures let_go { LetsGo (F.forgot forgets.old) (F.forgot forgets.new) table.old table.new
            lobby.old lobby.new }
        ensures due { turns_due table.new.turns.lanes ≡ turns_due table.old.turns.lanes }
    {
        gate_flow::laws::gateways_are_hosted();
        let Some(place) = self.acceptors.next(now, table.has_place()) else {
            return false;
        };
        let arrival = arrivals.accept(place, table.coming());
        self.acceptors.came(place, arrival.came(), now);
        match arrival {
            Arrival::Socket(stream, peer) => {
                let secret = arrivals.secret(place);
                table.welcome(&self.poll, stream, peer, secret, lobby, forgets, now);
            }
            Arrival::Gone | Arrival::Nobody => {}
            Arrival::Starved => {
                warn!(rt; "accept paused: the system gives no socket");
                table.tools.counts.starves();
            }
        }
        true
    }

    /// Accepts the control connections that wait, as many as may be open.
    fn accept_control(&mut self, table: &mut Table, desk: &mut ControlTable, now: Instant)
        requires { IsTableKept table.old }
        ensures kept { IsTableKept table.new }
        ensures next { table.old.ids.next ≤ table.new.ids.next }
        ensures peers { table.new.peers ≡ table.old.peers }
        ensures turns { table.new.turns ≡ table.old.turns }
    {
        let Some(entrance) = &mut self.control else {
            return;
        };
        'attempts: for _ in 0..CONTROL_ACCEPTS {
            if !accept_call(entrance, &self.poll, table, desk, now) {
                return;
            }
        }
    }

    /// Closes those whose time is over, and tells of stores that failed, now and then.
    fn sweep<S: Store, F: Forget, R: Log>(
        &mut self,
        rt: &R,
        table: &mut Table,
        desk: &mut ControlTable,
        lobby: &mut Lobby<S>,
        forgets: &mut F,
        now: Instant,
    )
        requires { IsTableKept table.old }
        ensures served { Serves table.old table.new lobby.old lobby.new }
        ensures let_go { LetsGo (F.forgot forgets.old) (F.forgot forgets.new) table.old table.new
            lobby.old lobby.new }
        ensures due { turns_due table.new.turns.lanes ≡ turns_due table.old.turns.lanes }
    {
        gate_flow::laws::gateways_are_hosted();
        if now.duration_since(self.swept) < tick() {
            return;
        }
        self.swept = now;
        table.sweep(rt, lobby, forgets, now);
        desk.sweep(now);
        self.watch.look(rt, lobby.gateway());
    }

    /// Whether serving is over: all that are to be served were, or all was said after it was to stop, or the time for
    /// that is over. A stop waits for no control connection, and from then on there are no listeners.
    fn is_over<S: Store, A: Arrivals + Drop, F: Forget, R: Log>(
        &mut self,
        rt: &R,
        arrivals: &mut Option<A>,
        table: &mut Table,
        desk: &ControlTable,
        limits: &Limits,
        lobby: &mut Lobby<S>,
        forgets: &mut F,
        now: Instant,
    ) -> bool
        requires { IsTableKept table.old }
        ensures served { Serves table.old table.new lobby.old lobby.new }
        ensures let_go { LetsGo (F.forgot forgets.old) (F.forgot forgets.new) table.old table.new
            lobby.old lobby.new }
        ensures due { turns_due table.new.turns.lanes ≡ turns_due table.old.turns.lanes }
        ensures listens { (arrivals.new ≡ arrivals.old) ⊎ (arrivals.new ≡ None) }
    {
        gate_flow::laws::gateways_are_hosted();
        if self.ending.is_asked() {
            return self.ending.is_over(table.len(), now, limits.stopping);
        }
        if desk.stops {
            info!(rt; "stopping: {} connections are open", table.tools.counts.open);
            self.ending.asks(now);
            *arrivals = None;
            table.stop_all(lobby, forgets);
            return table.is_empty();
        }
        match limits.served {
            Some(most) => table.tools.counts.opened >= most && table.is_empty(),
            None => false,
        }
    }
}

fn tick() -> Duration {
    Duration::from_millis(TICK_MILLIS)
}

/// Accepts one control connection, and says whether there may be more.
fn accept_call(
    entrance: &mut Entrance,
    poll: &Poll,
    table: &mut Table,
    desk: &mut ControlTable,
    now: Instant,
) -> bool
    requires { IsTableKept table.old }
    ensures kept { IsTableKept table.new }
    ensures next { table.old.ids.next ≤ table.new.ids.next }
    ensures peers { table.new.peers ≡ table.old.peers }
    ensures turns { table.new.turns ≡ table.old.turns }
{
    if !entrance.acceptor.may_accept(now, true) {
        return false;
    }
    match entrance.accept(now) {
        Arrival::Socket(mut stream, _) => {
            let Some(id) = table.new_id() else {
                return false;
            };
            if register(poll, id, &mut stream) {
                desk.take_in(id, stream, now);
            }
            true
        }
        Arrival::Gone => true,
        Arrival::Nobody | Arrival::Starved => false,
    }
}
