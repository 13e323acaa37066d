//! One connection with its socket.
ghost use Rattle.std.specs.Prelude.{◌≡◌, ◌≢◌, ◌+◌, ◌<◌, ◌≤◌, ◌-◌, ◌^◌, ◌↔◌, if◌then◌else◌, min, IsTrue, IsFalse, IfSome, Some, None, [], false, true};
ghost use Rattle.gate_core.specs.ConnectionState.{connection_at, waiting};
ghost use Rattle.gate_core.specs.Kept.{kept_in};
ghost use Rattle.gate_base.specs.Holds.{held_while};
ghost use Rattle.gate_flow.specs.declared.want.Want.TheVariants as want;
ghost use Rattle.gate_turns.specs.declared.seat.Side.TheVariants as side;

use crate::tools::Tools;
use gate_base::{Holds, Prospect};
use gate_flow::{Flow, FlowFault, Lobby, Step, Want};
use gate_limits::{LONG, Memory, Pace, Stopwatch, Way};
use gate_turns::{End, Seat, Side, Turned};
use mio::net::TcpStream;
use share_store::Store;
use std::io::{ErrorKind, Read};
use std::net::Shutdown;
use std::time::{Clock, CpuClock, Duration, Instant};

/// How often a socket is called in one turn.
const CALLS: u32 = 4;

/// From how many bytes on who takes a reply is hurried while memory is used up.
const HURRIED_REPLY: usize = 1_048_576;

/// From how many milliseconds of processor time on a step of the gateway is long.
const LONG_MILLIS: u128 = 2;

/// A time, and how much processor time the loop had used by then.
#[derive(Clone, Copy)]
pub struct Moment {
    pub now: Instant,
    used: Duration,
}

impl Moment {
    /// This time.
    pub fn at<R: CpuClock>(rt: &R, now: Instant) -> Moment {
        Moment {
            now,
            used: rt.thread_cpu_time().unwrap_or(Duration::ZERO),
        }
    }

    /// The processor time that was used since counts for no step.
    pub fn skips<R: CpuClock>(&mut self, rt: &R) {
        *self = Moment::at(rt, self.now);
    }

    /// Becomes the time after a step, and says whether that step was long. Time in which the system ran others isn't
    /// counted.
    fn passes<R: Clock + CpuClock>(&mut self, rt: &R) -> bool {
        let before = self.used;
        *self = Moment::at(rt, Instant::now(rt).unwrap_or(self.now));
        self.used.as_millis() >= before.as_millis().saturating_add(LONG_MILLIS)
    }
}

/// What came of a turn, and the fault that ended it, if one did.
#[derive(Clone, Copy, PartialEq, Eq)]
pub struct Outcome {
    pub turned: Turned,
    pub fault: Option<FlowFault>,
}

/// What came of one call of a socket, and of the gateway after it.
#[derive(Clone, Copy, PartialEq, Eq)]
struct Stepped {
    /// How the turn ends. It goes on where this is `None`.
    end: Option<End>,
    /// Whether the gateway took long.
    long: bool,
    /// Whether it has a reply, or a part of one.
    replied: bool,
    fault: Option<FlowFault>,
}

/// One connection with its socket.
#[derive(Drop)]
pub struct Peer {
    stream: TcpStream,
    flow: Flow,
    pace: Pace,
    stopwatch: Stopwatch,
    /// Whether nothing more is said to it, and what it still sends is dropped.
    lingers: bool,
    /// How many bytes were dropped.
    dropped: u64,
    /// How many bytes were kept of it when the gateway was last called: of its request, or by its reply.
    kept: usize,
    /// What the reply holds that was made last.
    holds: Holds,
    /// Whether it had to wait for memory when it was to be read last.
    paused: bool,
}

impl Outcome {
    /// There is nothing to call.
    pub fn none() -> Outcome {
        Outcome {
            turned: Turned {
                end: End::Over,
                long: false,
                replied: false,
                owed: false,
                idle: false,
            },
            fault: None,
        }
    }
}

impl Stepped {
    /// The turn goes on.
    fn goes_on() -> Stepped
        ensures { result.end ≡ None }
    {
        Stepped {
            end: None,
            long: false,
            replied: false,
            fault: None,
        }
    }

    /// The turn ends so.
    fn ends(end: End) -> Stepped
        ensures { result.end ≡ Some end }
    {
        Stepped {
            end: Some(end),
            long: false,
            replied: false,
            fault: None,
        }
    }

    /// The turn ends behind a step of a long request, of which more are left: others have their turns first.
    fn waits() -> Stepped
        ensures { result.end ≡ Some End.Again }
    {
        Stepped {
            end: Some(End::Again),
            long: true,
            replied: false,
            fault: None,
        }
    }

    /// The turn ends at a fault.
    fn fails(fault: FlowFault) -> Stepped
        ensures { result.end ≡ Some End.Over }
    {
        Stepped {
            end: Some(End::Over),
            long: false,
            replied: false,
            fault: Some(fault),
        }
    }
}

impl Peer {
    ghost use Rattle.gate_limits.specs.Late.{IsLate, IsPast, turned_at};
    ghost use Rattle.gate_limits.specs.Memory.{is_queued};
    ghost use Rattle.gate_limits.specs.declared.limits.Limits.{Limits};
    ghost use Rattle.gate_limits.specs.declared.pace.Way.TheVariants.{Sends};
    ghost use Rattle.gate_poll.specs.Peers.{owes, is_idle, timed_by, AreHurried, EndsFor, IsGoing, IsHurried, IsStepped};

    /// A socket that was just accepted.
    pub fn new(stream: TcpStream, flow: Flow, now: Instant) -> Peer
        ensures flow { result.flow ≡ flow }
        ensures lingers { result.lingers ≡ false }
    {
        Peer {
            stream,
            flow,
            pace: Pace::new(now),
            stopwatch: Stopwatch::new(),
            lingers: false,
            dropped: 0,
            kept: 0,
            holds: Holds::nothing(),
            paused: false,
        }
    }

    /// Whether its time is over. It isn't while it waits for memory, and while memory is used up more bytes a second are
    /// expected of one that is hurried.
    pub fn is_late(&self, now: Instant, tools: &Tools) -> bool
        ensures waits { self.now.lingers ≡ false →
            IsTrue (is_queued self.now.flow.id tools.now.memory.waiting.items) → result ≡ false }
        ensures hurried { self.now.lingers ≡ false →
            IsFalse (is_queued self.now.flow.id tools.now.memory.waiting.items) →
            tools.now.memory.most ≤ tools.now.memory.kept →
            IsHurried tools.now.memory self.now → (hurried : Limits)
            × AreHurried tools.now.limits hurried
            × (IsTrue result ↔ IsLate self.now.pace hurried now) }
    {
        let limits = &tools.limits;
        if self.lingers {
            self.pace.is_over(now, limits.linger)
        } else if tools.memory.waits(self.flow.id()) {
            false
        } else if tools.memory.is_full() && self.is_hurried(&tools.memory) {
            self.pace.is_late(now, &limits.while_full())
        } else {
            self.pace.is_late(now, limits)
        }
    }

    /// Whether it is hurried while memory is used up: where much is kept of its request, or very much by its reply. Much is
    /// enough of the one that goes on although memory is used up, since the others wait for it.
    fn is_hurried(&self, memory: &Memory) -> bool
        ensures { IsTrue result ↔ IsHurried memory.now self.now }
    {
        let least = if self.flow.want() == Want::Read || memory.is_first(self.flow.id()) {
            LONG
        } else {
            HURRIED_REPLY
        };
        self.kept >= least
    }

    /// How many bytes were kept of it when the gateway was last called: of its request, or by its reply.
    pub fn kept(&self) -> usize
        ensures { result ≡ self.now.kept }
    {
        self.kept
    }

    /// Whether all was said to it, and it is only waited until it ends its side.
    pub fn is_done(&self) -> bool
        ensures { result ≡ self.now.lingers }
    {
        self.lingers
    }

    /// Whether it is still to be told something, or may not have taken all of it.
    fn is_owed(&self) -> bool
        ensures { result ≡ owes self.now }
    {
        match self.flow.want() {
            Want::Read => self.lingers,
            Want::Advance | Want::Write | Want::Nothing => true,
        }
    }

    /// Whether it waits for a request of which nothing has come.
    fn is_idle(&self) -> bool
        ensures { result ≡ is_idle self.now }
    {
        match self.flow.want() {
            Want::Read => !self.lingers && self.kept == 0 && !self.stopwatch.runs(),
            Want::Advance | Want::Write | Want::Nothing => false,
        }
    }

    /// Its flow, for the gateway to give up.
    pub fn into_flow(self) -> Flow
        ensures { result ≡ self.flow }
    {
        self.flow
    }

    /// Has its turn. `moment` becomes the time after the last step of the gateway, and the time in which bytes were dropped
    /// counts for no step.
    pub fn goes_on<S: Store, R: Clock + CpuClock>(
        &mut self,
        rt: &R,
        lobby: &mut Lobby<S>,
        tools: &mut Tools,
        moment: &mut Moment,
        seat: &Seat,
    ) -> Outcome
        ensures stepped { IsStepped self.old self.new (Some result.turned.end) lobby.old lobby.new }
        ensures owed { result.turned.owed ≡ owes self.new }
        ensures idle { result.turned.idle ≡ is_idle self.new }
    {
        gate_flow::laws::gateways_are_hosted();
        if self.lingers {
            let outcome = self.drain(tools, moment.now);
            moment.skips(rt);
            return outcome;
        }
        self.turn(rt, lobby, tools, moment, seat)
    }

    /// Its socket is called a few times, where what is known of it allows that, and no more after a long step.
    fn turn<S: Store, R: Clock + CpuClock>(
        &mut self,
        rt: &R,
        lobby: &mut Lobby<S>,
        tools: &mut Tools,
        moment: &mut Moment,
        seat: &Seat,
    ) -> Outcome
        ensures stepped { IsStepped self.old self.new (Some result.turned.end) lobby.old lobby.new }
        ensures owed { result.turned.owed ≡ owes self.new }
        ensures idle { result.turned.idle ≡ is_idle self.new }
    {
        gate_flow::laws::gateways_are_hosted();
        let mut replied = false;
        'calls: for _ in 0..CALLS {
            let step = self.step(rt, lobby, tools, moment, seat);
            replied = replied || step.replied;
            if let Some(end) = step.end {
                let turned = self.turned(end, step.long, replied);
                return Outcome {
                    turned,
                    fault: step.fault,
                };
            }
        }
        let turned = self.turned(End::Again, false, replied);
        Outcome {
            turned,
            fault: None,
        }
    }

    /// What came of a turn that ended so.
    fn turned(&self, end: End, long: bool, replied: bool) -> Turned
        ensures end { result.end ≡ end }
        ensures owed { result.owed ≡ owes self.now }
        ensures idle { result.idle ≡ is_idle self.now }
    {
        Turned {
            end,
            long,
            replied,
            owed: self.is_owed(),
            idle: self.is_idle(),
        }
    }

    /// Does what its flow wants, once.
    fn step<S: Store, R: Clock + CpuClock>(
        &mut self,
        rt: &R,
        lobby: &mut Lobby<S>,
        tools: &mut Tools,
        moment: &mut Moment,
        seat: &Seat,
    ) -> Stepped
        ensures { IsStepped self.old self.new result.end lobby.old lobby.new }
    {
        gate_flow::laws::gateways_are_hosted();
        match self.flow.want() {
            Want::Read => self.read(rt, lobby, tools, moment, seat.readable),
            Want::Write => self.write(rt, lobby, tools, moment, seat.writable),
            Want::Advance => self.advance(rt, lobby, tools, Want::Advance, moment),
            Want::Nothing => Stepped::ends(self.close(moment.now)),
        }
    }

    /// Reads once, if its socket may be called.
    fn read<S: Store, R: Clock + CpuClock>(
        &mut self,
        rt: &R,
        lobby: &mut Lobby<S>,
        tools: &mut Tools,
        moment: &mut Moment,
        readable: bool,
    ) -> Stepped
        requires { self.old.flow.want ≡ want.Read }
        ensures { IsStepped self.old self.new result.end lobby.old lobby.new }
    {
        gate_flow::laws::gateways_are_hosted();
        if !readable {
            return Stepped::ends(End::Blocked(Side::Read));
        }
        if let Ok(false) = tools.memory.admits(self.flow.id(), self.kept) {
            self.paused = true;
            return Stepped::ends(End::Blocked(Side::Read));
        }
        self.resumes(moment.now);
        match self.flow.read_from(&mut &self.stream) {
            Ok(Step::Went(count)) => {
                self.pace.moves(moment.now, count, &tools.limits);
                tools.counts.reads(count);
                self.advance(rt, lobby, tools, Want::Read, moment)
            }
            Ok(Step::Interrupted) => Stepped::goes_on(),
            Ok(Step::Blocked) => Stepped::ends(End::Blocked(Side::Read)),
            Err(fault) => Stepped::fails(fault),
        }
    }

    /// It is read from, after it waited for memory or not. Where it did its pace counts anew, since it was not its own time.
    fn resumes(&mut self, now: Instant)
        ensures flow { self.new.flow ≡ self.old.flow }
        ensures lingers { self.new.lingers ≡ self.old.lingers }
        ensures pace { self.new.pace
            ≡ (if self.old.paused then turned_at Sends now else self.old.pace) }
        ensures paused { self.new.paused ≡ false }
    {
        if self.paused {
            self.pace.turns(now, Way::Sends);
            self.paused = false;
        }
    }

    /// Writes once, if its socket may be called.
    fn write<S: Store, R: Clock + CpuClock>(
        &mut self,
        rt: &R,
        lobby: &mut Lobby<S>,
        tools: &mut Tools,
        moment: &mut Moment,
        writable: bool,
    ) -> Stepped
        requires { self.old.flow.want ≡ want.Write }
        ensures { IsStepped self.old self.new result.end lobby.old lobby.new }
    {
        gate_flow::laws::gateways_are_hosted();
        if !writable {
            return Stepped::ends(End::Blocked(Side::Write));
        }
        match self.flow.write_to(&mut &self.stream) {
            Ok(Step::Went(count)) => {
                self.pace.moves(moment.now, count, &tools.limits);
                tools.counts.writes(count);
                self.advance(rt, lobby, tools, Want::Write, moment)
            }
            Ok(Step::Interrupted) => Stepped::goes_on(),
            Ok(Step::Blocked) => {
                self.pace.blocks(moment.now, &tools.limits);
                Stepped::ends(End::Blocked(Side::Write))
            }
            Err(fault) => Stepped::fails(fault),
        }
    }

    /// Calls the gateway, where that is what is to be done next. A reply that it made is counted, with the time of its
    /// request.
    fn advance<S: Store, R: Clock + CpuClock>(
        &mut self,
        rt: &R,
        lobby: &mut Lobby<S>,
        tools: &mut Tools,
        before: Want,
        moment: &mut Moment,
    ) -> Stepped
        ensures { IsStepped self.old self.new result.end lobby.old lobby.new }
    {
        gate_flow::laws::gateways_are_hosted();
        if self.flow.want() != Want::Advance {
            return Stepped::goes_on();
        }
        self.stopwatch.sees(self.flow.at_hand(), moment.now);
        if lobby.waits(&self.flow) {
            return self.brings(rt, lobby, tools, before, moment);
        }
        self.begins(rt, lobby, tools, before, moment)
    }

    /// The same, where nothing waits of an earlier reply. What its next request needs is prepared first. While the memory for
    /// connections is used up none is carried out whose reply would hold much, but for one: the others wait until they are
    /// called.
    fn begins<S: Store, R: Clock + CpuClock>(
        &mut self,
        rt: &R,
        lobby: &mut Lobby<S>,
        tools: &mut Tools,
        before: Want,
        moment: &mut Moment,
    ) -> Stepped
        requires { self.old.flow.want ≡ want.Advance }
        ensures stepped { IsStepped self.old self.new result.end lobby.old lobby.new }
        ensures queued { result.end ≡ Some (End.Blocked side.Read) →
            IsTrue (is_queued self.old.flow.id tools.new.memory.waiting.items) }
    {
        gate_flow::laws::gateways_are_hosted();
        let id = self.flow.id();
        let may_hold = tools.memory.has_room_for(id);
        if !may_hold && tools.memory.waits(id) {
            lobby.let_go_of(id);
            return Stepped::ends(End::Blocked(Side::Read));
        }
        match lobby.prepare(&self.flow, may_hold) {
            Prospect::Waits => {
                moment.skips(rt);
                Stepped::waits()
            }
            Prospect::Ready(holds) => {
                if let Ok(false) = tools.memory.admits(id, holds.len()) {
                    lobby.let_go_of(id);
                    moment.skips(rt);
                    return Stepped::ends(End::Blocked(Side::Read));
                }
                self.holds = holds;
                self.brings(rt, lobby, tools, before, moment)
            }
        }
    }

    /// The same, once nothing is left to be prepared.
    fn brings<S: Store, R: Clock + CpuClock>(
        &mut self,
        rt: &R,
        lobby: &mut Lobby<S>,
        tools: &mut Tools,
        before: Want,
        moment: &mut Moment,
    ) -> Stepped
        requires { self.old.flow.want ≡ want.Advance }
        ensures stepped { IsStepped self.old self.new result.end lobby.old lobby.new }
        ensures goes { IfSome result.end IsGoing }
    {
        gate_flow::laws::gateways_are_hosted();
        let replies = lobby.gateway().tally();
        if let Err(fault) = lobby.advance(&mut self.flow) {
            return Stepped::fails(fault);
        }
        lobby.let_go_of(self.flow.id());
        let long = moment.passes(rt);
        let is_answered = lobby.gateway().tally() != replies;
        self.times(is_answered, tools, moment.now);
        let want = self.flow.want();
        self.counts(self.kept_by(lobby), tools);
        self.turns(before, want, moment.now);
        Stepped {
            end: if long { Some(End::Again) } else { None },
            long,
            replied: want != Want::Read,
            fault: None,
        }
    }

    /// Where its request was answered, how long that took is counted.
    fn times(&mut self, is_answered: bool, tools: &mut Tools, now: Instant)
        ensures flow { self.new.flow ≡ self.old.flow }
        ensures lingers { self.new.lingers ≡ self.old.lingers }
        ensures answered { IsTrue is_answered → tools.new.counts.latencies
            ≡ timed_by self.old.stopwatch now tools.old.counts.latencies }
        ensures waits { IsFalse is_answered → (tools.new.counts ≡ tools.old.counts)
            × (self.new.stopwatch ≡ self.old.stopwatch) }
    {
        if is_answered && let Some(begun) = self.stopwatch.stops() {
            tools
                .counts
                .answers(begun.kind, now.duration_since(begun.since));
        }
    }

    /// How many bytes are kept of it: those of a request that isn't whole yet, or what its reply holds while it waits.
    fn kept_by<S: Store>(&self, lobby: &Lobby<S>) -> usize
        ensures sends { waiting lobby.now self.now.flow.id ≡ []
            → result ≡ min (kept_in (connection_at lobby.now self.now.flow.id)) (2 ^ 64 - 1) }
        ensures takes { waiting lobby.now self.now.flow.id ≢ []
            → result ≡ min (held_while self.now.holds.shares self.now.holds.text
            (min (kept_in (connection_at lobby.now self.now.flow.id)) (2 ^ 64 - 1))) (2 ^ 64 - 1) }
    {
        let kept = lobby.kept(&self.flow);
        if lobby.waits(&self.flow) {
            self.holds.held_while(kept)
        } else {
            kept
        }
    }

    /// So many bytes are kept of it now. Where they are few it goes on as others do, and waits for no memory.
    fn counts(&mut self, kept: usize, tools: &mut Tools)
        ensures flow { self.new.flow ≡ self.old.flow }
        ensures lingers { self.new.lingers ≡ self.old.lingers }
        ensures kept { self.new.kept ≡ kept }
        ensures memory { tools.new.memory.kept
            ≡ min (tools.old.memory.kept - self.old.kept + kept) (2 ^ 64 - 1) }
        ensures few { kept < 16384 → tools.new.memory.first ≢ Some self.old.flow.id }
    {
        tools.memory.changes(self.kept, kept);
        self.kept = kept;
        if kept < LONG {
            tools.memory.lets_go(self.flow.id());
        }
    }

    /// Its pace counts anew where its flow turns from reading to writing, or back.
    fn turns(&mut self, before: Want, want: Want, now: Instant)
        ensures flow { self.new.flow ≡ self.old.flow }
        ensures lingers { self.new.lingers ≡ self.old.lingers }
    {
        match want {
            Want::Read if before != Want::Read => self.pace.turns(now, Way::Sends),
            Want::Write if before != Want::Write => self.pace.turns(now, Way::Takes),
            _ => {}
        }
    }

    /// Says no more, and goes on reading for a while where the peer may still send: closing a socket over bytes that
    /// weren't read would drop what the peer didn't take yet (RFC 9112, section 9.6).
    fn close(&mut self, now: Instant) -> End
        ensures flow { self.new.flow ≡ self.old.flow }
        ensures goes { IsGoing result }
    {
        if self.flow.has_ended() || self.stream.shutdown(Shutdown::Write).is_err() {
            return End::Over;
        }
        self.lingers = true;
        self.pace.turns(now, Way::Sends);
        End::Again
    }

    /// Has its turn where all was said to it: what it still sends is dropped, up to a limit of bytes and of time.
    fn drain(&mut self, tools: &mut Tools, now: Instant) -> Outcome
        requires { self.old.lingers ≡ true }
        ensures flow { self.new.flow ≡ self.old.flow }
        ensures waits { EndsFor result.turned.end self.new }
        ensures owed { result.turned.owed ≡ owes self.new }
        ensures idle { result.turned.idle ≡ is_idle self.new }
    {
        let end = self.drop_some(tools, now);
        let turned = self.turned(end, false, false);
        Outcome {
            turned,
            fault: None,
        }
    }

    /// Reads a few times, and drops what came.
    fn drop_some(&mut self, tools: &mut Tools, now: Instant) -> End
        ensures flow { self.new.flow ≡ self.old.flow }
        ensures lingers { self.new.lingers ≡ self.old.lingers }
        ensures reads { result ≢ End.Blocked side.Write }
        ensures late { IsPast self.old.pace now tools.old.limits.linger → result ≡ End.Over }
        ensures enough { tools.old.limits.rest < self.old.dropped → result ≡ End.Over }
    {
        if self.pace.is_over(now, tools.limits.linger) || self.dropped > tools.limits.rest {
            return End::Over;
        }
        'reads: for _ in 0..CALLS {
            match (&self.stream).read(&mut tools.scratch) {
                Ok(0) => return End::Over,
                Ok(count) => {
                    tools.counts.reads(count);
                    self.dropped = self.dropped.saturating_add(count as u64);
                }
                Err(error) => match error.kind() {
                    ErrorKind::WouldBlock => return End::Blocked(Side::Read),
                    ErrorKind::Interrupted => {}
                    _ => return End::Over,
                },
            }
        }
        End::Again
    }
}
