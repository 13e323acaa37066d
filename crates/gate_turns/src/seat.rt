//! One connection's place.
ghost use Rattle.std.specs.Prelude.{◌≡◌, if◌then◌else◌, None};
ghost use Rattle.gate_turns.specs.Seat.{IsSeatSettled, IsReported, IsTurned, new_seat, idle_since, lane_for, lane_in, is_woken, is_closing};
ghost use Rattle.gate_turns.specs.declared.seat.Place.TheVariants as place;

/// For how many turns after a long step a connection is held to be a slow one.
const SLOW_TURNS: u8 = 255;

/// Which turns a connection waits for.
#[derive(Clone, Copy, PartialEq, Eq)]
pub enum Lane {
    /// Those of connections whose last steps were quick.
    Quick,
    /// Those of connections that had no reply yet.
    Fresh,
    /// Those of connections of which one of the last steps was long.
    Slow,
}

/// Which side of a socket is waited for.
#[derive(Clone, Copy, PartialEq, Eq)]
pub enum Side {
    /// Bytes of the peer.
    Read,
    /// Room at the peer.
    Write,
}

/// Where an open connection is. It is always in exactly one place.
#[derive(Clone, Copy, PartialEq, Eq)]
pub enum Place {
    /// It stands in a lane, and has a turn to come.
    Queued(Lane),
    /// It has its turn now.
    Turn,
    /// It waits for its socket.
    Awaits(Side),
}

/// How a turn ended.
#[derive(Clone, Copy, PartialEq, Eq)]
pub enum End {
    /// Its socket lets it go on, and others come first.
    Again,
    /// It waits for this side of its socket, which would block.
    Blocked(Side),
    /// All was said and its peer sends no more, or its socket failed, or memory was refused.
    Over,
}

/// What came of a turn.
#[derive(Clone, Copy, PartialEq, Eq)]
pub struct Turned {
    pub end: End,
    /// Whether a step of the gateway was long.
    pub long: bool,
    /// Whether it has a reply, or a part of one.
    pub replied: bool,
    /// Whether it is still to be told something, or may not have taken all of it.
    pub owed: bool,
    /// Whether nothing of a next request has come.
    pub idle: bool,
}

/// One connection's place, and what is known of its socket.
#[derive(Clone, Copy, PartialEq, Eq)]
pub struct Seat {
    /// Its peer's address, as a number that others of the same address have too.
    pub address: u64,
    pub place: Place,
    /// Whether its socket was reported readable, and hasn't blocked since.
    pub readable: bool,
    /// Whether its socket was reported writable, and hasn't blocked since.
    pub writable: bool,
    /// For how many turns it is held to be a slow one.
    pub slow: u8,
    /// Whether it had no reply yet.
    pub fresh: bool,
    /// Whether it is still to be told something, or may not have taken all of it.
    pub owed: bool,
    /// Where nothing of a next request had come as its last turn ended: after how many turns of all that was.
    pub idle: Option<u64>,
}

impl Turned {
    /// Whether its connection is to be closed, where serving is to stop or not: it is over, or nothing is owed to it then.
    pub fn closes(&self, stopping: bool) -> bool
        ensures { result ≡ is_closing self.now stopping }
    {
        let over = match self.end {
            End::Over => true,
            End::Again | End::Blocked(_) => false,
        };
        over || (stopping && !self.owed)
    }
}

impl Seat {
    /// A connection of an address that was just accepted: it stands among the fresh ones, and its socket may be called.
    pub fn new(address: u64) -> Seat
        ensures { result ≡ new_seat address }
    {
        Seat {
            address,
            place: Place::Queued(Lane::Fresh),
            readable: true,
            writable: true,
            slow: 0,
            fresh: true,
            owed: false,
            idle: None,
        }
    }

    /// Since after how many turns it is idle: it waits for a request of which nothing has come, and nothing is owed to it.
    pub fn idle_since(&self) -> Option<u64>
        ensures { result ≡ idle_since self.now }
    {
        match self.place {
            Place::Awaits(_) if !self.owed => self.idle,
            _ => None,
        }
    }

    /// Which turns it waits for.
    pub fn lane(&self) -> Lane
        ensures { result ≡ lane_for self.now.slow self.now.fresh }
    {
        if self.slow > 0 {
            Lane::Slow
        } else if self.fresh {
            Lane::Fresh
        } else {
            Lane::Quick
        }
    }

    /// Its socket was reported ready. Where it waited for that, it stands in a lane from now on, which is given.
    pub fn report(&mut self, readable: bool, writable: bool) -> Option<Lane>
        requires { IsSeatSettled self.old }
        ensures told { IsReported self.old self.new readable writable }
        ensures settled { IsSeatSettled self.new }
        ensures woken { result ≡ (if is_woken self.old.place self.new then lane_in self.new.place
            else None) }
    {
        self.readable = self.readable || readable;
        self.writable = self.writable || writable;
        let ready = match self.place {
            Place::Awaits(Side::Read) => self.readable,
            Place::Awaits(Side::Write) => self.writable,
            Place::Queued(_) | Place::Turn => false,
        };
        if !ready {
            return None;
        }
        let lane = self.lane();
        self.place = Place::Queued(lane);
        Some(lane)
    }

    /// It has its turn now.
    pub fn begin(&mut self)
        ensures { self.new ≡ record self.old { place = place.Turn } }
    {
        self.place = Place::Turn;
    }

    /// Its turn is over, after so many turns of all. Where it goes on it stands in a lane from now on, which is given.
    pub fn turns(&mut self, turned: Turned, turns: u64) -> Option<Lane>
        ensures turned { IsTurned turns self.old turned self.new }
        ensures settled { IsSeatSettled self.new }
        ensures lane { result ≡ lane_in self.new.place }
    {
        self.slow = if turned.long {
            SLOW_TURNS
        } else {
            self.slow.saturating_sub(1)
        };
        self.fresh = self.fresh && !turned.replied;
        self.owed = turned.owed;
        self.idle = if turned.idle { Some(turns) } else { None };
        match turned.end {
            End::Again => {
                let lane = self.lane();
                self.place = Place::Queued(lane);
                Some(lane)
            }
            End::Blocked(side) => {
                match side {
                    Side::Read => self.readable = false,
                    Side::Write => self.writable = false,
                }
                self.place = Place::Awaits(side);
                None
            }
            End::Over => {
                self.place = Place::Turn;
                None
            }
        }
    }
}
