//! A way to a server.
ghost use Rattle.std.specs.Prelude.{◌≡◌, ◌≤◌, None, length, take, IfOk, OnOk, OnErr};
ghost use Rattle.std.specs.List.{flat_map};
ghost use Rattle.redis_store.specs.Exchanges.{Talk, IsToldInPart, with_connection, with_command, with_heard};

use crate::fault::LinkFault;

/// A way to a server, with at most one connection at a time.
///
/// A call that takes longer than the link allows fails. What is written begins an exchange, and what is read until the
/// next is written belongs to it: the whole of it has its time, also where few bytes come at a time.
pub trait Link {
    /// The exchanges over the connection at hand and over those before it, where they are known.
    ghost talk: { Self → Talk } = { λ _. None };

    /// Connects anew. A connection that was there is let go.
    fn connect(&mut self) -> Result<(), LinkFault>
        ensures { OnOk result (talk self.new ≡ with_connection (talk self.old)) };

    /// Writes all the bytes of these parts, one behind the other. This begins one exchange, however many they are. Where
    /// it fails some of them may have been written.
    fn write_all(&mut self, parts: &[&[u8]]) -> Result<(), LinkFault>
        ensures told { OnOk result (talk self.new
            ≡ with_command (talk self.old) (flat_map (λ part. part.now) parts.now)) }
        ensures stopped { OnErr result (IsToldInPart (talk self.old)
            (flat_map (λ part. part.now) parts.now) (talk self.new)) };

    /// Reads bytes to the front of `room`, and says how many. None is the end.
    fn read(&mut self, room: &mut [u8]) -> Result<usize, LinkFault>
        ensures bound { IfOk result (λ count. count ≤ length room.new) }
        ensures heard { IfOk result (λ count.
            talk self.new ≡ with_heard (talk self.old) (take count room.new)) }
        ensures none { OnErr result (talk self.new ≡ talk self.old) };

    /// What was written last is waited for from now on: where its time is up by then, it may still be read what came.
    fn give_time(&mut self)
        ensures { talk self.new ≡ talk self.old };

    /// Lets the connection go, where there is one.
    fn close(&mut self)
        ensures { talk self.new ≡ talk self.old };

    /// How many seconds have passed since some moment.
    fn seconds(&mut self) -> u64
        ensures { talk self.new ≡ talk self.old };
}
