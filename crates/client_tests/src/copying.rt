//! What a stream of the gateway in memory gives at a time.
ghost use Rattle.std.specs.Prelude.{◌≡◌, ◌≤◌, ◌-◌, ◌++◌, min, take, drop, length};

/// Copies the next bytes of a reply, of which so many were sent, to the front of a buffer, and says how many: all that are
/// left, but no more than fit or than are asked for.
pub fn copy_from(reply: &[u8], sent: usize, most: usize, buf: &mut [u8]) -> usize
    ensures count { result ≡ min (min (length reply.now - sent) (length buf.old)) most }
    ensures copied { buf.new ≡ take result (drop sent reply.now) ++ drop result buf.old }
    ensures fits { result ≤ length buf.new }
    ensures asked { result ≤ most }
{
    let from = sent.min(reply.len());
    let left = &reply[from..];
    let count = left.len().min(buf.len()).min(most);
    buf[..count].copy_from_slice(&left[..count]);
    count
}
