//! What a server begins with.
ghost use Rattle.std.specs.Prelude.{◌≡◌, ◌≤◌, length, IfOk, IsOkUnless};
ghost use Rattle.gate_tasks.specs.Serving.{set_up_with};

use crate::calls::MemGateway;
use crate::stores::make_stores;
use gate_core::{Gateway, GatewayFault};
use std::alloc::Global;

/// How many stores a server has, and for how many bytes each has room.
const STORES: u16 = 5;

const ROOM: u64 = 1_073_741_824;

/// Of how many shares that a server makes of a file how many give it back.
const NEEDED: u16 = 3;

const SHARES: u16 = 10;

/// The gateway of a server: any 3 of 10 shares give a file back, and they stand on five stores in memory, each with
/// room for 1,073,741,824 bytes, in which nothing stands yet. A copy of the secret, of at most 256 bytes, goes into the
/// key of each file that is stored. `NoMemory` where memory is refused, and `BadParameters` only where the secret is
/// longer.
pub fn set_up(alloc: Global, secret: &[u8]) -> Result<MemGateway, GatewayFault>
    ensures made { IfOk result (λ gateway. gateway ≡ set_up_with secret.now) }
    ensures accepted { length secret.now ≤ 256 → IsOkUnless result GatewayFault.NoMemory }
{
    let Ok(stores) = make_stores(alloc, STORES, ROOM) else {
        return Err(GatewayFault::NoMemory);
    };
    Gateway::new(alloc, NEEDED, SHARES, stores, secret)
}
