//! Connections, served one after the other.

use crate::connection::turns;
use crate::fault::ServeFault;
use gate_core::Gateway;
use gate_flow::FlowFault;
use share_store::Store;
use std::alloc::Global;
use std::net::TcpListener;

/// Serves so many connections one after the other, under the ids 1, 2, .., and says how many of them had a fault. Each
/// such fault is told on standard error, and the next connection is served. `AcceptFailed` where the listener gives
/// none, which ends it.
pub fn serve_on<S: Store>(
    rt: &(impl Eprint + AllocGlobal),
    listener: &TcpListener,
    connections: u16,
    gateway: &mut Gateway<S>,
) -> Result<u16, ServeFault> {
    let mut faults = 0u16;
    for served in 0..connections {
        let id = u64::from(served) + 1;
        if let Err(fault) = serve_one(rt.alloc(), listener, id, gateway)? {
            let _ = eprintln!(rt; "gate_main: connection {id}: {fault}");
            faults = faults.saturating_add(1);
        }
    }
    Ok(faults)
}

/// Serves the next connection, and says what fault it had.
fn serve_one<S: Store>(
    alloc: Global,
    listener: &TcpListener,
    id: u64,
    gateway: &mut Gateway<S>,
) -> Result<Result<(), FlowFault>, ServeFault> {
    let Ok((stream, _)) = listener.accept() else {
        return Err(ServeFault::AcceptFailed);
    };
    let outcome = turns(alloc, gateway, id, &mut &stream, &mut &stream);
    if outcome != Err(FlowFault::Refused) {
        // What waited for it takes no memory from now on; where memory was refused its entry stays.
        let _ = gateway.forget(id);
    }
    Ok(outcome)
}
