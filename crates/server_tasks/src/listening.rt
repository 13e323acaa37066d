//! The listeners of connections, each with its secret.
ghost use Rattle.std.specs.Prelude.{◌≡◌, IfOk, Some, None, is_some, true, false, map};

use crate::{bound_buffer, listen};
use gate_poll::Listener;
use log::{Log, info};
use mio::net::TcpListener;
use octets::Bytes;
use server_gateway::Secret;
use server_options::{ListenWanted, Options};
use server_stores::ProgramFault;
use std::net::Net;
use std::rt::Files;

/// Listens wherever it is asked for connections, in that order. Where there are several and it can't, the address is told
/// on standard error.
pub fn listen_for_connections<R: Eprint + AllocGlobal + Files + Net>(
    rt: &R,
    options: &Options<'_>,
) -> Result<Vec<Listener>, ProgramFault>
    ensures { IfOk result (λ listeners. map (λ listener. is_some listener.secret) listeners.items
        ≡ map (λ wanted. is_some wanted.secret_file) options.now.listen.items) }
{
    let mut listeners = Vec::new(rt.alloc());
    for wanted in &options.listen {
        match listener_of(rt, wanted) {
            Ok(listener) => listeners.push(listener)?,
            Err(fault) => {
                if options.listen.len() > 1 {
                    let _ = eprintln!(rt;
                        "wozhinnam: where connections are accepted, {}:",
                        wanted.address
                    );
                }
                return Err(fault);
            }
        }
    }
    Ok(listeners)
}

/// Listens where it is asked for, and reads the secret of what comes there.
fn listener_of<R: AllocGlobal + Files + Net>(
    rt: &R,
    wanted: &ListenWanted<'_>,
) -> Result<Listener, ProgramFault>
    ensures { IfOk result (λ listener. is_some listener.secret ≡ is_some wanted.now.secret_file) }
{
    let secret = Secret::read(rt, wanted.secret_file)?;
    let socket = listen(rt, wanted.address, "listening")?;
    bound_buffer(&socket);
    Ok(listener_under(socket, wanted, secret))
}

/// A listener under the secret of the file that is asked for, and under none where none is.
fn listener_under(socket: TcpListener, wanted: &ListenWanted<'_>, secret: Secret<'_>) -> Listener
    requires { secret.file ≡ wanted.now.secret_file }
    ensures own { is_some wanted.now.secret_file ≡ true → result.secret ≡ Some secret.entry.bytes.items }
    ensures none { is_some wanted.now.secret_file ≡ false → result.secret ≡ None }
{
    let secret = match wanted.secret_file {
        Some(_) => Some(Bytes::from_vec(secret.into_bytes())),
        None => None,
    };
    Listener { socket, secret }
}

/// Logs which listeners have a secret of their own.
pub fn log_secrets<R: Log>(rt: &R, listeners: &[Listener]) {
    for listener in listeners {
        if listener.secret.is_some() {
            if let Ok(address) = listener.socket.local_addr() {
                info!(rt; "listening on {}, under a secret of its own", address);
            }
        }
    }
}
