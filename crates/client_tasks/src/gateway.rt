//! The gateway: its URL, and connections to it.
ghost use Rattle.std.specs.Prelude.{IfOk};
ghost use Rattle.client_tasks.specs.Urls.{IsPlaceOf};

use crate::fault::TaskFault;
use client_core::LinkFault;
use client_link::{Dial, Paced, Timer};
use http_uri::{Uri, UriError};
use std::alloc::Global;
use std::net::{Net, OpenStream, TcpStream};
use std::rt::Clock;
use std::time::Duration;

/// Where a gateway is.
#[derive(Drop)]
pub struct Place {
    /// As it stands in the URL, for the field `Host`.
    pub host: String,
    /// The host and the port, to connect to.
    pub address: String,
}

/// Reads a gateway's URL: `http://HOST` or `http://HOST:PORT`, with no path. `BadUrl` where it is none.
pub fn read_url(alloc: Global, url: &str) -> Result<Place, TaskFault>
    ensures { IfOk result (IsPlaceOf url.now) }
{
    let uri = match Uri::from_str(alloc, url) {
        Ok(uri) => uri,
        Err(UriError::OutOfMemory) => return Err(TaskFault::NoMemory),
        Err(_) => return Err(TaskFault::BadUrl),
    };
    let Some(scheme) = uri.scheme_str() else {
        return Err(TaskFault::BadUrl);
    };
    let Some(authority) = uri.authority() else {
        return Err(TaskFault::BadUrl);
    };
    let text = authority.as_str();
    if scheme != "http" || uri.path() != "/" || uri.query().is_some() || text.contains('@') {
        return Err(TaskFault::BadUrl);
    }
    let host = String::from_str(alloc, text)?;
    let address = match authority.port_u16() {
        Some(_) => String::from_str(alloc, text)?,
        None => format!(in alloc; "{text}:80")?,
    };
    Ok(Place { host, address })
}

/// The clock of a program.
#[derive(Drop)]
pub struct Watch<'a, R> {
    rt: &'a R,
}

impl<R: Clock> Timer for Watch<'_, R> {
    fn milliseconds(&self) -> u64 {
        match self.rt.monotonic() {
            Ok(time) => u64::try_from(time.as_millis()).unwrap_or(u64::MAX),
            Err(_) => 0,
        }
    }
}

/// Opens connections to an address, over which a gateway may be slow for so many seconds.
#[derive(Drop)]
pub struct Dialer<'a, R> {
    rt: &'a R,
    address: &'a str,
    patience: u64,
}

impl<'a, R> Dialer<'a, R> {
    /// Of this address, with so many seconds.
    pub fn new(rt: &'a R, address: &'a str, patience: u64) -> Self {
        Dialer {
            rt,
            address,
            patience,
        }
    }
}

impl<'a, R: Net + Clock> Dial for Dialer<'a, R> {
    type Stream = Paced<R::Stream, Watch<'a, R>>;

    fn dial(&mut self) -> Result<Paced<R::Stream, Watch<'a, R>>, LinkFault> {
        let Ok(stream) = TcpStream::connect(self.rt, self.address) else {
            return Err(LinkFault::NoConnection);
        };
        let silence = Some(Duration::from_secs(self.patience));
        let _ = stream.set_nodelay(true);
        let _ = stream.set_read_timeout(silence);
        let _ = stream.set_write_timeout(silence);
        Ok(Paced::new(stream, Watch { rt: self.rt }, self.patience))
    }
}
