//! What a gateway is set up with.
ghost use Rattle.std.specs.Prelude.{◌≡◌, [], false, true, length, IfOk};
ghost use Rattle.octets.specs.Sharing.{IsSharing};

use crate::pages::Pages;
use octets::Bytes;
use std::alloc::{AllocError, Global};
use std::marker::Model;

/// How files are cut into shares, the secret that goes into the keys of connections without one of their own, pages, and
/// whether replies are made for browsers.
#[derive(Drop)]
pub struct Parameters {
    k: u16,
    n: u16,
    secret: Bytes,
    pages: Pages,
    for_browsers: bool,
}

impl Model for Parameters {
    ghost use Rattle.octets.specs.Sharing.{IsSharing};
    ghost use Rattle.gate_base.specs.Setup.{Setup};

    ghost Value = { Setup };

    ghost view = { λ p. record { k = p.k; n = p.n; secret = p.secret; pages = p.pages; for_browsers = p.for_browsers } };

    ghost invariant = { λ p. IsSharing p.k p.n };
}

impl Parameters {
    /// Of `n` shares any `k` give a file back, and its key has a copy of the secret in it. No pages, and nothing for
    /// browsers.
    pub fn new(alloc: Global, k: u16, n: u16, secret: &[u8]) -> Result<Parameters, AllocError>
        requires { IsSharing k n }
        ensures { IfOk result (λ parameters. parameters
            ≡ record { k = k; n = n; secret = secret.now; pages = []; for_browsers = false }) }
    {
        let secret = Bytes::from_slice(alloc, secret)?;
        Ok(Parameters {
            k,
            n,
            secret,
            pages: Pages::new(alloc),
            for_browsers: false,
        })
    }

    /// The same with these pages.
    pub fn with_pages(self, pages: Pages) -> Parameters
        ensures { result ≡ record {
          k = self.k;
          n = self.n;
          secret = self.secret;
          pages = pages;
          for_browsers = self.for_browsers;
        } }
    {
        let Parameters {
            k,
            n,
            secret,
            for_browsers,
            ..
        } = self;
        Parameters {
            k,
            n,
            secret,
            pages,
            for_browsers,
        }
    }

    /// The same, with replies for browsers.
    pub fn browsing(self) -> Parameters
        ensures { result ≡ record {
          k = self.k;
          n = self.n;
          secret = self.secret;
          pages = self.pages;
          for_browsers = true;
        } }
    {
        let Parameters {
            k,
            n,
            secret,
            pages,
            ..
        } = self;
        Parameters {
            k,
            n,
            secret,
            pages,
            for_browsers: true,
        }
    }

    /// Whether replies are made for browsers.
    pub fn for_browsers(&self) -> bool
        ensures { result ≡ self.now.for_browsers }
    {
        self.for_browsers
    }

    /// The pages.
    pub fn pages(&self) -> &Pages
        ensures { result.now ≡ self.now.pages }
    {
        &self.pages
    }

    /// How many shares give a file back.
    pub fn k(&self) -> u16
        ensures k { result ≡ self.now.k }
        ensures sharing { IsSharing self.now.k self.now.n }
    {
        self.k
    }

    /// How many shares a file has.
    pub fn n(&self) -> u16
        ensures { result ≡ self.now.n }
    {
        self.n
    }

    /// What goes into keys where a connection has no secret of its own.
    pub fn secret(&self) -> &[u8]
        ensures { result.now ≡ self.now.secret }
    {
        self.secret.as_slice()
    }
}
