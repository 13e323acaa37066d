//! The gateway over its stores.
ghost use Rattle.std.specs.Prelude.{◌≡◌, [], length, vec_len, is_some, false, true, Err, IfOk, IsOkUnless};
ghost use Rattle.std.specs.FinMap as map;
ghost use Rattle.grid.specs.GridState.{states};
ghost use Rattle.gate_core.specs.ConnectionState.{AreParameters};
ghost use Rattle.gate_base.specs.Tallies.{nothing_counted};

use crate::secret::Secret;
use folder_shelf::StoreSettings;
use gate_base::Pages;
use gate_core::{Gateway, GatewayFault};
use log::Log;
use server_options::{Options, Shares};
use server_stores::{ProgramFault, ServerStore, open_stores};
use share_store::Store;
use std::alloc::Global;
use std::fs::File;
use std::net::Net;
use std::random::RandomSource;
use std::rt::Files;
use std::time::Clock;

/// A gateway over the stores that are wanted, with the secret that its file has, these pages, and replies for browsers.
pub fn open_gateway<
    R: AllocGlobal + Files<File = File> + Net + Clock + RandomSource + Clone + Drop + Log + Eprint,
>(rt: &R, options: &Options<'_>, pages: Pages) -> Result<Gateway<ServerStore<R>>, ProgramFault>
    ensures needed { IfOk result (λ gateway. gateway.settings.k ≡ options.now.shares.needed) }
    ensures made { IfOk result (λ gateway. gateway.settings.n ≡ options.now.shares.made) }
    ensures servers { IfOk result (λ gateway.
        gateway.settings.servers ≡ vec_len options.now.stores) }
    ensures none { is_some options.now.secret_file ≡ false →
        IfOk result (λ gateway. gateway.settings.secret ≡ []) }
    ensures pages { IfOk result (λ gateway. gateway.settings.pages ≡ pages) }
    ensures browsers { IfOk result (λ gateway. gateway.settings.for_browsers ≡ true) }
{
    match Secret::read(rt, options.secret_file) {
        Ok(secret) => match open_under(rt, options, &secret) {
            Ok(gateway) => Ok(gateway.with_pages(pages).for_browsers()),
            Err(fault) => Err(fault),
        },
        Err(fault) => Err(fault),
    }
}

/// The same with a secret, which is that of the file that is asked for.
fn open_under<
    R: AllocGlobal + Files<File = File> + Net + Clock + RandomSource + Clone + Drop + Log + Eprint,
>(
    rt: &R,
    options: &Options<'_>,
    secret: &Secret<'_>,
) -> Result<Gateway<ServerStore<R>>, ProgramFault>
    requires { secret.now.file ≡ options.now.secret_file }
    ensures needed { IfOk result (λ gateway. gateway.settings.k ≡ options.now.shares.needed) }
    ensures made { IfOk result (λ gateway. gateway.settings.n ≡ options.now.shares.made) }
    ensures secret { IfOk result (λ gateway. gateway.settings.secret ≡ secret.now.bytes.items) }
    ensures servers { IfOk result (λ gateway.
        gateway.settings.servers ≡ vec_len options.now.stores) }
    ensures fresh { IfOk result (λ gateway. gateway.connections ≡ map.empty) }
{
    let Ok(servers) = u16::try_from(options.stores.len()) else {
        return Err(ProgramFault::Stores);
    };
    let Shares { needed, made } = options.shares;
    let first = StoreSettings::new(0, servers, needed, made, secret.bytes());
    let stores = open_stores(rt, options, &first)?;
    gateway_over(rt.alloc(), options.shares, stores, secret.bytes())
}

/// A gateway over these stores, of which nothing was called yet. `Shares` exactly where the numbers of shares, of stores
/// or of the secret's bytes are none that a gateway takes.
fn gateway_over<S: Store + Drop>(
    alloc: Global,
    shares: Shares,
    stores: Vec<S>,
    secret: &[u8],
) -> Result<Gateway<S>, ProgramFault>
    ensures accepted { AreParameters shares.needed shares.made (vec_len stores) (length secret.now) →
        IsOkUnless result ProgramFault.NoMemory }
    ensures refused { ¬ (AreParameters shares.needed shares.made (vec_len stores)
        (length secret.now)) → result ≡ Err ProgramFault.Shares }
    ensures held { IfOk result (λ gateway. gateway ≡ record {
      settings = record {
        k = shares.needed;
        n = shares.made;
        secret = secret.now;
        servers = vec_len stores;
        pages = [];
        for_browsers = false;
      };
      connections = map.empty;
      grid = states S.shares S.room S.held S.failures S.honest S.history stores.items;
      tally = nothing_counted;
    }) }
{
    match Gateway::resume(alloc, shares.needed, shares.made, stores, secret) {
        Ok(gateway) => Ok(gateway),
        Err(GatewayFault::BadParameters) => Err(ProgramFault::Shares),
        Err(_) => Err(ProgramFault::NoMemory),
    }
}
