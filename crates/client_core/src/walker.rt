//! Walks down the names of a path.
ghost use Rattle.std.specs.Prelude.{◌≡◌, IfOk};
ghost use Rattle.client_core.specs.Way.{IsChildOf, LeadsTo};

use crate::exchange::Exchange;
use crate::fault::ClientFault;
use crate::fetch::fetch_directory;
use caps::{Cap, copy_cap};
use dir_codec::Entry;
use octets::Text;
use std::alloc::Global;

/// The cap that names lead to, from a cap on: each is looked up in the directory that the one before it led to.
///
/// Whatever the gateway answers, each directory on the way is the children of bytes that the cap binds which led there.
pub fn walk<E: Exchange>(
    alloc: Global,
    gateway: &mut E,
    cap: &Cap,
    names: &[Text],
) -> Result<Cap, ClientFault>
    ensures { IfOk result (λ end. LeadsTo cap.now names.now end) }
{
    let mut here = copy_cap(alloc, cap)?;
    for name in names {
        here = child_of(alloc, gateway, &here, name)?;
    }
    Ok(here)
}

/// The child of this name in the directory that a cap is of.
fn child_of<E: Exchange>(
    alloc: Global,
    gateway: &mut E,
    cap: &Cap,
    name: &Text,
) -> Result<Cap, ClientFault>
    ensures { IfOk result (λ child. IsChildOf cap.now name.now child) }
{
    let directory = fetch_directory(alloc, gateway, cap)?;
    let Some(entry) = directory.into_found(name.as_str()) else {
        let missing = String::from_str(alloc, name.as_str())?;
        return Err(ClientFault::NoChild(Text::from_string(missing)));
    };
    let Entry { cap, .. } = entry;
    Ok(cap)
}
