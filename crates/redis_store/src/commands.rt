//! Commands.
ghost use Rattle.std.specs.Prelude.{◌≡◌, ◌++◌, ◌∷◌, ℕ, List, [], length, IfOk};
ghost use Rattle.resp.specs.Command.{command, line_end};
ghost use Rattle.redis_store.specs.Commands.{auth_command, config_command, get_command, delete_command, exists_command, exists_below, get_below};

use crate::keys::spell_key;
use resp::{command, command_head};
use std::alloc::{AllocError, Global};

/// Says who asks.
pub(crate) fn auth(alloc: Global, password: &[u8]) -> Result<Vec<u8>, AllocError>
    ensures { IfOk result (λ bytes. bytes.items ≡ auth_command password.now) }
{
    command(alloc, &[b"AUTH", password])
}

/// Asks for what stands under a name.
pub(crate) fn get(alloc: Global, name: &[u8]) -> Result<Vec<u8>, AllocError>
    ensures { IfOk result (λ bytes. bytes.items ≡ get_command name.now) }
{
    command(alloc, &[b"GET", name])
}

/// Asks whether something stands under a name.
pub(crate) fn exists(alloc: Global, name: &[u8]) -> Result<Vec<u8>, AllocError>
    ensures { IfOk result (λ bytes. bytes.items ≡ exists_command name.now) }
{
    command(alloc, &[b"EXISTS", name])
}

/// Asks of each number below a limit whether a share stands under it: a command each.
#[tactic(auto, using(crate::proofs::Lists::exists_more))]
pub(crate) fn exist_below(
    alloc: Global,
    grid: &[u8],
    index: &[u8; 16],
    limit: u16,
) -> Result<Vec<u8>, AllocError>
    ensures { IfOk result (λ bytes. bytes.items ≡ exists_below grid.now index.now limit) }
{
    let mut commands = Vec::new(alloc);
    for number in 0..limit {
        let name = spell_key(alloc, grid, index, number)?;
        let one = exists(alloc, &name)?;
        commands.extend_from_slice(&one)?;
    }
    Ok(commands)
}

/// Asks for the bytes of the share of each number below a limit: a command each.
#[tactic(auto, using(crate::proofs::Lists::gets_more))]
pub(crate) fn get_each_below(
    alloc: Global,
    grid: &[u8],
    index: &[u8; 16],
    limit: u16,
) -> Result<Vec<u8>, AllocError>
    ensures { IfOk result (λ bytes. bytes.items ≡ get_below grid.now index.now limit) }
{
    let mut commands = Vec::new(alloc);
    for number in 0..limit {
        let name = spell_key(alloc, grid, index, number)?;
        let one = get(alloc, &name)?;
        commands.extend_from_slice(&one)?;
    }
    Ok(commands)
}

/// Puts bytes under a name where nothing stands.
pub(crate) const PUT: &[u8] = b"SETNX";

/// Puts bytes under a name, whatever stands there.
pub(crate) const REPLACE: &[u8] = b"SET";

/// Puts bytes under a name, by [`PUT`] or [`REPLACE`].
pub(crate) fn put(
    alloc: Global,
    verb: &[u8],
    name: &[u8],
    content: &[u8],
) -> Result<Vec<u8>, AllocError>
    ensures { IfOk result (λ bytes.
        bytes.items ≡ command (verb.now ∷ name.now ∷ content.now ∷ [])) }
{
    command(alloc, &[verb, name, content])
}

/// Puts so many bytes under a name: the command as far as those bytes, behind which CR and LF have to come.
pub(crate) fn put_head(
    alloc: Global,
    verb: &[u8],
    name: &[u8],
    len: usize,
) -> Result<Vec<u8>, AllocError>
    ensures { IfOk result (λ bytes. (content : List ℕ) → length content ≡ len
        → bytes.items ++ content ++ line_end ≡ command (verb.now ∷ name.now ∷ content ∷ [])) }
{
    command_head(alloc, &[verb, name], len)
}

/// Asks for a setting of the server's own.
pub(crate) fn config(alloc: Global, name: &[u8]) -> Result<Vec<u8>, AllocError>
    ensures { IfOk result (λ bytes. bytes.items ≡ config_command name.now) }
{
    command(alloc, &[b"CONFIG", b"GET", name])
}

/// Takes away what stands under a name.
pub(crate) fn delete(alloc: Global, name: &[u8]) -> Result<Vec<u8>, AllocError>
    ensures { IfOk result (λ bytes. bytes.items ≡ delete_command name.now) }
{
    command(alloc, &[b"DEL", name])
}
