//! The token of the control listener.
ghost use Rattle.std.specs.Prelude.{◌≡◌, is_some, None, Some, Err, IfOk, IfSome, IsOkUnless};
ghost use Rattle.server_board.specs.Token.{token_in};

use crate::commit::read_commit;
use server_board::{ControlToken, StatusControl};
use server_options::Options;
use server_stores::ProgramFault;
use server_stores::small_files::read_at_most;
use std::alloc::Global;
use std::fs::File;
use std::rt::Files;

/// How many bytes of a token's file are read: more than a token has.
const MOST_BYTES: usize = 1024;

/// The token of a file, and none where no file is named. `TokenUnread` where it can't be read, `BadToken` where it has no
/// token: so where a file is named there is one.
pub fn read_token<R: AllocGlobal + Files>(
    rt: &R,
    path: Option<&str>,
) -> Result<Option<ControlToken>, ProgramFault>
    ensures { IfOk result (λ token. is_some token ≡ is_some path.entry) }
{
    let Some(path) = path else {
        return Ok(None);
    };
    let Ok(bytes) = read_at_most(rt, path, MOST_BYTES) else {
        return Err(ProgramFault::TokenUnread);
    };
    match token_of(rt.alloc(), &bytes) {
        Ok(token) => Ok(Some(token)),
        Err(fault) => Err(fault),
    }
}

/// The token of a file with these bytes.
fn token_of(alloc: Global, bytes: &[u8]) -> Result<ControlToken, ProgramFault>
    ensures token { IfOk result (λ token. token_in bytes.now ≡ Some token) }
    ensures bad { token_in bytes.now ≡ None → result ≡ Err ProgramFault.BadToken }
    ensures good { IfSome (token_in bytes.now) (λ _. IsOkUnless result ProgramFault.NoMemory) }
{
    match ControlToken::of(alloc, bytes) {
        Ok(Some(token)) => Ok(token),
        Ok(None) => Err(ProgramFault::BadToken),
        Err(_) => Err(ProgramFault::NoMemory),
    }
}

/// What answers control requests: it wants the token that its file has, where one is named.
pub fn control_of<R: AllocGlobal + Files<File = File>>(
    rt: &R,
    options: &Options<'_>,
) -> Result<StatusControl, ProgramFault>
    ensures { IfOk result (λ control.
        is_some control.token ≡ is_some options.now.control_token_file) }
{
    let token = read_token(rt, options.control_token_file)?;
    let commit = read_commit(rt)?;
    Ok(StatusControl { token, commit })
}
