//! The secrets of the gateway and of listeners.
ghost use Rattle.std.specs.Prelude.{◌≡◌, ◌<◌, ◌≤◌, [], length, is_some, false, Err, IfOk, IsOkAnd};

use server_stores::ProgramFault;
use server_stores::small_files::read_at_most;
use std::rt::Files;

/// How many bytes a secret may have.
const MOST_SECRET: usize = 256;

/// The bytes of a secret, and the file that they are of, if they are of one. No other function than [`Secret::read`] makes
/// one, so whoever has it has what that read.
#[derive(Drop)]
pub struct Secret<'a> {
    file: Option<&'a str>,
    bytes: Vec<u8>,
}

impl<'a> Secret<'a> {
    /// That of a file, and an empty one where there is no file.
    pub fn read<R: AllocGlobal + Files>(
        rt: &R,
        file: Option<&'a str>,
    ) -> Result<Secret<'a>, ProgramFault>
        ensures file { IfOk result (λ secret. secret.file ≡ file.entry) }
        ensures none { is_some file.entry ≡ false →
            IfOk result (λ secret. secret.bytes.items ≡ []) }
        ensures fits { IfOk result (λ secret. length secret.bytes.items ≤ 256) }
    {
        match read_secret(rt, file) {
            Ok(bytes) => Ok(Secret { file, bytes }),
            Err(fault) => Err(fault),
        }
    }

    /// Its bytes, which aren't copied.
    pub fn into_bytes(self) -> Vec<u8>
        ensures { result ≡ self.entry.bytes }
    {
        self.bytes
    }

    /// Its bytes.
    pub fn bytes(&self) -> &[u8]
        ensures { result.now ≡ self.now.bytes.items }
    {
        self.bytes.as_slice()
    }
}

/// The bytes of a secret's file, and none where there is no such file.
fn read_secret<R: AllocGlobal + Files>(rt: &R, path: Option<&str>) -> Result<Vec<u8>, ProgramFault>
    ensures none { is_some path.entry ≡ false → IfOk result (λ secret. secret.items ≡ []) }
    ensures fits { IfOk result (λ secret. length secret.items ≤ 256) }
{
    let Some(path) = path else {
        return Ok(Vec::new(rt.alloc()));
    };
    match read_at_most(rt, path, MOST_SECRET) {
        Ok(bytes) => secret_of(bytes),
        Err(_) => Err(ProgramFault::SecretUnread),
    }
}

/// The secret that a file with these bytes has: all of them, unless they are too many.
fn secret_of(bytes: Vec<u8>) -> Result<Vec<u8>, ProgramFault>
    ensures whole { length bytes.items ≤ 256 →
        IsOkAnd result (λ secret. secret.items ≡ bytes.items) }
    ensures too_long { 256 < length bytes.items → result ≡ Err ProgramFault.SecretTooLong }
{
    if bytes.len() > MOST_SECRET {
        Err(ProgramFault::SecretTooLong)
    } else {
        Ok(bytes)
    }
}
