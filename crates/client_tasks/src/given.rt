//! Caps and paths as they are given.
ghost use Rattle.std.specs.Prelude.{IfOk};
ghost use Rattle.caps.specs.CapTexts.{IsCapText};
ghost use Rattle.client_tasks.specs.Had.{IsCapOf};

use crate::fault::TaskFault;
use caps::{Cap, CapFault, parse_bytes};
use octets::Text;
use std::alloc::Global;
use std::fs;
use std::rt::Files;
use unicode_normalization::to_nfc;

/// The most bytes of a file that has a cap.
const MOST_OF_A_CAP_FILE: usize = 4096;

/// The cap of a text, or of the file whose name follows `@`.
pub fn read_cap<R: Files + AllocGlobal>(rt: &R, text: &str) -> Result<Cap, TaskFault>
    ensures { IfOk result (IsCapOf text.now) }
{
    match text.strip_prefix('@') {
        Some(path) => {
            let Ok(bytes) = fs::read(rt, path) else {
                return Err(TaskFault::Unread);
            };
            if bytes.len() > MOST_OF_A_CAP_FILE {
                return Err(TaskFault::NoCap);
            }
            cap_of(rt.alloc(), bytes.trim_ascii())
        }
        None => cap_of(rt.alloc(), text.as_bytes()),
    }
}

/// The cap of a text.
fn cap_of(alloc: Global, text: &[u8]) -> Result<Cap, TaskFault>
    ensures { IfOk result (λ cap. IsCapText cap text.now) }
{
    match parse_bytes(alloc, text) {
        Ok(cap) => Ok(cap),
        Err(CapFault::NoMemory) => Err(TaskFault::NoMemory),
        Err(_) => Err(TaskFault::NoCap),
    }
}

/// The names of a path, which are parted by `/`, as directories have them: in NFC. Empty ones are left out.
pub fn read_names(alloc: Global, path: &str) -> Result<Vec<Text>, TaskFault> {
    let mut names = Vec::new(alloc);
    for name in path.split('/') {
        if !name.is_empty() {
            names.push(Text::from_string(to_nfc(alloc, name)?))?;
        }
    }
    Ok(names)
}
