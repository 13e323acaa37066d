//! Caps on standard output.
ghost use Rattle.std.specs.Prelude.{◌≡◌, IfOk, string_bytes};
ghost use Rattle.client_tasks.specs.Puts.{IsPutCap, cap_line};

use crate::fault::TaskFault;
use caps::laws::caps_have_one_text;
use caps::{Cap, print};
use std::alloc::{AllocError, Global};

/// The cap of what was put. It isn't a gateway's word: it is of bytes that were held against it, or of a directory whose text
/// was.
#[derive(Drop)]
pub struct Put {
    pub cap: Cap,
    ghost bound: { ∥ IsPutCap cap ∥₁ },
}

/// Standard output for caps. Whatever has this alone prints nothing there but caps of what was put.
pub trait PrintCap {
    /// Prints a cap on a line of its own.
    fn print_cap(&self, put: &Put) -> Result<(), TaskFault>;
}

impl<R: Print + AllocGlobal> PrintCap for R {
    fn print_cap(&self, put: &Put) -> Result<(), TaskFault> {
        let line = line_of(self.alloc(), &put.cap)?;
        match print!(self; "{line}") {
            Ok(()) => Ok(()),
            Err(_) => Err(TaskFault::NotPrinted),
        }
    }
}

/// The line of a cap: its text, and the line's end.
fn line_of(alloc: Global, cap: &Cap) -> Result<String, AllocError>
    ensures { IfOk result (λ line. string_bytes line ≡ cap_line cap.now) }
{
    caps_have_one_text();
    let mut line = print(alloc, cap)?;
    line.push_str("\n")?;
    Ok(line)
}
