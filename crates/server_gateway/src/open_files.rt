//! How many files may be open.
ghost use Rattle.std.specs.Prelude.{◌≡◌, ◌<◌, ◌≤◌, ℕ, Some, None, IfSome};

use server_options::Options;
use server_stores::{ProgramFault, handles};
use std::rt::Files;

/// The fault that there are fewer handles than connections, listeners, locks of folders and connections to Redis servers
/// need, if the system says so.
pub fn few_handles<R: AllocGlobal + Files>(rt: &R, options: &Options<'_>) -> Option<ProgramFault>
    ensures few { IfSome result (λ fault. (allowed needed : ℕ)
        × (fault ≡ ProgramFault.FewHandles allowed needed) × (allowed < needed)) }
{
    let kept = options
        .with_handles()
        .saturating_add(options.listen.len().saturating_sub(1));
    let needed = handles::needed_for(options.connections, kept);
    let allowed = handles::allowed(rt)?;
    judge_handles(allowed, needed)
}

/// The fault that so many handles are allowed where so many are needed, if these are more.
fn judge_handles(allowed: u64, needed: u64) -> Option<ProgramFault>
    ensures few { allowed < needed → result ≡ Some (ProgramFault.FewHandles allowed needed) }
    ensures enough { needed ≤ allowed → result ≡ None }
{
    if allowed < needed {
        Some(ProgramFault::FewHandles(allowed, needed))
    } else {
        None
    }
}
