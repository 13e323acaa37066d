//! The commit that the program was built of.
use server_board::Commit;
use server_stores::small_files::read_at_most;
use std::alloc::AllocError;
use std::env;
use std::rt::Files;

/// How many bytes of a commit's file are read: more than its name has.
const MOST_BYTES: usize = 1024;

/// The commit that the file `../share/wozhinnam/commit` names, from the folder of the program's own file. `None` where there
/// is no such file, or it names none.
pub fn read_commit<R: Files + AllocGlobal>(rt: &R) -> Result<Option<Commit>, AllocError> {
    let Ok(program) = env::current_exe(rt) else {
        return Ok(None);
    };
    let Some(beside) = program.parent() else {
        return Ok(None);
    };
    let path = format!(in rt.alloc(); "{}/../share/wozhinnam/commit", beside.as_str())?;
    match read_at_most(rt, path.as_str(), MOST_BYTES) {
        Ok(bytes) => Commit::named_by(rt.alloc(), &bytes),
        Err(_) => Ok(None),
    }
}
