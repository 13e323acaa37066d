//! Folders that files are written into.
ghost use Rattle.std.specs.Prelude.{OnOk, OnErr};

use crate::fault::LocalFault;
use octets::Text;

/// A folder that files are written into. A path is the names below it, each of which a file can have; none is the folder
/// itself. So nothing is written or made beside it.
///
/// What a call leaves of the folder may be told by the two relations of a type, or not told at all: what holds of every
/// folder holds of those on a disk too, of which no contract speaks.
pub trait Folder {
    ghost use Rattle.client_tree.specs.Runs.{File};
    ghost use Rattle.client_tree.specs.FileNames.{AreFileNames};

    /// What a call leaves that put bytes at the end of a file, which is new if there was none under its path.
    ghost wrote: { Self → File → Self → Type 0 } = { λ _ _ _. Unit {0} };

    /// What a call that wrote none leaves, as one that was refused.
    ghost kept: { Self → Self → Type 0 } = { λ _ _. Unit {0} };

    /// Makes a folder in it.
    fn make_folder(&mut self, path: &[Text]) -> Result<(), LocalFault>
        requires { AreFileNames path.now }
        ensures { kept self.old self.new };

    /// Writes a new file in it, whole or not at all.
    fn write_file(&mut self, path: &[Text], bytes: &[u8]) -> Result<(), LocalFault>
        requires { AreFileNames path.now }
        ensures ok { OnOk result
            (wrote self.old (record { path = path.now; bytes = bytes.now }) self.new) }
        ensures err { OnErr result (kept self.old self.new) };

    /// Puts bytes at the end of a file that was written in it.
    fn append_file(&mut self, path: &[Text], bytes: &[u8]) -> Result<(), LocalFault>
        requires { AreFileNames path.now }
        ensures ok { OnOk result
            (wrote self.old (record { path = path.now; bytes = bytes.now }) self.new) }
        ensures err { OnErr result (kept self.old self.new) };
}
