//! Folders that files are read from.
ghost use Rattle.std.specs.Prelude.{IfOk, IfNone, IfSome, OnErr, MatchResult};

use crate::children::Child;
use crate::fault::LocalFault;
use caps::Cap;
use octets::Text;

/// What stands in a folder.
#[derive(Drop)]
pub struct Item {
    /// Its name.
    pub name: Text,
    /// Whether it is a folder; else it is a file.
    pub is_folder: bool,
}

/// A folder that files are read from. A path is the names below it; none is the folder itself.
///
/// A source may know the caps of files in it that were stored before: those aren't read.
///
/// What a call leaves of it may be told by the relations of a type, or not told at all, as by one on a disk.
pub trait Source {
    ghost use Rattle.std.specs.Prelude.{ℕ, List};
    ghost use Rattle.caps.specs.declared.cap.Cap.{Cap};
    ghost use Rattle.client_tree.specs.Runs.{File};

    /// What a call leaves that gave a piece of a file.
    ghost gave: { Self → File → Self → Type 0 } = { λ _ _ _. Unit {0} };

    /// What a call leaves that gave none.
    ghost kept: { Self → Self → Type 0 } = { λ _ _. Unit {0} };

    /// What a call leaves that gave the cap of a file.
    ghost knew: { Self → List (List ℕ) → Cap → Self → Type 0 } = { λ _ _ _ _. Unit {0} };

    /// What stands in a folder of it.
    fn items(&mut self, path: &[Text]) -> Result<Vec<Item>, LocalFault>
        ensures { kept self.old self.new };

    /// The first piece of a file in it, or the next one of the file whose first came last. A piece has 16,777,216 bytes; one of
    /// fewer is the last.
    fn read_piece(&mut self, path: &[Text], is_first: bool) -> Result<Vec<u8>, LocalFault>
        ensures ok { IfOk result (λ bytes.
            gave self.old (record { path = path.now; bytes = bytes.items }) self.new) }
        ensures err { OnErr result (kept self.old self.new) };

    /// The cap of a file in it that was stored before, if it knows one.
    fn known(&mut self, path: &[Text]) -> Result<Option<Cap>, LocalFault>
        ensures kept { MatchResult result (λ found. IfNone found (kept self.old self.new))
            (λ fault. kept self.old self.new) }
        ensures cap { IfOk result (λ found. IfSome found (λ cap.
            knew self.old path.now cap self.new)) };

    /// Takes note that the files of a folder stand, with their caps.
    fn stored(&mut self, path: &[Text], files: &[Child]) -> Result<(), LocalFault>
        ensures { kept self.old self.new };
}
