//! What was found and done in a repair, counted and told.
ghost use Rattle.std.specs.Prelude.{◌≡◌, ◌↔◌, IfErr, OnOk};
ghost use Rattle.share_repair.specs.Whole.{IsMended};
ghost use Rattle.store_care.specs.Tally.{IsAllWell};

use grid::GridFault;
use server_stores::ProgramFault;
use share_repair::Outcome;

/// What was found and done.
#[derive(Clone, Copy, PartialEq, Eq)]
pub(crate) struct Tally {
    /// Files that were looked at.
    pub(crate) files: u64,
    /// Files that were repaired.
    pub(crate) repaired: u64,
    /// Shares that were put for these.
    pub(crate) put: u64,
    /// Files of which too few good shares stand, though no store failed.
    pub(crate) lost: u64,
    /// Files that aren't whole for another reason.
    pub(crate) unfinished: u64,
}

impl Tally {
    /// Nothing was looked at.
    pub(crate) fn new() -> Tally
        ensures { IsAllWell result }
    {
        Tally {
            files: 0,
            repaired: 0,
            put: 0,
            lost: 0,
            unfinished: 0,
        }
    }

    /// Counts a file that was left so, where a store failed meanwhile or none did.
    pub(crate) fn count(&mut self, outcome: Outcome, has_failed: bool)
        ensures { IsAllWell self.new ↔ (IsAllWell self.old × IsMended outcome) }
    {
        self.files = self.files.saturating_add(1);
        match outcome {
            Outcome::Whole => {}
            Outcome::Repaired(put) => {
                self.repaired = self.repaired.saturating_add(1);
                self.put = self.put.saturating_add(u64::from(put));
            }
            Outcome::Lost => self.count_lost(has_failed),
            Outcome::Several => self.unfinished = self.unfinished.saturating_add(1),
            Outcome::Unfinished(_) => self.unfinished = self.unfinished.saturating_add(1),
        }
    }

    /// Counts a file as lost, or as unfinished where a store failed and may have its shares.
    fn count_lost(&mut self, has_failed: bool)
        ensures { ¬ (IsAllWell self.new) }
    {
        if has_failed {
            self.unfinished = self.unfinished.saturating_add(1);
        } else {
            self.lost = self.lost.saturating_add(1);
        }
    }

    /// Counts a file at which a store refused.
    pub(crate) fn count_refused(&mut self)
        ensures { ¬ (IsAllWell self.new) }
    {
        self.files = self.files.saturating_add(1);
        self.unfinished = self.unfinished.saturating_add(1);
    }

    /// Tells all that was counted. `NotWell` exactly where a file isn't whole.
    pub(crate) fn tell<R: Print>(&self, rt: &R) -> Result<(), ProgramFault>
        ensures ok { OnOk result (IsAllWell self.now) }
        ensures err { IfErr result (λ fault. fault ≡ ProgramFault.NotWell → ¬ (IsAllWell self.now)) }
    {
        let Tally {
            files,
            repaired,
            put,
            lost,
            unfinished,
        } = *self;
        let told = println!(rt;
            "{files} files, {repaired} repaired, {put} shares put, {lost} lost, {unfinished} unfinished"
        );
        if told.is_err() {
            return Err(ProgramFault::NotPrinted);
        }
        if lost == 0 && unfinished == 0 {
            Ok(())
        } else {
            Err(ProgramFault::NotWell)
        }
    }
}

/// Tells what became of a file, unless it was whole.
pub(crate) fn tell_outcome<R: Print>(
    rt: &R,
    name: &str,
    outcome: Outcome,
    has_failed: bool,
) -> Result<(), ProgramFault> {
    let told = match outcome {
        Outcome::Whole => Ok(()),
        Outcome::Repaired(put) => println!(rt; "{name}: repaired, {put} shares put"),
        Outcome::Lost => tell_lost(rt, name, has_failed),
        Outcome::Several => {
            println!(rt; "{name}: not touched, there are enough good shares of two files")
        }
        Outcome::Unfinished(missing) => {
            println!(rt; "{name}: unfinished, {missing} good shares aren't in their places")
        }
    };
    match told {
        Ok(()) => Ok(()),
        Err(_) => Err(ProgramFault::NotPrinted),
    }
}

/// Tells that there are too few good shares of a file, or that a store failed which may have more.
fn tell_lost<R: Print>(rt: &R, name: &str, has_failed: bool) -> std::io::Result<()> {
    if has_failed {
        println!(rt; "{name}: unfinished, too few good shares were given, and a store failed")
    } else {
        println!(rt; "{name}: lost, there are too few good shares")
    }
}

/// Tells of a file at which a store refused.
pub(crate) fn tell_refused<R: Print>(
    rt: &R,
    name: &str,
    fault: GridFault,
) -> Result<(), ProgramFault> {
    match println!(rt; "{name}: unfinished, {fault}") {
        Ok(()) => Ok(()),
        Err(_) => Err(ProgramFault::NotPrinted),
    }
}
