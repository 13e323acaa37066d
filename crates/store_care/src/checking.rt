//! Looking through the folders of servers.
use crate::file_tally::{FileTally, Shares};
use crate::places::{has_place, missing_places};
use folder_shelf::{FolderFault, LONGEST_FILE, StoreSettings, read_file, read_name, share_in};
use log::{Log, warn};
use server_stores::ProgramFault;
use server_stores::difference::Difference;
use server_stores::folders::{names_in, report_fault, settings_in};
use std::io::ErrorKind;
use std::rt::Files;

/// How many folders of shares there are in a server's folder: one for each value of an index's first four bits.
const FOLDERS: u8 = 16;

/// What stands in a server's folder.
#[derive(Clone, Copy, PartialEq, Eq)]
struct Contents {
    /// Shares, and their bytes.
    shares: u64,
    bytes: u64,
    /// Files of shares that are not what was written.
    rotten: u64,
    /// Files that are no shares'.
    strangers: u64,
    /// Files that were being written when the folder was last served.
    unfinished: u64,
}

/// Whose the folders are that were seen.
#[derive(Drop)]
struct Folders {
    /// The settings of the first one that has any: those of the grid.
    first: Option<StoreSettings>,
    /// The places of the grid's servers whose folders were seen.
    places: Vec<u16>,
}

/// A folder of the grid, and what was found there so far.
#[derive(Drop)]
struct Looked {
    folder: String,
    settings: StoreSettings,
    contents: Contents,
    /// Whether it could be read so far.
    is_read: bool,
}

/// Looks through folders, tells on standard output what stands in each, and of how many files all shares stand, too few,
/// or fewer than are needed. `NotWell` where a file isn't whole, where one in a folder is rotten or a stranger's, where
/// the folders aren't of one grid, or where that of one of its servers isn't among them. Nothing is written.
///
/// Of all folders one of sixteen parts is looked through at a time, so no more than the names of a sixteenth of all shares
/// are in memory. While the folders are served, a file that is being put may be counted as one with too few shares.
pub fn check<R: Files + AllocGlobal + Clone + Drop + Log + Print + Eprint>(
    rt: &R,
    folders: &[&str],
) -> Result<(), ProgramFault> {
    let mut seen = Folders {
        first: None,
        places: Vec::new(rt.alloc()),
    };
    let mut looked = Vec::new(rt.alloc());
    let mut are_well = true;
    for folder in folders {
        match open(rt, *folder, &mut seen) {
            Ok(one) => looked.push(one)?,
            Err(fault) => {
                tell_fault(rt, *folder, fault)?;
                are_well = false;
            }
        }
    }
    let are_whole = look_through(rt, &mut looked, &seen)?;
    for one in &looked {
        are_well = one.tell(rt)? && are_well;
    }
    if seen.tell_missing(rt)? && are_whole && are_well {
        Ok(())
    } else {
        Err(ProgramFault::NotWell)
    }
}

/// Tells the fault of a folder, by its name. One that is no folder's ends the check.
fn tell_fault<R: Eprint>(rt: &R, folder: &str, fault: ProgramFault) -> Result<(), ProgramFault> {
    if !fault.is_of_a_store() {
        return Err(fault);
    }
    report_fault(rt, folder, fault);
    Ok(())
}

/// A folder that is to be looked through, which is of one grid with those that were seen before it.
fn open<R: Files + AllocGlobal + Clone + Drop>(
    rt: &R,
    folder: &str,
    seen: &mut Folders,
) -> Result<Looked, ProgramFault> {
    let settings = settings_in(rt, folder)?;
    seen.add(&settings)?;
    let unfinished = format!(in rt.alloc(); "{folder}/new")?;
    Ok(Looked {
        folder: String::from_str(rt.alloc(), folder)?,
        settings,
        contents: Contents {
            shares: 0,
            bytes: 0,
            rotten: 0,
            strangers: 0,
            unfinished: names_in(rt, unfinished.as_str())?.len() as u64,
        },
        is_read: true,
    })
}

/// Looks through all folders, one of sixteen parts after the other, and tells what there is of files. Whether all are
/// whole.
fn look_through<R: Files + AllocGlobal + Clone + Drop + Log + Print + Eprint>(
    rt: &R,
    looked: &mut [Looked],
    seen: &Folders,
) -> Result<bool, ProgramFault> {
    let Some(StoreSettings { needed, made, .. }) = seen.first else {
        return Ok(true);
    };
    let mut files = FileTally::new();
    for number in 0..FOLDERS {
        let shares = shares_in(rt, looked, number)?;
        files.count_each(rt, &shares, needed, made)?;
    }
    files.tell(rt, needed, made)?;
    Ok(files.are_whole())
}

/// The shares that stand in the folders of this number. A folder that can't be read is told by its name, and left out from
/// then on.
fn shares_in<R: Files + AllocGlobal + Clone + Drop + Log + Eprint>(
    rt: &R,
    looked: &mut [Looked],
    number: u8,
) -> Result<Shares, ProgramFault> {
    let mut shares = Shares::new(rt.alloc());
    for one in looked {
        if one.is_read
            && let Err(fault) = one.look_in(rt, number, &mut shares)
        {
            one.is_read = false;
            tell_fault(rt, one.folder.as_str(), ProgramFault::from(fault))?;
        }
    }
    Ok(shares)
}

impl Folders {
    /// Adds a folder of these settings. `OtherGrid` where it is another grid's than those before it, `Twice` where it is
    /// of the same server as one of them.
    fn add(&mut self, settings: &StoreSettings) -> Result<(), ProgramFault> {
        let first = self.first.unwrap_or(*settings);
        self.first = Some(first);
        let wanted = StoreSettings {
            place: settings.place,
            ..first
        };
        if wanted != *settings {
            return Err(ProgramFault::OtherGrid(Difference::between(settings, &wanted)));
        }
        if has_place(&self.places, settings.place) {
            return Err(ProgramFault::Twice(settings.place));
        }
        self.places.push(settings.place)?;
        Ok(())
    }

    /// Tells the places of the grid's servers whose folders weren't seen. Whether there is none.
    fn tell_missing<R: AllocGlobal + Eprint>(&self, rt: &R) -> Result<bool, ProgramFault> {
        let Some(first) = self.first else {
            return Ok(true);
        };
        let servers = first.servers;
        let missing = missing_places(rt.alloc(), servers, &self.places)?;
        for place in &missing {
            let place = *place;
            let _ = eprintln!(rt;
                "wozhinnam: none of the folders is that of server {place} of {servers}"
            );
        }
        Ok(missing.is_empty())
    }
}

impl Looked {
    /// Looks through the folder of shares of this number. Each file that is rotten, and each stranger's, is logged.
    fn look_in<R: Files + AllocGlobal + Clone + Drop + Log>(
        &mut self,
        rt: &R,
        number: u8,
        shares: &mut Shares,
    ) -> Result<(), FolderFault> {
        let folder = self.folder.as_str();
        let place = format!(in rt.alloc(); "{folder}/{number}")?;
        let names = names_in(rt, place.as_str())?;
        for name in &names {
            let found = self
                .contents
                .look_at_name(rt, place.as_str(), number, name.as_str())?;
            if let Some(share) = found
                && share.1 < self.settings.made
                && shares.insert(share).is_err()
            {
                return Err(FolderFault::NoMemory);
            }
        }
        Ok(())
    }

    /// Tells what was found, and whether all is well. Of a folder that can't be read it was told why.
    fn tell<R: Print>(&self, rt: &R) -> Result<bool, ProgramFault> {
        if !self.is_read {
            return Ok(false);
        }
        let folder = self.folder.as_str();
        let StoreSettings {
            place,
            servers,
            needed,
            made,
            ..
        } = self.settings;
        let Contents {
            shares,
            bytes,
            rotten,
            strangers,
            unfinished,
        } = self.contents;
        let told = println!(rt;
            "{folder}: server {place} of {servers}, {needed} of {made}: {shares} shares, {bytes} bytes, {rotten} rotten, {strangers} strangers, {unfinished} unfinished"
        );
        match told {
            Ok(()) => Ok(rotten == 0 && strangers == 0),
            Err(_) => Err(ProgramFault::NotPrinted),
        }
    }
}

impl Contents {
    /// Looks at a name in the folder of shares of this number, and gives the share that stands under it, if one does.
    fn look_at_name<R: Files + AllocGlobal + Log>(
        &mut self,
        rt: &R,
        folder: &str,
        number: u8,
        name: &str,
    ) -> Result<Option<([u8; 16], u16)>, FolderFault> {
        let path = format!(in rt.alloc(); "{folder}/{name}")?;
        if let Some(share) = read_name(rt.alloc(), name)? {
            let index = share.0;
            if index[0] / FOLDERS == number {
                let stands = self.look_at(rt, path.as_str())?;
                return Ok(if stands { Some(share) } else { None });
            }
        }
        warn!(rt; "no share: {path}");
        self.strangers = self.strangers.saturating_add(1);
        Ok(None)
    }

    /// Looks at the file of a share, and says whether it is what was written.
    fn look_at<R: Files + AllocGlobal + Log>(
        &mut self,
        rt: &R,
        path: &str,
    ) -> Result<bool, FolderFault> {
        match read_file(rt, path, LONGEST_FILE) {
            Ok(text) => {
                if let Some(bytes) = share_in(text) {
                    self.shares = self.shares.saturating_add(1);
                    self.bytes = self.bytes.saturating_add(bytes.len() as u64);
                    return Ok(true);
                }
            }
            // who serves the folder took it away
            Err(error) if error.kind() == ErrorKind::NotFound => return Ok(false),
            Err(error) if error.kind() == ErrorKind::OutOfMemory => {
                return Err(FolderFault::NoMemory);
            }
            Err(_) => {}
        }
        warn!(rt; "rotten: {path}");
        self.rotten = self.rotten.saturating_add(1);
        Ok(false)
    }
}
