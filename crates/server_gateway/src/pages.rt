//! Pages beside the web API, which are read from a folder at the start.
ghost use Rattle.std.specs.Prelude.{◌≡◌, ◌<◌, [], length, All, Err, IfOk, IsTrue, Some};
ghost use Rattle.std.specs.List.{list_all};
ghost use Rattle.server_gateway.specs.Pages.{is_page_byte, kind_by_end, page_kind, page_path, IsPageOf, IsFilePage};

use gate_base::{Page, Pages};
use log::{Log, info};
use octets::Bytes;
use server_options::Options;
use server_stores::ProgramFault;
use server_stores::small_files::read_at_most;
use std::alloc::{AllocError, Global};
use std::rt::Files;
use std::{env, fs, io};
use web_replies::{MediaType, SharedBytes};

/// How many pages there may be.
const MOST_PAGES: usize = 64;

/// How many bytes a page may have.
const MOST_BYTES: usize = 1_048_576;

/// The pages that are asked for: none with `--no-pages`, those of the folder that `--pages` names, and else those of the
/// folder `pages` beside the program's own file, where there is one. Refused as by [`read_pages`].
pub fn pages_of<R: Files + AllocGlobal + Clone + Drop + Eprint + Log>(
    rt: &R,
    options: &Options<'_>,
) -> Result<Pages, ProgramFault>
    ensures none { IsTrue options.now.no_pages → IfOk result (λ pages. pages ≡ []) }
    ensures pages { IfOk result (All IsFilePage) }
{
    if options.no_pages {
        return Ok(Pages::new(rt.alloc()));
    }
    if let Some(folder) = options.pages {
        return read_pages(rt, folder);
    }
    match folder_beside(rt)? {
        Some(folder) => read_pages(rt, folder.as_str()),
        None => Ok(Pages::new(rt.alloc())),
    }
}

/// The folder `pages` beside the program's own file, where there is one and the system says which file that is.
fn folder_beside<R: Files + AllocGlobal>(rt: &R) -> Result<Option<String>, AllocError> {
    let Ok(program) = env::current_exe(rt) else {
        return Ok(None);
    };
    let Some(beside) = program.parent() else {
        return Ok(None);
    };
    let folder = format!(in rt.alloc(); "{}/pages", beside.as_str())?;
    match fs::metadata(rt, folder.as_str()) {
        Ok(found) if found.is_dir() => Ok(Some(folder)),
        _ => Ok(None),
    }
}

/// The pages that are the files of a folder. The first that is none is told by its name: `NoPage` by its name,
/// `IrregularPage` where it is a link, a FIFO or a folder, `LongPage` with more than 1,048,576 bytes, `ManyPages` where 64 came before it, and `PageUnread` where it, or the folder, can't be
/// read.
fn read_pages<R: Files + AllocGlobal + Clone + Drop + Eprint + Log>(
    rt: &R,
    folder: &str,
) -> Result<Pages, ProgramFault>
    ensures { IfOk result (All IsFilePage) }
{
    let Ok(entries) = fs::read_dir(rt, folder) else {
        let _ = eprintln!(rt; "wozhinnam: {folder}: the folder of pages can't be read");
        return Err(ProgramFault::PageUnread);
    };
    let mut pages = Vec::new(rt.alloc());
    for entry in entries {
        let page = page_in(rt, folder, entry, pages.len())?;
        pages.push(page)?;
    }
    tell(rt, folder, pages.len());
    Ok(Pages::from_vec(pages))
}

/// Tells how many pages a folder has.
fn tell<R: Log>(rt: &R, folder: &str, count: usize) {
    info!(rt; "{folder}: {count} pages");
}

/// The page that an entry of a folder is, behind so many others. A fault is told by its name.
fn page_in<R: Files + AllocGlobal + Eprint + Drop>(
    rt: &R,
    folder: &str,
    entry: io::Result<fs::DirEntry<R, Global>>,
    before: usize,
) -> Result<Page, ProgramFault>
    ensures page { IfOk result IsFilePage }
{
    let Ok(entry) = entry else {
        let _ = eprintln!(rt; "wozhinnam: {folder}: the folder of pages can't be read");
        return Err(ProgramFault::PageUnread);
    };
    let name = entry.file_name();
    match read_page(rt, folder, name, before) {
        Ok(page) => Ok(page),
        Err(fault) => {
            let _ = eprintln!(rt; "wozhinnam: {folder}/{name}: {fault}");
            Err(fault)
        }
    }
}

/// The page that a file is, behind so many others.
fn read_page<R: Files + AllocGlobal>(
    rt: &R,
    folder: &str,
    name: &str,
    before: usize,
) -> Result<Page, ProgramFault>
    ensures { IfOk result (IsPageOf name.now) }
{
    let Some(kind) = kind_of(name.as_bytes()) else {
        return Err(ProgramFault::NoPage);
    };
    if before >= MOST_PAGES {
        return Err(ProgramFault::ManyPages);
    }
    let file = format!(in rt.alloc(); "{folder}/{name}")?;
    look_at(rt, file.as_str())?;
    match read_at_most(rt, file.as_str(), MOST_BYTES) {
        Ok(bytes) => page_of(rt.alloc(), name.as_bytes(), kind, bytes),
        Err(_) => Err(ProgramFault::PageUnread),
    }
}

/// Refuses what is no regular file: a FIFO would be waited for, and a link may lead anywhere.
fn look_at<R: Files>(rt: &R, path: &str) -> Result<(), ProgramFault> {
    match fs::symlink_metadata(rt, path) {
        Ok(found) if found.is_file() => Ok(()),
        Ok(_) => Err(ProgramFault::IrregularPage),
        Err(_) => Err(ProgramFault::PageUnread),
    }
}

/// The page that a file of this name, which is of this kind, with these bytes is: all of them, unless they are too many.
fn page_of(
    alloc: Global,
    name: &[u8],
    kind: MediaType,
    bytes: Vec<u8>,
) -> Result<Page, ProgramFault>
    ensures page { page_kind name.now ≡ Some kind → IfOk result (IsPageOf name.now) }
    ensures whole { IfOk result (λ page. page.body ≡ bytes.items) }
    ensures too_long { 1_048_576 < length bytes.items → result ≡ Err ProgramFault.LongPage }
{
    if bytes.len() > MOST_BYTES {
        return Err(ProgramFault::LongPage);
    }
    let path = path_of(alloc, name)?;
    Ok(Page {
        path,
        kind,
        body: SharedBytes::from_vec(bytes)?,
    })
}

/// Where a page of this name is read.
fn path_of(alloc: Global, name: &[u8]) -> Result<Bytes, AllocError>
    ensures { IfOk result (λ path. path ≡ page_path name.now) }
{
    if name == b"index.html".as_slice() {
        return Bytes::from_slice(alloc, b"/");
    }
    let mut path = Vec::from_slice(alloc, b"/")?;
    path.extend_from_slice(name)?;
    Ok(Bytes::from_vec(path))
}

/// What a page of this name is, where a file of it may be one.
fn kind_of(name: &[u8]) -> Option<MediaType>
    ensures { result ≡ page_kind name.now }
{
    if are_plain(name) {
        kind_by_end(name)
    } else {
        None
    }
}

/// Whether each byte may stand in the name of a page.
fn are_plain(name: &[u8]) -> bool
    ensures { result ≡ list_all is_page_byte name.now }
{
    name.iter().all(|byte| is_plain(*byte))
}

/// What a file is by the end of its name.
fn kind_by_end(name: &[u8]) -> Option<MediaType>
    ensures { result ≡ kind_by_end name.now }
{
    if name.ends_with(b".html") {
        Some(MediaType::Html)
    } else if name.ends_with(b".css") {
        Some(MediaType::Css)
    } else if name.ends_with(b".js") {
        Some(MediaType::JavaScript)
    } else if name.ends_with(b".svg") {
        Some(MediaType::Svg)
    } else if name.ends_with(b".png") {
        Some(MediaType::Png)
    } else if name.ends_with(b".json") {
        Some(MediaType::Json)
    } else if name.ends_with(b".txt") {
        Some(MediaType::PlainText)
    } else {
        None
    }
}

/// Whether a byte may stand in the name of a page.
fn is_plain(byte: u8) -> bool
    ensures { result ≡ is_page_byte byte }
{
    byte.is_ascii_alphanumeric() || byte == b'.' || byte == b'-' || byte == b'_'
}
