//! Folders in memory: one that files are written into, and one that they are read from.

use caps::Cap;
use client_tree::{Child, Folder, Item, LocalFault, Source};
use octets::Text;
use std::alloc::{AllocError, Global};

/// A file that was written.
#[derive(Drop)]
pub struct Written {
    /// The names of its path, with `/` between them.
    pub path: String,
    /// Its bytes.
    pub bytes: Vec<u8>,
}

/// A folder that files are written into, and that has none under a path of which there is one.
#[derive(Drop)]
pub struct Kept {
    alloc: Global,
    /// What was written.
    pub files: Vec<Written>,
}

impl Kept {
    /// An empty one.
    pub fn new(alloc: Global) -> Self {
        Kept {
            alloc,
            files: Vec::new(alloc),
        }
    }

    /// Whether each file that was written is one of these, whole.
    pub fn is_of(&self, wanted: &[(&str, &[u8])]) -> bool {
        self.files.iter().all(|file| {
            wanted.iter().any(|(path, bytes)| file.path.as_str() == *path
                && file.bytes.as_slice() == *bytes)
        })
    }

    /// The file that was written under a path.
    fn found(&mut self, path: &str) -> Option<&mut Written> {
        self.files
            .iter_mut()
            .find(|file| file.path.as_str() == path)
    }
}

impl Folder for Kept {
    fn make_folder(&mut self, _path: &[Text]) -> Result<(), LocalFault> {
        Ok(())
    }

    fn write_file(&mut self, path: &[Text], bytes: &[u8]) -> Result<(), LocalFault> {
        let path = joined(self.alloc, path)?;
        if self.found(path.as_str()).is_some() {
            return Err(LocalFault);
        }
        let bytes = Vec::from_slice(self.alloc, bytes)?;
        match self.files.push(Written { path, bytes }) {
            Ok(()) => Ok(()),
            Err(_) => Err(LocalFault),
        }
    }

    fn append_file(&mut self, path: &[Text], bytes: &[u8]) -> Result<(), LocalFault> {
        let path = joined(self.alloc, path)?;
        match self.found(path.as_str()) {
            Some(file) => Ok(file.bytes.extend_from_slice(bytes)?),
            None => Err(LocalFault),
        }
    }
}

/// A folder that files are read from: each file's path and bytes. It knows no caps.
#[derive(Drop)]
pub struct Held<'a> {
    /// For what is read.
    pub alloc: Global,
    /// The files.
    pub files: &'a [(&'a str, &'a [u8])],
    /// The bytes of the file that is read that weren't given yet.
    pub left: &'a [u8],
}

impl Held<'_> {
    /// The items below a path that ends in `/`, or is empty.
    fn items_below(&self, path: &str) -> Result<Vec<Item>, AllocError> {
        let mut items: Vec<Item> = Vec::new(self.alloc);
        for (name, _) in self.files {
            let Some(below) = name.strip_prefix(path) else {
                continue;
            };
            let (name, is_folder) = match below.split_once('/') {
                Some((name, _)) => (name, true),
                None => (below, false),
            };
            if items.iter().all(|item| item.name.as_str() != name) {
                let name = text_of(self.alloc, name)?;
                items.push(Item { name, is_folder })?;
            }
        }
        Ok(items)
    }
}

impl Source for Held<'_> {
    fn items(&mut self, path: &[Text]) -> Result<Vec<Item>, LocalFault> {
        let mut path = joined(self.alloc, path)?;
        if !path.is_empty() {
            path.push_str("/")?;
        }
        Ok(self.items_below(path.as_str())?)
    }

    fn read_piece(&mut self, path: &[Text], is_first: bool) -> Result<Vec<u8>, LocalFault> {
        if is_first {
            let path = joined(self.alloc, path)?;
            let Some((_, bytes)) = self.files.iter().find(|file| file.0 == path.as_str()) else {
                return Err(LocalFault);
            };
            self.left = *bytes;
        }
        let count = self.left.len().min(16_777_216);
        let piece = Vec::from_slice(self.alloc, &self.left[..count])?;
        self.left = &self.left[count..];
        Ok(piece)
    }

    fn known(&mut self, _path: &[Text]) -> Result<Option<Cap>, LocalFault> {
        Ok(None)
    }

    fn stored(&mut self, _path: &[Text], _files: &[Child]) -> Result<(), LocalFault> {
        Ok(())
    }
}

/// The names of a path, with `/` between them.
fn joined(alloc: Global, path: &[Text]) -> Result<String, AllocError> {
    let mut text = String::new(alloc);
    for (place, name) in path.iter().enumerate() {
        if place > 0 {
            text.push_str("/")?;
        }
        text.push_str(name.as_str())?;
    }
    Ok(text)
}

/// A text that owns its bytes.
pub fn text_of(alloc: Global, text: &str) -> Result<Text, AllocError> {
    Ok(Text::from_string(String::from_str(alloc, text)?))
}
