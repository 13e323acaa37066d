//! Directories that are prepared: the text of the directory that children JSON names, made step by step before it is stored.
ghost use Rattle.std.specs.Prelude.{◌≡◌, IfOk, option_map};
ghost use Rattle.children_reader.specs.TextMakers.{IsTextMaker, text_made};

use crate::cache::Cache;
use children_reader::{TextMaker, TextMaking, make_text};
use file_shares::next_piece;
use std::alloc::{AllocError, Global};
use std::marker::Model;

/// Children JSON that is awaited: a copy of its first bytes, and once all are copied the text of the directory that it names,
/// as far as it is made.
pub(crate) struct DirectoryAhead {
    /// How many bytes it has.
    size: usize,
    json: Vec<u8>,
    making: Option<TextMaking>,
}

// Its own, so that what owns one calls it: a derived drop is spelled out wherever a value may be dropped.
impl Drop for DirectoryAhead {
    fn drop(self) {
        let DirectoryAhead {
            size: _,
            json: _,
            making: _,
        } = self;
    }
}

impl Model for DirectoryAhead {
    ghost use Rattle.std.specs.Prelude.{ℕ, List, IfSome};
    ghost use Rattle.children_reader.specs.TextMakers.{IsTextMadeOn};

    ghost Value = { List ℕ };

    ghost view = { λ d. d.json.items };

    ghost invariant = { λ d. IfSome d.making (IsTextMadeOn d.json.items) };
}

impl DirectoryAhead {
    /// Before the first step. The memory for a copy of all bytes is taken.
    pub(crate) fn new(alloc: Global, size: usize) -> Result<DirectoryAhead, AllocError> {
        Ok(DirectoryAhead {
            size,
            json: Vec::with_capacity(alloc, size)?,
            making: None,
        })
    }

    /// Whether it is for JSON of so many bytes.
    pub(crate) fn is_of(&self, size: usize) -> bool {
        self.size == size
    }

    /// Whether the text is made, or there is none.
    pub(crate) fn is_made(&self) -> bool {
        matches!(self.making, Some(TextMaking::Done(_)))
    }

    /// The text, once it is made and where there is one.
    pub(crate) fn text(&self) -> Option<&[u8]> {
        match &self.making {
            Some(TextMaking::Done(Some(text))) => Some(text.as_slice()),
            Some(TextMaking::Done(None)) => None,
            Some(TextMaking::Going(_)) => None,
            None => None,
        }
    }

    /// With the next piece of a body and what follows it copied, or once all is copied with a step more of the text.
    pub(crate) fn step(
        self,
        alloc: Global,
        body: &[u8],
        next: &[u8],
    ) -> Result<DirectoryAhead, AllocError> {
        let DirectoryAhead { size, json, making } = self;
        match making {
            None => copy_next(size, json, body, next),
            Some(TextMaking::Going(maker)) => make_next(alloc, size, json, maker),
            Some(TextMaking::Done(text)) => Ok(DirectoryAhead {
                size,
                json,
                making: Some(TextMaking::Done(text)),
            }),
        }
    }

    /// The text, where it is made and this is the JSON, and None in it where the JSON names no directory. Else itself is given
    /// back.
    pub(crate) fn give(self, json: &[u8]) -> Result<Option<Vec<u8>>, DirectoryAhead>
        ensures { IfOk result (λ text. option_map (λ bytes. bytes.items) text ≡ text_made json.now) }
    {
        if self.json.as_slice() != json {
            return Err(self);
        }
        let DirectoryAhead {
            size,
            json: copy,
            making,
        } = self;
        match making {
            Some(TextMaking::Done(text)) => Ok(text),
            other => Err(DirectoryAhead {
                size,
                json: copy,
                making: other,
            }),
        }
    }
}

/// With the next piece copied, or the text begun once all is.
fn copy_next(
    size: usize,
    copied: Vec<u8>,
    body: &[u8],
    next: &[u8],
) -> Result<DirectoryAhead, AllocError> {
    let mut json = copied;
    if json.len() >= size {
        return Ok(DirectoryAhead {
            size,
            json,
            making: Some(TextMaking::Going(TextMaker::new())),
        });
    }
    json.extend_from_slice(next_piece(json.len(), body, next))?;
    Ok(DirectoryAhead {
        size,
        json,
        making: None,
    })
}

/// With a step more of the text.
fn make_next(
    alloc: Global,
    size: usize,
    json: Vec<u8>,
    maker: TextMaker,
) -> Result<DirectoryAhead, AllocError>
    requires { IsTextMaker json.items maker }
{
    let making = maker.step(alloc, json.as_slice())?;
    Ok(DirectoryAhead {
        size,
        json,
        making: Some(making),
    })
}

/// The text of the directory of the children that JSON names. What the cache has prepared of it ([`Cache::prepare_directory`])
/// isn't made again. None where the JSON names no directory.
///
/// # Errors
/// `AllocError` where memory is refused.
pub fn directory_text_of(
    alloc: Global,
    cache: &mut Cache,
    json: &[u8],
) -> Result<Option<Vec<u8>>, AllocError>
    ensures cached { cache.new ≡ cache.old }
    ensures text { IfOk result (λ text. option_map (λ bytes. bytes.items) text ≡ text_made json.now) }
{
    match cache.take_directory(json) {
        Some(text) => Ok(text),
        None => make_text(alloc, json),
    }
}
