//! A reply that isn't whole yet.
ghost use Rattle.std.specs.Prelude.{◌≡◌, ◌<◌, ◌≤◌, ◌++◌, ℕ, List, Bool, [], None, Some, true, false, length, if◌then◌else◌, MatchResult, OnOk};
ghost use Rattle.ask_desk.specs.Reading.{IsHeld, IsBlank, IsOfLine, IsOfBulk, IsStep, IsStoppedBy, content_read};

use crate::DeskFault;
use memchr::memchr;
use octets::Bytes;
use resp::laws::one_reply;
use resp::{Item, Limits, Reply, RespFault, read_bulk_line, read_reply};
use std::alloc::{AllocError, Global};
use std::mem;

/// How large a reply may be, whatever was asked: one line, or a bulk string.
const LIMITS: Limits = Limits {
    line: 512,
    bulk: u32::MAX,
    elements: 0,
};

/// What a step led to.
#[derive(Drop)]
pub(crate) enum Read {
    /// More of the reply has to come.
    More,
    /// The reply is whole.
    Whole(Reply),
    /// It is whole, and was kept for nobody.
    Skipped,
}

/// A step.
#[derive(Drop)]
pub(crate) struct Step {
    /// So many bytes were taken.
    pub(crate) count: usize,
    /// What it led to.
    pub(crate) read: Read,
}

/// What came of a reply that isn't whole yet. The content of a bulk string is put where it stays, and each byte is looked
/// at once. A line has 515 bytes at most, and is read anew as more of it comes.
#[derive(Drop)]
pub(crate) struct Reader {
    alloc: Global,
    /// The line, as far as it came.
    line: Vec<u8>,
    /// How many bytes the bulk string has, once its line came.
    wants: Option<usize>,
    /// How many of them came.
    count: usize,
    /// Whether CR came behind them.
    has_return: bool,
    /// Those that came, where somebody waits for them.
    content: Vec<u8>,
}

impl Reader {
    /// Nothing came. Takes no memory.
    pub(crate) fn new(alloc: Global) -> Self
        ensures { IsBlank result }
    {
        Reader {
            alloc,
            line: Vec::new(alloc),
            wants: None,
            count: 0,
            has_return: false,
            content: Vec::new(alloc),
        }
    }

    /// Takes bytes, as far as the end of a line, of a bulk string's content or of CR and LF behind that. `keeps` says
    /// whether somebody waits for the reply, and `most` how many bytes a bulk string may have.
    pub(crate) fn hear(&mut self, bytes: &[u8], most: u32, keeps: bool) -> Result<Step, DeskFault>
        requires { 0 < length bytes.now }
        ensures { (part : List ℕ) → IsHeld keeps most self.old part → MatchResult result
            (λ step. IsStep keeps most part bytes.now step self.new)
            (λ fault. IsStoppedBy most (part ++ bytes.now) fault) }
    {
        match self.wants {
            None => self.hear_line(bytes, most),
            Some(len) if self.count < len => self.hear_content(bytes, len, keeps),
            Some(len) => self.hear_end(bytes, len, keeps),
        }
    }

    /// Takes bytes of a line.
    fn hear_line(&mut self, bytes: &[u8], most: u32) -> Result<Step, DeskFault>
        requires some { 0 < length bytes.now }
        requires line { self.old.wants ≡ None }
        ensures { (keeps : Bool) (part : List ℕ) →
            IsOfLine self.old.line.items self.old.content.items part → MatchResult result
            (λ step. IsStep keeps most part bytes.now step self.new)
            (λ fault. IsStoppedBy most (part ++ bytes.now) fault) }
    {
        let before = self.line.len();
        let count = line_part(bytes);
        self.line.extend_from_slice(&bytes[..count])?;
        if let Some((len, start)) = read_bulk_line(LIMITS, &self.line) {
            if len > most as usize {
                return Err(DeskFault::TooLong);
            }
            self.line.truncate(start);
            self.wants = Some(len);
            self.count = 0;
            self.has_return = false;
            return Ok(Step {
                count: start.saturating_sub(before),
                read: Read::More,
            });
        }
        // No reply begins another: what is whole now was not before.
        one_reply();
        match read_reply(self.alloc, LIMITS, &self.line) {
            Ok(None) => Ok(Step {
                count,
                read: Read::More,
            }),
            Ok(Some((reply, len))) => {
                self.line.clear();
                Ok(Step {
                    count: len.saturating_sub(before),
                    read: Read::Whole(reply),
                })
            }
            Err(RespFault::Wrong(_, _)) => Err(DeskFault::NoReply),
            Err(RespFault::NoMemory) => Err(DeskFault::NoMemory),
        }
    }

    /// Takes bytes of a bulk string's content, of which not all came.
    fn hear_content(&mut self, bytes: &[u8], len: usize, keeps: bool) -> Result<Step, DeskFault>
        requires some { 0 < length bytes.now }
        requires wants { self.old.wants ≡ Some len }
        requires more { self.old.count < len }
        ensures { (most : ℕ) (part : List ℕ) → IsHeld keeps most self.old part →
            MatchResult result (λ step. IsStep keeps most part bytes.now step self.new)
            (λ fault. IsStoppedBy most (part ++ bytes.now) fault) }
    {
        let count = bytes.len().min(len - self.count);
        keep_content(&mut self.content, &bytes[..count], keeps)?;
        self.count += count;
        Ok(Step {
            count,
            read: Read::More,
        })
    }

    /// Takes a byte of CR and LF behind a bulk string's content, all of which came.
    fn hear_end(&mut self, bytes: &[u8], len: usize, keeps: bool) -> Result<Step, DeskFault>
        requires some { 0 < length bytes.now }
        requires wants { self.old.wants ≡ Some len }
        requires all { len ≤ self.old.count }
        ensures { (most : ℕ) (part : List ℕ) → IsHeld keeps most self.old part →
            MatchResult result (λ step. IsStep keeps most part bytes.now step self.new)
            (λ fault. IsStoppedBy most (part ++ bytes.now) fault) }
    {
        if self.has_return {
            self.hear_line_feed(bytes, len, keeps)
        } else {
            self.hear_return(bytes, len, keeps)
        }
    }

    /// Takes CR.
    fn hear_return(&mut self, bytes: &[u8], len: usize, keeps: bool) -> Result<Step, DeskFault>
        requires some { 0 < length bytes.now }
        requires wants { self.old.wants ≡ Some len }
        requires all { len ≤ self.old.count }
        requires first { self.old.has_return ≡ false }
        ensures { (most : ℕ) (part : List ℕ) → IsHeld keeps most self.old part →
            MatchResult result (λ step. IsStep keeps most part bytes.now step self.new)
            (λ fault. IsStoppedBy most (part ++ bytes.now) fault) }
    {
        let byte = bytes[0];
        if byte != b'\r' {
            return Err(DeskFault::NoReply);
        }
        self.has_return = true;
        Ok(Step {
            count: 1,
            read: Read::More,
        })
    }

    /// Takes LF behind it.
    fn hear_line_feed(&mut self, bytes: &[u8], len: usize, keeps: bool) -> Result<Step, DeskFault>
        requires some { 0 < length bytes.now }
        requires wants { self.old.wants ≡ Some len }
        requires all { len ≤ self.old.count }
        requires second { self.old.has_return ≡ true }
        ensures { (most : ℕ) (part : List ℕ) → IsHeld keeps most self.old part →
            MatchResult result (λ step. IsStep keeps most part bytes.now step self.new)
            (λ fault. IsStoppedBy most (part ++ bytes.now) fault) }
    {
        let byte = bytes[0];
        if byte != b'\n' {
            return Err(DeskFault::NoReply);
        }
        Ok(Step {
            count: 1,
            read: self.take_content(keeps),
        })
    }

    /// Takes the content, and begins anew.
    fn take_content(&mut self, keeps: bool) -> Read
        ensures read { result ≡ content_read keeps self.old.content.items }
        ensures blank { IsBlank self.new }
    {
        let content = mem::replace(&mut self.content, Vec::new(self.alloc));
        self.clear();
        if keeps {
            Read::Whole(Reply::One(Item::Bulk(Bytes::from_vec(content))))
        } else {
            Read::Skipped
        }
    }

    /// Keeps no content from now on, where nobody waits for it.
    pub(crate) fn forget(&mut self, is_nobodys: bool)
        ensures held { (keeps : Bool) (most : ℕ) (part : List ℕ) →
            IsHeld keeps most self.old part →
            IsHeld (if is_nobodys then false else keeps) most self.new part }
        ensures blank { IsBlank self.old → IsBlank self.new }
    {
        if is_nobodys {
            self.content = Vec::new(self.alloc);
        }
    }

    /// Begins anew.
    pub(crate) fn clear(&mut self)
        ensures { IsBlank self.new }
    {
        self.line.clear();
        self.wants = None;
        self.content = Vec::new(self.alloc);
    }
}

/// Puts bytes of a bulk string where they stay, if somebody waits for them.
fn keep_content(content: &mut Vec<u8>, bytes: &[u8], keeps: bool) -> Result<(), AllocError>
    ensures { OnOk result (content.new.items
        ≡ (if keeps then content.old.items ++ bytes.now else content.old.items)) }
{
    if !keeps {
        return Ok(());
    }
    content.extend_from_slice(bytes)
}

/// How many bytes there are as far as the end of the first line.
fn line_part(bytes: &[u8]) -> usize
    ensures within { result ≤ length bytes.now }
    ensures some { 0 < length bytes.now → 0 < result }
{
    match memchr(b'\n', bytes) {
        Some(place) => place + 1,
        None => bytes.len(),
    }
}
