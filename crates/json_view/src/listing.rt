//! The JSON of directories that is made as it is taken.
ghost use Rattle.std.specs.Prelude.{◌≡◌, ◌≢◌, ◌<◌, ◌≤◌, ◌+◌, [], ◌++◌, length, true, drop, Err, IfOk, IfErr, IfSome, OnOk, OnErr, IsOk, MatchOption, if◌then◌else◌};
ghost use Rattle.std.specs.Rc.{rc_slice_items};
ghost use Rattle.dir_codec.specs.Reading.{reading_after, directory_reading};
ghost use Rattle.dir_codec.specs.First.{IsFirstEntry};
ghost use Rattle.dir_codec.specs.declared.fault.DirFault.TheVariants.{NoMemory};
ghost use Rattle.json_view.specs.KeptSpellings.{AreSpellingsIn, IsKnownSpelling};
ghost use Rattle.json_view.specs.Listings.{IsListingOf, head_unless, IsReadable, AreChildrenPut, IsPiece};

use crate::counting::Counted;
use crate::kept_spelling::{KeptSpelling, take_spelling};
use crate::node::{put_child, put_dir_end, put_dir_head};
use crate::text::put_comma;
use caps::Cap;
use dir_codec::{DirFault, Entry, read_first, read_spelled};
use octets::Text;
use std::alloc::{AllocError, Global};
use std::collections::VecDeque;
use std::marker::Model;
use std::rc::RcSlice;

/// A piece has this many bytes at least, unless it is the last one.
const PIECE: usize = 65_536;

/// Of a text, a part with this many bytes or more is let go of.
const LET_GO: usize = 65_536;

/// The bytes that are left of a directory's JSON, which are made of its text as they are taken. It holds the text, and of
/// the JSON nothing but what stands behind the children and the spellings of long metadata that were made while the children
/// were counted, each until its child is given. The part of the text whose children were given is let go of once it has
/// 65,536 bytes, and as many as the rest, which is copied for that. So between two calls fewer bytes of the text are held
/// than twice the rest, or than 65,536 more than it. Where memory for the copy is refused the text is held as it is, until a
/// later call can copy the rest. Contracts see a listing as the bytes that are left.
#[derive(Drop)]
pub struct Listing {
    /// What is held of the text.
    text: RcSlice<u8>,
    /// What stands behind the children.
    end: Vec<u8>,
    /// The place in the text behind the entries of the children that were given.
    at: usize,
    /// Whether what stands before the children was given.
    begun: bool,
    /// Whether all bytes were given.
    ended: bool,
    /// How many bytes are left.
    left: usize,
    /// The spellings of long metadata of children that are left, as far as they were kept.
    spellings: VecDeque<KeptSpelling>,
}

impl Model for Listing {
    ghost use Rattle.std.specs.Prelude.{List, ℕ};
    ghost use Rattle.std.specs.Rc.{rc_slice_items};
    ghost use Rattle.json_view.specs.Listings.{listing_left, IsListing};

    ghost Value = { List ℕ };

    ghost view = { λ l. listing_left l.ended l.begun l.at (rc_slice_items l.text) l.end.items };

    ghost invariant = { λ l. IsListing l.at l.left (rc_slice_items l.text)
        (listing_left l.ended l.begun l.at (rc_slice_items l.text) l.end.items) l.spellings.items };
}

impl Listing {
    /// The JSON of the directory whose text was counted, as [`crate::dir_json`] makes it. Nothing of the text is read
    /// again.
    ///
    /// # Errors
    /// The fault that was met in the text, and `NoMemory` where memory is refused. A text whose JSON has more bytes than a
    /// `usize` counts is refused as memory is.
    pub fn new(alloc: Global, cap: &Cap, counted: Counted) -> Result<Listing, DirFault>
        ensures read { IfOk result (λ listing. IsListingOf cap.now counted listing) }
        ensures refused { IfErr result (λ fault. fault ≢ NoMemory → directory_reading counted ≡ Err fault) }
    {
        let Counted {
            text,
            children,
            spellings,
        } = counted;
        let count = children?;
        let mut head = Vec::new(alloc);
        put_head_unless(&mut head, false)?;
        let mut end = Vec::new(alloc);
        put_dir_end(alloc, &mut end, cap)?;
        let Some(left) = sum(head.len(), count, end.len()) else {
            return Err(DirFault::NoMemory);
        };
        Ok(Listing {
            text,
            end,
            at: 0,
            begun: false,
            ended: false,
            left,
            spellings,
        })
    }

    /// How many bytes are left.
    pub fn len(&self) -> usize
        ensures { result ≡ length self.now }
    {
        self.left
    }

    /// The next bytes, of which there is one at least, or none where no byte is left: those of whole children until there
    /// are 65,536, with what stands before the first child and behind the last one. What was given is then let go of, as
    /// [`Listing`] says: what is left of the text may be copied. A spelling that was kept is copied once.
    ///
    /// # Errors
    /// Only where memory is refused. Then the same bytes are left: the call can be made again. A spelling that was kept for
    /// them may be let go of then, so that it is made anew, in one call.
    pub fn next(&mut self, alloc: Global) -> Result<Option<Vec<u8>>, AllocError>
        ensures given { IfOk result (λ given.
            MatchOption given ((self.old ≡ []) × (self.new ≡ []))
            (λ bytes. (0 < length bytes.items) × (self.old ≡ bytes.items ++ self.new))) }
        ensures err { OnErr result (self.new ≡ self.old) }
        ensures nothing { self.old ≡ [] → IsOk result }
    {
        if self.left == 0 {
            return Ok(None);
        }
        let text = self.text.as_slice();
        let end = self.end.as_slice();
        let spellings = &mut self.spellings;
        let (piece, next, ended) = next_piece(alloc, text, end, spellings, self.begun, self.at)?;
        self.at = next;
        self.begun = true;
        self.ended = ended;
        self.left -= piece.len();
        self.let_go(alloc);
        Ok(Some(piece))
    }

    /// Lets go of the part of the text whose children were given, where that is worth a copy of the rest, and memory for it
    /// isn't refused.
    fn let_go(&mut self, alloc: Global)
        ensures { self.new ≡ self.old }
    {
        if let Some(rest) = copy_of_rest(alloc, self.text.as_slice(), self.at) {
            self.text = rest;
            self.at = 0;
        }
    }
}

/// The sum of three counts, None where it is too large.
fn sum(first: usize, second: usize, third: usize) -> Option<usize>
    ensures { IfSome result (λ sum. sum ≡ first + second + third) }
{
    first.checked_add(second)?.checked_add(third)
}

/// A copy of what stands from a place of a text on, where the part before it has as many bytes as the copy, and 65,536 or
/// more. None else, or where memory for the copy is refused.
fn copy_of_rest(alloc: Global, text: &[u8], at: usize) -> Option<RcSlice<u8>>
    requires { at ≤ length text.now }
    ensures rest { IfSome result (λ rest. rc_slice_items rest ≡ drop at text.now) }
    ensures halved { IfSome result (λ rest. length (rc_slice_items rest) ≤ at) }
{
    if at < LET_GO || at < text.len() - at {
        return None;
    }
    RcSlice::from_slice(alloc, &text[at..]).ok()
}

/// The next bytes of a listing that has come to a place of a text, the place to which they come, and whether they are the
/// last ones. The listing says whether it has begun, which is that its head was put. Of the spellings that are kept, those
/// of its children are taken out.
fn next_piece(
    alloc: Global,
    text: &[u8],
    end: &[u8],
    spellings: &mut VecDeque<KeptSpelling>,
    begun: bool,
    at: usize,
) -> Result<(Vec<u8>, usize, bool), AllocError>
    requires readable { IsReadable at text.now }
    requires kept { AreSpellingsIn text.now spellings.old.items }
    ensures piece { IfOk result (λ given.
        IsPiece text.now end.now begun at given.0.items given.1 given.2) }
    ensures kept { AreSpellingsIn text.now spellings.new.items }
{
    let mut piece = Vec::new(alloc);
    put_head_unless(&mut piece, begun)?;
    let next = put_from(alloc, &mut piece, text, spellings, begun, at)?;
    let ended = next == text.len();
    put_end_if(&mut piece, end, ended)?;
    Ok((piece, next, ended))
}

/// Puts what stands before the first child, unless it was put before.
fn put_head_unless(out: &mut Vec<u8>, later: bool) -> Result<(), AllocError>
    ensures { OnOk result (out.new.items ≡ out.old.items ++ head_unless later) }
{
    if later {
        return Ok(());
    }
    put_dir_head(out)
}

/// Puts what stands behind the last child, where it was put.
fn put_end_if(out: &mut Vec<u8>, end: &[u8], ended: bool) -> Result<(), AllocError>
    ensures { OnOk result (out.new.items
        ≡ out.old.items ++ (if ended then end.now else [])) }
{
    if ended {
        out.extend_from_slice(end)?;
    }
    Ok(())
}

/// Puts the children whose entries stand from a place of a directory's text on, one at least, until there are enough
/// bytes; whether the first of them is a later one, and so has a comma before it, is said. It gives the place behind them,
/// and takes out those of the spellings that are theirs. The text was read before, so that it has no fault.
fn put_from(
    alloc: Global,
    out: &mut Vec<u8>,
    text: &[u8],
    spellings: &mut VecDeque<KeptSpelling>,
    later: bool,
    from: usize,
) -> Result<usize, AllocError>
    requires readable { IsReadable from text.now }
    requires kept { AreSpellingsIn text.now spellings.old.items }
    ensures put { IfOk result (λ at.
        AreChildrenPut text.now later from out.old.items out.new.items true at) }
    ensures some { IfOk result (λ at. at < length text.now → 0 < length out.new.items) }
    ensures kept { AreSpellingsIn text.now spellings.new.items }
{
    let mut after = later;
    let mut at = from;
    while at < text.len() {
        let spelling = take_spelling(spellings, text, at);
        at = put_next(alloc, out, text, after, at, spelling)?;
        after = true;
        if out.len() >= PIECE {
            return Ok(at);
        }
    }
    Ok(at)
}

/// Puts the child whose entry stands at a place of a directory's text, with the comma before it that a later one has, and
/// gives the place behind it.
fn put_next(
    alloc: Global,
    out: &mut Vec<u8>,
    text: &[u8],
    later: bool,
    at: usize,
    spelling: Option<Text>,
) -> Result<usize, AllocError>
    requires some { at < length text.now }
    requires readable { IsReadable at text.now }
    requires known { IsKnownSpelling (drop at text.now) spelling }
    ensures put { IfOk result (λ next.
        AreChildrenPut text.now later at out.old.items out.new.items true next) }
    ensures further { IfOk result (λ next. at < next) }
{
    dir_codec::laws::ends_of_texts_are_texts();
    let Ok((entry, size)) = read_known(alloc, &text[at..], spelling) else {
        return Err(AllocError);
    };
    put_comma(out, later)?;
    put_child(alloc, out, &entry)?;
    Ok(at + size)
}

/// The first entry of a text, and how many bytes it takes. Its metadata are not read where their spelling is known.
fn read_known(
    alloc: Global,
    text: &[u8],
    spelling: Option<Text>,
) -> Result<(Entry, usize), DirFault>
    requires some { 0 < length text.now }
    requires known { IsKnownSpelling text.now spelling }
    ensures read { IfOk result (λ first. IsFirstEntry [] text.now first.0 first.1) }
    ensures refused { IfErr result (λ fault. fault ≢ NoMemory
        → reading_after [] text.now ≡ Err fault) }
{
    match spelling {
        Some(spelling) => read_spelled(alloc, &[], text, Some(spelling)),
        None => read_first(alloc, &[], text),
    }
}
