//! Where children JSON is cut.
ghost use Rattle.std.specs.Prelude.{◌≡◌, ◌≢◌, ◌<◌, ◌≤◌, ℕ, List, Some, None, length, IfOk, IfSome};
ghost use Rattle.json.specs.Token.{begin_object};
ghost use Rattle.json.specs.Lex.{tokens};
ghost use Rattle.json.specs.Word.{is_space};
ghost use Rattle.json_members.specs.MemberCuts.{first_token};
ghost use Rattle.children_reader.specs.Collected.{IsBehindBrace};
ghost use Rattle.children_reader.specs.Piecewise.{IsLooked, IsPieceSought};

use json_members::MemberScanner;
use json_spelling::CommaSearch;
use std::alloc::{AllocError, Global};

/// The place behind the brace that opens the object which a text begins with. None where it begins with no object.
pub(crate) fn behind_brace(json: &[u8]) -> Option<usize>
    ensures some { IfSome result (λ at. IsBehindBrace json.now at) }
    ensures none { result ≡ None → first_token (tokens json.now) ≢ Some begin_object }
{
    json_members::laws::objects_begin_with_a_brace();
    for (i, byte) in json.iter().enumerate() {
        if *byte == b'{' {
            return Some(i + 1);
        }
        if !is_space(*byte) {
            return None;
        }
    }
    None
}

/// White space between tokens.
fn is_space(byte: u8) -> bool
    ensures { result ≡ is_space byte }
{
    matches!(byte, b' ' | b'\t' | b'\n' | b'\r')
}

/// What was looked through of children JSON.
#[derive(Drop)]
pub(crate) struct Looked {
    /// The place behind the opening brace or the comma between members that it begins at.
    pub(crate) at: usize,
    /// The place up to which its pieces go: that one, or one behind a comma outside strings.
    pub(crate) end: usize,
    /// The search for the next comma behind it.
    pub(crate) search: CommaSearch,
    /// What is open where the search is.
    scanner: MemberScanner,
}

impl Looked {
    /// Nothing yet.
    pub(crate) fn new(at: usize) -> Looked
        ensures at { result.at ≡ at }
        ensures end { result.end ≡ at }
        ensures reached { result.search.reached ≡ at }
        ensures looked { (json : List ℕ) → at ≤ length json → IsLooked json result }
    {
        json_members::laws::member_cuts_are_found_in_parts();
        let mut scanner = MemberScanner::new();
        scanner.last_cut(b"{");
        Looked {
            at,
            end: at,
            search: CommaSearch::new(at),
            scanner,
        }
    }
}

/// A piece of the text of members.
#[derive(Drop)]
pub(crate) struct Piece {
    /// The piece, with a closing brace in place of a comma between members.
    pub(crate) text: Vec<u8>,
    /// What stands behind it.
    pub(crate) behind: Behind,
}

/// What stands behind a piece.
#[derive(Drop)]
pub(crate) enum Behind {
    /// A comma inside a member, and what was looked through with it.
    Comma(Looked),
    /// A comma between members, and the place behind it. None where it is the last piece of all.
    End(Option<usize>),
}

/// How the search for a piece goes on.
#[derive(Drop)]
pub(crate) enum NextPiece {
    /// It has not ended in what was looked through.
    Sought(Looked),
    /// It is found.
    Found(Piece),
}

/// The piece that stands behind those before it, where it ends in the next 65,536 bytes: up to the last comma between
/// members in them, or else to the last comma outside strings, or the rest.
pub(crate) fn next_piece(
    alloc: Global,
    json: &[u8],
    looked: &Looked,
) -> Result<NextPiece, AllocError>
    requires { IsLooked json.now looked.now }
    ensures { IfOk result (λ next. IsPieceSought json.now looked.now next) }
{
    json_members::laws::member_cuts_are_found_in_parts();
    let at = looked.at;
    let end = looked.end;
    let mut search = looked.search;
    let mut scanner = looked.scanner;
    let mut before = looked.scanner;
    let start = search.reached;
    let comma = search.step(json);
    let last = scanner.last_cut(&json[start..search.reached]);
    if let Some(last) = last {
        let mut text = Vec::from_slice(alloc, &json[end..start + last])?;
        text.push(b'}')?;
        return Ok(NextPiece::Found(Piece {
            text,
            behind: Behind::End(Some(start + last + 1)),
        }));
    }
    if let Some(comma) = comma {
        before.last_cut(&json[start..comma + 1]);
        let text = Vec::from_slice(alloc, &json[end..comma])?;
        let next = Looked {
            at,
            end: comma + 1,
            search: CommaSearch::new(comma + 1),
            scanner: before,
        };
        return Ok(NextPiece::Found(Piece {
            text,
            behind: Behind::Comma(next),
        }));
    }
    if search.reached < json.len() {
        return Ok(NextPiece::Sought(Looked {
            at,
            end,
            search,
            scanner,
        }));
    }
    let text = Vec::from_slice(alloc, &json[end..])?;
    Ok(NextPiece::Found(Piece {
        text,
        behind: Behind::End(None),
    }))
}
