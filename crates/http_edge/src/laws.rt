//! What holds of the framing, whatever the bytes.
ghost use Rattle.std.specs.Prelude.{◌≡◌, ◌<◌, ◌≤◌, ◌-◌, ◌^◌, ℕ, List, [], ◌∷◌, ◌++◌, take, length, All, Some, true, decimal, codes, if◌then◌else◌};
ghost use Rattle.std.specs.List.{list_any, list_all};
ghost use Rattle.httparse.specs.Grammar.{LineEnd, print_end, RequestHead, IsRequestHead, print_request, ReadsRequest};
ghost use Rattle.http_edge.specs.Block.{head_of};
ghost use Rattle.http_edge.specs.Judge.{closes, within_limit, verdict_of, block_verdict, request, request_of, is_head_request, most_body_bytes};
ghost use Rattle.http_edge.specs.Frame.{frame, most_head_bytes};
ghost use Rattle.http_edge.specs.FramingState.{FramingState, part_of, body_of, chunks_of, is_closed, rest, frame_from, rest_from, frame_after};
ghost use Rattle.http_edge.specs.declared.item.Item.TheVariants.{Fault};
ghost use Rattle.http_edge.specs.declared.verdict.Awaited.{Awaited};
ghost use Rattle.http_edge.specs.declared.verdict.Chunked.{Chunked};
ghost use Rattle.http_edge.specs.Read.{IsItemRead};
ghost use Rattle.http_edge.specs.Plain.{is_line_byte};
ghost use Rattle.http_edge.specs.Reply.{crlf};
ghost use Rattle.http_edge.specs.Chunks.{ChunkedBody, print_body, IsChunkedBody, content_of, IsBeginning, StandsIn};
ghost use Rattle.http_edge.specs.Limit.{PassesLimit};
ghost use Rattle.http_edge.specs.Places.{going, whole, broken, chunked_of, line_start};
ghost use Rattle.http_edge.specs.declared.place.Place.{Place};
ghost use Rattle.http_edge.specs.declared.item.FramingFault.{FramingFault};
ghost use Rattle.http_edge.specs.declared.item.FramingFault.TheVariants.{BadChunk, TooLong};

/// A second piece completes the items that it completes after what the first leaves over.
pub fn pieces_join()
    ensures items { (s more : List ℕ) → frame (s ++ more) ≡ frame s ++ frame_from (rest s) more }
    ensures left { (s more : List ℕ) → rest (s ++ more) ≡ rest_from (rest s) more }
    ensures items_from { (left : FramingState) (s more : List ℕ)
        → frame_from left (s ++ more) ≡ frame_from left s ++ frame_from (rest_from left s) more }
    ensures left_from { (left : FramingState) (s more : List ℕ)
        → rest_from left (s ++ more) ≡ rest_from (rest_from left s) more }
{}

/// What the bytes leave over: at first nothing; later an end, after an item that closes, or a beginning of a head block
/// or of a body, which by itself completes nothing and is shorter than the longest.
pub fn left_over()
    ensures items_first { frame [] ≡ [] }
    ensures left_first { rest [] ≡ part_of [] }
    ensures ended { (s : List ℕ) → is_closed (rest s) ≡ list_any closes (frame s) }
    ensures items_settled { (s : List ℕ) → frame_from (rest s) [] ≡ [] }
    ensures left_settled { (s : List ℕ) → rest_from (rest s) [] ≡ rest s }
    ensures short_head { (s part : List ℕ) → rest s ≡ part_of part → length part < most_head_bytes }
    ensures short_body { (s : List ℕ) (a : Awaited) (body : List ℕ) → rest s ≡ body_of a body
        → (length body < a.length) × (a.length ≤ most_body_bytes) }
{}

/// `head_of` is the grammar of `httparse`, as a function.
pub fn head_is_of_the_grammar()
    ensures only { (block : List ℕ) (h : RequestHead) → head_of block ≡ Some h
        → ReadsRequest block h [] }
    ensures each { (block : List ℕ) (h : RequestHead) → ReadsRequest block h []
        → head_of block ≡ Some h }
{}

/// A string that begins with a request head of the grammar, one that isn't too long, is framed by what that head comes
/// to, and then by what follows it. Empty lines before it are dropped.
pub fn head_comes_first()
    ensures head { (h : RequestHead) (more : List ℕ) → IsRequestHead h → h.blank ≡ []
        → length (print_request h) ≤ most_head_bytes
        → frame (print_request h ++ more) ≡ frame_after (block_verdict (print_request h)) more }
    ensures verdict { (h : RequestHead) → IsRequestHead h
        → block_verdict (print_request h) ≡ verdict_of (within_limit (Some h)) }
    ensures blank { (end : LineEnd) (more : List ℕ) → frame (print_end end ++ more) ≡ frame more }
{}

/// The body of a request is the next bytes after its head, as many as it says, or a chunked body, within the limit;
/// then come the next messages. Chunks whose sizes pass the limit are a fault.
pub fn body_comes_next()
    ensures items { (a : Awaited) (body more : List ℕ) → length body ≡ a.length
        → frame_from (body_of a []) (body ++ more)
        ≡ request a body ∷ (if a.close then [] else frame more) }
    ensures short { (a : Awaited) (body : List ℕ) → length body < a.length
        → frame_from (body_of a []) body ≡ [] }
    ensures chunks { (a : Chunked) (body : ChunkedBody) (more : List ℕ) → IsChunkedBody body
        → length (content_of body.chunks) ≤ most_body_bytes
        → frame_from (chunks_of a [] line_start) (print_body body ++ more)
        ≡ request_of a (content_of body.chunks) ∷ (if a.close then [] else frame more) }
    ensures too_long { (a : Chunked) (text more : List ℕ) → PassesLimit text
        → frame_from (chunks_of a [] line_start) (text ++ more)
        ≡ Fault TooLong (is_head_request a.head) ∷ [] }
{}

/// Each request that stands in the bytes has a head of the grammar of `httparse` with at most 64 fields, and a body as
/// long as they say.
pub fn requests_are_read()
    ensures { (s : List ℕ) → All IsItemRead (frame s) }
{}

/// The digits of a number hold no CR and no LF, so a reply's field may have them in its value.
pub fn numbers_are_plain()
    ensures { (n : ℕ) → n < 2 ^ 64 → list_all is_line_byte (decimal n) ≡ true }
{}

/// What a chunked body reads as, on small texts.
pub fn small_chunked_bodies()
    ensures whole { chunked_of (codes "2" ++ crlf ++ codes "fo" ++ crlf
        ++ codes "1;x=y" ++ crlf ++ codes "o" ++ crlf
        ++ codes "0" ++ crlf ++ codes "A: b" ++ crlf ++ crlf) ≡ whole (codes "foo") 28 }
    ensures bad { chunked_of (codes "2" ++ crlf ++ codes "foo") ≡ broken BadChunk 6 }
    ensures long { chunked_of (codes "1000001" ++ crlf) ≡ broken TooLong 9 }
{}

/// A text of the grammar of chunked bodies is read as what it brings, whatever follows it; what is read as a whole body
/// is one of the grammar; what goes on is a beginning of one; and bytes that are refused as none are no beginning of
/// one, while those before the last of them are.
pub fn chunked_bodies_are_of_the_grammar()
    ensures each { (body : ChunkedBody) (more : List ℕ) → IsChunkedBody body
        → length (content_of body.chunks) ≤ most_body_bytes
        → chunked_of (print_body body ++ more)
        ≡ whole (content_of body.chunks) (length (print_body body)) }
    ensures long { (body : ChunkedBody) (more : List ℕ) → IsChunkedBody body
        → most_body_bytes < length (content_of body.chunks)
        → (n : ℕ) × (chunked_of (print_body body ++ more) ≡ broken TooLong n) }
    ensures only { (s content : List ℕ) (n : ℕ) → chunked_of s ≡ whole content n
        → StandsIn s content (length s - n) }
    ensures goes { (s content : List ℕ) (place : Place) → chunked_of s ≡ going content place
        → IsBeginning s }
    ensures first { (s : List ℕ) (fault : FramingFault) (n : ℕ) → chunked_of s ≡ broken fault n
        → (chunked_of (take n s) ≡ broken fault n)
        × ((content : List ℕ) × (place : Place)
        × (chunked_of (take (n - 1) s) ≡ going content place)) }
    ensures bad { (s : List ℕ) (n : ℕ) → chunked_of s ≡ broken BadChunk n → IsBeginning s → ⊥ }
{}

/// A chunked body is too long exactly with the last byte of the chunk line with which its sizes pass the limit,
/// whatever follows that line.
pub fn limit_is_passed_at_a_chunk_line()
    ensures each { (text more : List ℕ) → PassesLimit text
        → chunked_of (text ++ more) ≡ broken TooLong (length text) }
    ensures only { (s : List ℕ) (n : ℕ) → chunked_of s ≡ broken TooLong n
        → PassesLimit (take n s) }
{}
