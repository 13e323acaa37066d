//! What holds of requests, of the JSON of a directory's children and of walks, each on a function that does nothing.
ghost use Rattle.std.specs.Prelude.{◌≡◌, ◌++◌, ◌∷◌, [], ℕ, List, length, false, true, None, Ok, Contains};
ghost use Rattle.std.specs.Str.{is_utf8};
ghost use Rattle.httparse.specs.Grammar.{print_request};
ghost use Rattle.http_edge.specs.Judge.{head_parts};
ghost use Rattle.http_edge.specs.Frame.{frame};
ghost use Rattle.http_edge.specs.declared.item.Item.TheVariants.{Request as RequestItem};
ghost use Rattle.caps.specs.declared.cap.Cap.{Cap};
ghost use Rattle.dir_codec.specs.Entries.{IsDirectory};
ghost use Rattle.dir_codec.specs.declared.entry.Entry.{Entry};
ghost use Rattle.children_reader.specs.Children.{making};
ghost use Rattle.path_walk.specs.Way.{NamesLeadTo};
ghost use Rattle.web_request.specs.Ranges.{range_of};
ghost use Rattle.web_request.specs.Requests.{interpreted};
ghost use Rattle.web_request.specs.declared.head.Head.{Head as WebHead};
ghost use Rattle.web_request.specs.declared.head.Field.{Field as WebField};
ghost use Rattle.client_core.specs.declared.ask.Ask.{Ask};
ghost use Rattle.client_core.specs.Asks.{asked_head, method_of, target_of, meant, IsAsk, IsAsked};
ghost use Rattle.client_core.specs.ChildrenJson.{children_text};
ghost use Rattle.client_core.specs.Way.{IsDirectoryOf, IsChildOf, LeadsTo};

use caps::laws::{caps_have_one_text, reading_is_decided};
use children_reader::laws::{children_are_the_members_entries, made_children_are_named};
use json_spelling::laws::whole_values_are_read_back;

/// The bytes of a request are one request with this body, whatever follows them, after which the connection stays.
pub fn requests_are_framed()
    ensures { (host : List ℕ) (ask : Ask) (body more : List ℕ) → IsAsked host ask body →
        frame (print_request (asked_head host ask (length body)) ++ (body ++ more))
        ≡ RequestItem (head_parts (asked_head host ask (length body))) body false ∷ frame more }
{
    http_edge::laws::head_comes_first();
    http_edge::laws::body_comes_next();
    tag_hash::laws::decimals_are_read_back();
    caps_have_one_text();
}

/// The gateway reads it as what was meant, whatever the fields beside a Range field.
pub fn requests_are_meant()
    ensures { (ask : Ask) (fields : List WebField) (body : List ℕ) → IsAsk ask →
        range_of fields ≡ None → interpreted
        (record { method = method_of ask; target = target_of ask; fields = fields }) body
        ≡ Ok (meant ask body) }
{
    caps_have_one_text();
    reading_is_decided();
}

/// The children that the JSON of entries names are those entries, with their names, caps and metadata. The text is one in
/// UTF-8 where it is written as a string.
pub fn written_children_are_made()
    ensures { (entries : List Entry) → IsDirectory entries → is_utf8 (children_text entries) ≡ true
        → making (children_text entries) ≡ Ok entries }
{
    reading_is_decided();
    whole_values_are_read_back();
    made_children_are_named();
    children_are_the_members_entries();
}

/// A client's walk is one that the gateway's promise of walks allows, over bytes that are bound more strongly.
pub fn walks_are_led()
    ensures { (cap end : Cap) (names : List (List ℕ)) → LeadsTo cap names end →
        NamesLeadTo cap names end }
{
    cap_binding::laws::what_binds_is_bound();
}

/// Each entry of a directory is the one that is found by its name.
pub fn children_are_found()
    ensures { (cap : Cap) (entries : List Entry) (entry : Entry) → IsDirectoryOf cap entries →
        Contains entries entry → IsChildOf cap entry.name entry.cap }
{
    dir_codec::laws::texts_and_entries_belong_together();
}

/// A walk goes on with a child of its end.
pub fn walks_go_on()
    ensures { (cap end child : Cap) (names : List (List ℕ)) (name : List ℕ) →
        LeadsTo cap names end → IsChildOf end name child →
        LeadsTo cap (names ++ name ∷ []) child }
{}
