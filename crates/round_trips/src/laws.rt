//! Laws, each on a function that does nothing.
ghost use Rattle.std.specs.Prelude.{◌≡◌, ◌≢◌, ◌++◌, ◌∷◌, ◌^◌, ◌<◌, ◌≤◌, ℕ, Bool, false, List, [], length, Result, Ok, Some, MatchResult};
ghost use Rattle.std.specs.List.{AllByRecursion};
ghost use Rattle.http_edge.specs.Reply.{rendered};
ghost use Rattle.erasure.specs.Code.{AreBytes};
ghost use Rattle.caps.specs.CapTexts.{IsCapText, cap_text};
ghost use Rattle.caps.specs.declared.cap.Cap.{Cap};
ghost use Rattle.caps.specs.declared.cap.Cap.TheVariants.{Chk, Lit, DirChk, DirLit};
ghost use Rattle.caps.specs.Fields.{ReadValue};
ghost use Rattle.dir_codec.specs.DirectoryText.{directory_text};
ghost use Rattle.dir_codec.specs.Reading.{directory_reading};
ghost use Rattle.dir_codec.specs.declared.entry.Entry.{Entry as Child};
ghost use Rattle.client_core.specs.ChildrenJson.{children_text};
ghost use Rattle.chk_file.specs.Upload.{Upload, IsUpload, fields, index, upload_cap};
ghost use Rattle.chk_file.specs.Held.{uploaded_bytes};
ghost use Rattle.chk_file.specs.Look.{Look};
ghost use Rattle.chk_file.specs.Sound.{IsSoundWorld};
ghost use Rattle.chk_file.specs.World.{World, empty, after_upload};
ghost use Rattle.web_replies.specs.declared.reply.Reply.{Reply};
ghost use Rattle.web_ops.specs.Answers.{request_reply};
ghost use Rattle.web_replies.specs.Replies.{cap_reply};
ghost use Rattle.web_ops.specs.Encoding.{upload_of};
ghost use Rattle.web_ops.specs.Uploads.{directory_upload, directory_cap};
ghost use Rattle.gate_core.specs.Settings.{GatewaySettings, under, encoding_in};
ghost use Rattle.gate_core.specs.Items.{Entry, Asked};
ghost use Rattle.gate_base.specs.Wire.{wire_reply};
ghost use Rattle.gate_base.specs.Browsers.{sent_reply};
ghost use Rattle.gate_core.specs.Secrets.{upload_under};
ghost use Rattle.gate_core.specs.Runs.{after_entry, world_after, told};
ghost use Rattle.cap_binding.specs.Binds.{Binds};
ghost use Rattle.client_core.specs.Asks.{IsAsked, meant};
ghost use Rattle.client_core.specs.declared.ask.Ask.{Ask};
ghost use Rattle.client_core.specs.declared.ask.Ask.TheVariants.{Put, Mkdir, Read};
ghost use Rattle.client_core.specs.declared.exchange.Answer.{Answer};
ghost use Rattle.client_core.specs.declared.exchange.LinkFault.{LinkFault};
ghost use Rattle.round_trips.specs.Honest.{IsHonestExchange, IsWrittenAnswer, as_answer, LeadsOn, with_asked, by_the_book, written_answer};
ghost use Rattle.round_trips.specs.Stands.{IsSetUp, HasEnough, IsStanding, IsStandingFor, IsUnspoiled, Spares};
ghost use Rattle.round_trips.specs.Trips.{IsBody, IsSendable, NamesCap, GivesAgain, IsUnansweredAt};
ghost use Rattle.round_trips.specs.Said.{head_asked, item_of, sent_for, told_for};
ghost use Rattle.round_trips.specs.Told.{entry_asked, IsToldWith, IsToldAgain};

use caps::ReadFields;
use client_core::{ClientFault, Exchange, fetch_stored};
use std::alloc::Global;

/// What a client asks for is an item that the gateway's theorem answers with the written reply, and that leaves what an
/// honest gateway leaves.
pub fn asks_are_items()
    ensures said { (settings : GatewaySettings) (look : Look) (caller : ℕ) (secret host : List ℕ)
        (ask : Ask) (body : List ℕ) → IsAsked host ask body →
        told settings look caller (Asked caller secret (item_of host ask body))
        ≡ told_for (under settings secret) look host ask body }
    // What is made for browsers has the same status and body; where nothing is, it is the same to the byte.
    ensures same { (for_browsers : Bool) (host : List ℕ) (ask : Ask) (body : List ℕ)
        (reply : Reply) → let sent = sent_reply for_browsers (head_asked host ask body) reply in
        (sent.status ≡ (wire_reply reply).status) × (sent.body ≡ reply.body) }
    ensures plain { (settings : GatewaySettings) (look : Look) (host : List ℕ) (ask : Ask)
        (body : List ℕ) → settings.for_browsers ≡ false →
        told_for settings look host ask body ≡ sent_for settings look ask body }
    ensures stored { (settings : GatewaySettings) (w : World) (caller : ℕ) (secret host : List ℕ)
        (ask : Ask) (body : List ℕ) → IsAsked host ask body →
        after_entry settings (Asked caller secret (item_of host ask body)) w
        ≡ with_asked (under settings secret) ask body w }
{
    client_core::laws::requests_are_meant();
    gate_base::laws::browsers_are_told_the_same();
}

/// Whoever reads a reply off the bytes that are sent for an ask reads the answer of an honest gateway, and all of them that
/// are its own.
pub fn replies_are_read_one_way()
    ensures { (settings : GatewaySettings) (look : Look) (ask : Ask) (body more after : List ℕ)
        (reply : Reply) → length reply.body < 2 ^ 64 →
        length (request_reply (encoding_in settings) look (meant ask body)).body < 2 ^ 64 →
        sent_for settings look ask body ++ more
        ≡ rendered (wire_reply reply) false false ++ after →
        IsWrittenAnswer settings look ask body (Ok (as_answer reply)) × (more ≡ after) }
{
    gate_core::laws::checks_look_at_one_row();
}

/// There are honest exchanges: a world that answers by the book, where each ask has an answer. There a file that is put
/// where nothing stands is read again.
pub fn some_are_honest()
    ensures honest { (settings : GatewaySettings) →
        IsHonestExchange settings (λ w. w) (by_the_book settings) }
    ensures answered { (settings : GatewaySettings) (ask : Ask) (body : List ℕ) (w : World) →
        by_the_book settings w ask body (Ok (written_answer settings ask body w))
        (with_asked settings ask body w) }
    ensures trip { (settings : GatewaySettings) (bytes : List ℕ) → IsSetUp settings → IsBody bytes →
        55 < length bytes → written_answer settings
        (Read (fields (upload_of (encoding_in settings) bytes))) []
        (with_asked settings Put bytes empty) ≡ record { status = 200; body = bytes } }
{}

/// An upload that is put stands, where none of its shares is spoiled; so where nothing stood before, whatever is put.
pub fn puts_stand()
    ensures put { (settings : GatewaySettings) (u : Upload) (w : World) → IsSetUp settings → IsUpload u →
        55 < length u.bytes → IsSoundWorld w → IsUnspoiled u w →
        IsStandingFor u (after_upload settings.servers u w) }
    ensures first { (settings : GatewaySettings) (u : Upload) → IsSetUp settings → IsUpload u →
        55 < length u.bytes → IsStanding u (after_upload settings.servers u empty) }
{
    cap_binding::laws::uploads_bind_their_bytes();
    cap_binding::laws::what_is_bound_was_uploaded();
}

/// While an upload stands its cap holds its bytes. It is known for ever, and no item takes a share away but a loss under
/// its own storage index.
pub fn uploads_stay()
    ensures held { (u : Upload) (w : World) → IsStanding u w → uploaded_bytes w (fields u) ≡ Some u.bytes }
    ensures known { (settings : GatewaySettings) (u : Upload) (w : World) (entries : List Entry) →
        w.files (fields u) ≡ Some u → (world_after settings w entries).files (fields u) ≡ Some u }
    ensures enough { (settings : GatewaySettings) (u : Upload) (w : World) (entries : List Entry) →
        AllByRecursion (Spares (index u)) entries →
        HasEnough u w → HasEnough u (world_after settings w entries) }
{
    chk_file::laws::changes_are_local();
}

/// **A file that is put through an honest gateway and got again, in any later world in which enough of its shares are
/// untouched, is the same bytes**, or others that collide with them. The cap is the one whose text came.
pub fn files_come_back<E: Exchange>()
    ensures long { (settings : GatewaySettings) (world : E → World) → IsHonestExchange settings world E.told →
        IsSetUp settings → (bytes : List ℕ) (x y z v : E) (answer : Answer) (f : ReadValue)
        (r : Result Answer LinkFault) → IsBody bytes → 55 < length bytes → IsSoundWorld (world x) →
        IsUnspoiled (upload_of (encoding_in settings) bytes) (world x) →
        E.told x Put bytes (Ok answer) y → IsCapText (Chk f) answer.body →
        LeadsOn settings (world y) (world z) →
        HasEnough (upload_of (encoding_in settings) bytes) (world z) →
        E.told z (Read f) [] r v → GivesAgain f bytes r }
    // what comes for a put names its cap, which for short bytes has them in it
    ensures cap { (settings : GatewaySettings) (world : E → World) → IsHonestExchange settings world E.told →
        IsSetUp settings → (bytes : List ℕ) (x y : E) (answer : Answer) → IsBody bytes →
        E.told x Put bytes (Ok answer) y →
        NamesCap answer (upload_cap (upload_of (encoding_in settings) bytes)) }
    ensures short { (settings : GatewaySettings) (bytes : List ℕ) → length bytes ≤ 55 →
        upload_cap (upload_of (encoding_in settings) bytes) ≡ Lit bytes }
{
    cap_binding::laws::uploads_bind_their_bytes();
    cap_binding::laws::what_is_bound_was_uploaded();
    caps::laws::caps_have_one_text();
    caps::laws::texts_have_one_cap();
    tag_hash::laws::digests_are_bytes();
    tag_hash::laws::texts_fix_their_parts();
}

/// **What the gateway's own theorem says of a run in which something is put and got again.** Whoever puts a file, or makes a
/// directory, is told the text of its cap. Whoever asks for that cap later, in a world in which enough of the upload's shares
/// are untouched, is told these bytes, or others that collide with them; whatever is asked before, between and behind, and
/// whatever is lost.
pub fn what_is_put_is_told_again()
    ensures put { (settings : GatewaySettings) (w : World) (before after : List Entry) (caller : ℕ)
        (secret host bytes : List ℕ) → IsAsked host Put bytes → IsToldWith settings caller w before
        (head_asked host Put bytes) (entry_asked caller secret host Put bytes) after
        (cap_reply (upload_cap (upload_under settings secret bytes))) }
    ensures made { (settings : GatewaySettings) (w : World) (before after : List Entry) (caller : ℕ)
        (secret host : List ℕ) (entries : List Child) → IsSendable entries →
        IsAsked host Mkdir (children_text entries) → IsToldWith settings caller w before
        (head_asked host Mkdir (children_text entries))
        (entry_asked caller secret host Mkdir (children_text entries)) after
        (cap_reply (directory_cap (encoding_in (under settings secret)) entries)) }
    ensures file { (settings : GatewaySettings) (w : World) (before between after : List Entry)
        (putter reader : ℕ) (secret other host its bytes : List ℕ) (f : ReadValue) →
        IsSetUp settings → let u = upload_under settings secret bytes in
        let x = entry_asked putter secret host Put bytes in IsBody bytes → 55 < length bytes →
        IsAsked host Put bytes → IsAsked its (Read f) [] → IsSoundWorld (world_after settings w before) →
        IsUnspoiled u (world_after settings w before) →
        IsCapText (Chk f) (cap_text (upload_cap u)) →
        HasEnough u (world_after settings w (before ++ x ∷ between)) →
        IsToldAgain settings reader w (before ++ x ∷ between) (head_asked its (Read f) [])
        (entry_asked reader other its (Read f) []) after f bytes }
    ensures directory { (settings : GatewaySettings) (w : World) (before between after : List Entry)
        (putter reader : ℕ) (secret other host its : List ℕ) (entries : List Child) (f : ReadValue) →
        IsSetUp settings → IsSendable entries → let e = encoding_in (under settings secret) in
        let u = directory_upload e entries in
        let x = entry_asked putter secret host Mkdir (children_text entries) in
        55 < length (directory_text entries) → IsAsked host Mkdir (children_text entries) →
        IsAsked its (Read f) [] → IsSoundWorld (world_after settings w before) →
        IsUnspoiled u (world_after settings w before) →
        IsCapText (DirChk f) (cap_text (directory_cap e entries)) →
        HasEnough u (world_after settings w (before ++ x ∷ between)) →
        IsToldAgain settings reader w (before ++ x ∷ between) (head_asked its (Read f) [])
        (entry_asked reader other its (Read f) []) after f (directory_text entries) }
{
    client_core::laws::requests_are_meant();
    cap_binding::laws::uploads_bind_their_bytes();
    cap_binding::laws::what_is_bound_was_uploaded();
    caps::laws::caps_have_one_text();
    caps::laws::texts_have_one_cap();
    client_core::laws::written_children_are_made();
    children_reader::laws::made_children_are_named();
    tag_hash::laws::digests_are_bytes();
    tag_hash::laws::texts_fix_their_parts();
}

/// Whatever gave the cap: where an upload of its fields stands, an honest gateway gives the bytes that the cap binds, or
/// others that collide with them.
pub fn what_a_cap_binds_comes_back<E: Exchange>()
    ensures { (settings : GatewaySettings) (world : E → World) → IsHonestExchange settings world E.told →
        (u : Upload) (bytes : List ℕ) (z v : E) (r : Result Answer LinkFault) → IsUpload u →
        AreBytes bytes → IsStanding u (world z) → Binds (fields u) bytes →
        E.told z (Read (fields u)) [] r v → GivesAgain (fields u) bytes r }
{
    cap_binding::laws::uploads_bind_their_bytes();
    cap_binding::laws::two_strings_are_a_collision();
    tag_hash::laws::digests_are_bytes();
}

/// The same of the call: it gives an upload's bytes where the upload stands, unless no answer came or memory was refused.
pub fn what_stands_is_fetched<E: Exchange>(
    alloc: Global,
    gateway: &mut E,
    asked: &ReadFields,
) -> Result<Vec<u8>, ClientFault>
    ensures { (settings : GatewaySettings) (world : E → World) (u : Upload) →
        IsHonestExchange settings world E.told → IsUpload u → fields u ≡ asked.now →
        IsStanding u (world gateway.old) → MatchResult result (λ bytes. bytes.items ≡ u.bytes)
        (λ fault. fault ≢ ClientFault.NoMemory →
        IsUnansweredAt E.told gateway.old (Read asked.now) gateway.new) }
{
    cap_binding::laws::uploads_bind_their_bytes();
    fetch_stored(alloc, gateway, asked)
}

/// **A directory that is made through an honest gateway and got again is the same entries**, in the same sense: what is
/// got is the text that they have, and it is read as them.
pub fn directories_come_back<E: Exchange>()
    ensures long { (settings : GatewaySettings) (world : E → World) → IsHonestExchange settings world E.told →
        IsSetUp settings → (entries : List Child) (x y z v : E) (answer : Answer) (f : ReadValue)
        (r : Result Answer LinkFault) → IsSendable entries →
        55 < length (directory_text entries) → IsSoundWorld (world x) →
        IsUnspoiled (directory_upload (encoding_in settings) entries) (world x) →
        E.told x Mkdir (children_text entries) (Ok answer) y → IsCapText (DirChk f) answer.body →
        LeadsOn settings (world y) (world z) →
        HasEnough (directory_upload (encoding_in settings) entries) (world z) →
        E.told z (Read f) [] r v → GivesAgain f (directory_text entries) r }
    ensures cap { (settings : GatewaySettings) (world : E → World) → IsHonestExchange settings world E.told →
        IsSetUp settings → (entries : List Child) (x y : E) (answer : Answer) →
        IsSendable entries → E.told x Mkdir (children_text entries) (Ok answer) y →
        NamesCap answer (directory_cap (encoding_in settings) entries) }
    ensures short { (settings : GatewaySettings) (entries : List Child) →
        length (directory_text entries) ≤ 55 →
        directory_cap (encoding_in settings) entries ≡ DirLit (directory_text entries) }
    ensures entries { (entries : List Child) → IsSendable entries →
        directory_reading (directory_text entries) ≡ Ok entries }
{
    cap_binding::laws::uploads_bind_their_bytes();
    cap_binding::laws::what_is_bound_was_uploaded();
    caps::laws::caps_have_one_text();
    caps::laws::texts_have_one_cap();
    client_core::laws::written_children_are_made();
    children_reader::laws::made_children_are_named();
    dir_codec::laws::written_directories_are_read_back();
    tag_hash::laws::digests_are_bytes();
    tag_hash::laws::texts_fix_their_parts();
}
