//! Laws of the definitions, each on a function that does nothing.
ghost use Rattle.std.specs.Prelude.{◌≡◌, Bool, false};
ghost use Rattle.std.specs.List.{list_any};
ghost use Rattle.http_edge.specs.declared.item.Head.{Head};
ghost use Rattle.web_replies.specs.declared.reply.Reply.{Reply as WebReply};
ghost use Rattle.gate_base.specs.Requests.{web_head};
ghost use Rattle.gate_base.specs.Wire.{status_line};
ghost use Rattle.gate_base.specs.Browsers.{is_condition, sent_reply};

/// Browsers are told the status and the body that others are told, unless they ask on condition: only the fields differ.
pub fn browsers_are_told_the_same()
    ensures { (for_browsers : Bool) (head : Head) (reply : WebReply) →
        list_any is_condition (web_head head).fields ≡ false →
        let sent = sent_reply for_browsers head reply in
        (sent.status ≡ status_line reply.status) × (sent.body ≡ reply.body) }
{}
