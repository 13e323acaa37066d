//! What holds of the definitions.
ghost use Rattle.std.specs.Prelude.{◌≡◌, ◌<◌, ◌≤◌, ◌^◌, ◌++◌, ℕ, List, length, map};
ghost use Rattle.std.specs.List.{AllByRecursion};
ghost use Rattle.resp.specs.declared.limits.Limits.{Limits};
ghost use Rattle.resp.specs.declared.reply.Item.TheVariants as item;
ghost use Rattle.resp.specs.declared.reply.Element.TheVariants as element;
ghost use Rattle.resp.specs.declared.reply.Reply.{Reply};
ghost use Rattle.resp.specs.declared.reply.Reply.TheVariants as reply;
ghost use Rattle.resp.specs.Command.{command};
ghost use Rattle.resp.specs.Spelled.{SpellsReply};

/// A command spells the array of its words. So what [`command`](crate::command) prints [`read_reply`](crate::read_reply)
/// reads, whatever follows.
pub fn commands_are_replies()
    ensures { (limits : Limits) (words : List (List ℕ)) → 20 ≤ limits.line →
        limits.bulk < 2 ^ 32 → limits.elements < 2 ^ 32 →
        length words ≤ limits.elements →
        AllByRecursion (λ word. length word ≤ limits.bulk) words →
        SpellsReply limits (reply.Several (map (λ word. element.One (item.Bulk word)) words))
        (command words) }
{}

/// Bytes spell one reply, and no reply begins another.
pub fn one_reply()
    ensures { (limits : Limits) (one two : Reply) (front back other rest : List ℕ) →
        0 < limits.line → SpellsReply limits one front → SpellsReply limits two other →
        front ++ back ≡ other ++ rest → (one ≡ two) × (length front ≡ length other) }
{}
