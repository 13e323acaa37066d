//! What holds of the definitions.
ghost use Rattle.std.specs.Prelude.{◌≡◌, ◌≤◌, ◌++◌, ℕ, List, length, slice_get, Some, None};
ghost use Rattle.resp.specs.Spelled.{SpellsReply, SpellsAll};
ghost use Rattle.resp.specs.declared.reply.Reply.{Reply};
ghost use Rattle.ask_desk.specs.CameIn.{reply_limits};
ghost use Rattle.ask_desk.specs.Dialogue.{Dialogue, IsInOrder};

use resp::laws::one_reply;

/// What came over a connection is cut into replies in one way: wherever else it is cut, the same reply has the same place,
/// and while no fault was told there are no more of them.
pub fn replies_have_one_place()
    ensures place { (d : Dialogue) (answers : List Reply) (front rest : List ℕ) → IsInOrder d →
        SpellsAll (SpellsReply reply_limits) answers front → d.came ≡ front ++ rest →
        (place : ℕ) (one two : Reply) → slice_get d.replies place ≡ Some one →
        slice_get answers place ≡ Some two → one ≡ two }
    ensures all { (d : Dialogue) (answers : List Reply) (front rest : List ℕ) → IsInOrder d →
        d.fault ≡ None → SpellsAll (SpellsReply reply_limits) answers front →
        d.came ≡ front ++ rest → length answers ≤ length d.replies }
{
    one_reply();
}
