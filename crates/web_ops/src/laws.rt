//! What holds of the answers.
ghost use Rattle.std.specs.Prelude.{◌≡◌, ◌↔◌, ℕ, List, Bool, true, false, Option, None};
ghost use Rattle.caps.specs.declared.cap.Cap.{Cap};
ghost use Rattle.chk_file.specs.Look.{Look};
ghost use Rattle.path_walk.specs.Walk.{FileLookup};
ghost use Rattle.web_request.specs.declared.request.Request.{Request};
ghost use Rattle.web_request.specs.declared.request.Request.TheVariants.{Get};
ghost use Rattle.web_ops.specs.Encoding.{Encoding};
ghost use Rattle.web_replies.specs.declared.reply.Reply.{Reply};
ghost use Rattle.web_ops.specs.Answers.{get_reply, request_reply};
ghost use Rattle.web_ops.specs.Amid.{IsGetBy};
ghost use Rattle.web_ops.specs.Reach.{caps_met};
ghost use Rattle.web_ops.specs.Agree.{AgreeOn};

/// Where two looks agree on the caps that a request meets, it is answered alike by both, and meets the same caps.
pub fn answers_agree_where_looks_do()
    ensures reply { (e : Encoding) (look other : Look) (request : Request) →
        AgreeOn look other (caps_met look request) →
        request_reply e look request ≡ request_reply e other request }
    ensures met { (look other : Look) (request : Request) →
        AgreeOn look other (caps_met look request) → caps_met look request ≡ caps_met other request }
{
    path_walk::laws::walks_agree_where_looks_do();
    path_walk::laws::walks_meet_their_ends();
}

/// A request for the head is answered as one for the bytes or the JSON without a range.
pub fn heads_are_those_of_whole_replies()
    ensures { (e : Encoding) (look : Look) (cap : Cap) (names : List (List ℕ)) (json : Bool)
        (range : Option (List ℕ)) →
        request_reply e look (Get cap names json true range)
        ≡ request_reply e look (Get cap names json false None) }
{}

/// A GET of which each read gives what one look gives is answered as that look says.
pub fn like_looks_answer_as_one()
    ensures { (gives : FileLookup) (cap : Cap) (names : List (List ℕ)) (json : Bool)
        (range : Option (List ℕ)) (reply : Reply) →
        IsGetBy (λ f found. found ≡ gives f) cap names json range reply
        ↔ (reply ≡ get_reply gives cap names json range) }
{}
