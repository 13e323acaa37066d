//! What holds of names and of what replies answer.
ghost use Rattle.std.specs.Prelude.{◌≡◌, ◌≢◌, ℕ, List, Option};
ghost use Rattle.s3_sign.specs.declared.request.Method.TheVariants as methods;
ghost use Rattle.s3_requests.specs.ObjectNames.{IsIndexAndNumber, object_name, settings_name};
ghost use Rattle.s3_requests.specs.RequestHeads.{ask_method};
ghost use Rattle.s3_requests.specs.ReplyAnswers.{IsAnswerStatus};
ghost use Rattle.s3_requests.specs.ReplyFaults.{IsReplyFault};
ghost use Rattle.s3_requests.specs.declared.answers.ObjectAnswer.{ObjectAnswer};
ghost use Rattle.s3_requests.specs.declared.answers.ObjectAnswer.TheVariants as answers;
ghost use Rattle.s3_requests.specs.declared.asks.ObjectAsk.{ObjectAsk};
ghost use Rattle.s3_requests.specs.declared.fault.ObjectFault.{ObjectFault};
ghost use Rattle.s3_requests.specs.declared.replies.ObjectReply.{ObjectReply};

/// Two shares with one name are one share of one grid, whatever the grids' prefixes are.
pub fn objects_are_told_apart()
    ensures { (prefix ours : Option (List ℕ)) (index other : List ℕ) (number another : ℕ)
        → IsIndexAndNumber index number → IsIndexAndNumber other another
        → object_name prefix index number ≡ object_name ours other another
        → (prefix ≡ ours) × (index ≡ other) × (number ≡ another) }
{}

/// The name of the settings is no share's.
pub fn settings_are_no_object()
    ensures { (prefix : Option (List ℕ)) (index : List ℕ) (number : ℕ)
        → IsIndexAndNumber index number → object_name prefix index number ≢ settings_name prefix }
{}

/// A status gives one answer at most.
pub fn answers_are_told_apart()
    ensures { (one another : ObjectAnswer) (asked : ObjectAsk) (status : ℕ)
        → IsAnswerStatus one asked status → IsAnswerStatus another asked status → one ≡ another }
{}

/// That none stands is said by 404 alone, and by none to a PUT: not by 403, a redirect, or a server that fails.
pub fn none_is_said_by_404_alone()
    ensures { (asked : ObjectAsk) (status : ℕ) → IsAnswerStatus answers.Nothing asked status
        → (status ≡ 404) × (ask_method asked ≢ methods.Put) }
{}

/// A reply has one fault at most.
pub fn faults_are_told_apart()
    ensures { (one another : ObjectFault) (asked : ObjectAsk) (reply : ObjectReply)
        → IsReplyFault one asked reply → IsReplyFault another asked reply → one ≡ another }
{}
