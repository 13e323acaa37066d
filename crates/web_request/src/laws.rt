//! What holds of requests.
ghost use Rattle.std.specs.Prelude.{◌≡◌, ◌↔◌, ℕ, List, Ok, Err, Some};
ghost use Rattle.web_request.specs.Table.{IsRequest};
ghost use Rattle.web_request.specs.Faults.{least_fault};
ghost use Rattle.web_request.specs.Requests.{interpreted};
ghost use Rattle.web_request.specs.declared.fault.WebFault.{WebFault};
ghost use Rattle.web_request.specs.declared.head.Head.{Head};
ghost use Rattle.web_request.specs.declared.request.Request.{Request};

/// `interpreted` gives a request exactly when a row of the table has it.
pub fn requests_are_rows()
    ensures { (head : Head) (body : List ℕ) (request : Request) →
        IsRequest head body request ↔ (interpreted head body ≡ Ok request) }
{
    caps::laws::reading_is_decided();
}

/// `interpreted` gives a fault exactly when it is the first that holds.
pub fn the_first_fault_is_given()
    ensures { (head : Head) (body : List ℕ) (fault : WebFault) →
        (interpreted head body ≡ Err fault) ↔ (least_fault head ≡ Some fault) }
{}
