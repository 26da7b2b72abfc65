//! What holds of the requests, and of the responses.
ghost use Rattle.std.specs.Prelude.{◌≡◌, ◌⊎◌, ℕ, List, [], ◌∷◌, ◌++◌, Result, Some};
ghost use Rattle.std.specs.List.{FoldsTo};
ghost use Rattle.replicator.specs.Call.{Call};
ghost use Rattle.replicator_http.specs.Ahead.{Event, Happens};
ghost use Rattle.replicator_http.specs.Goes.{Goes};
ghost use Rattle.replicator_http.specs.Passed.{HasPassed};
ghost use Rattle.serde_json.specs.Written.{compact_text};
ghost use Rattle.model.specs.Command.{Merge};
ghost use Rattle.http_client.specs.Response.{HasManyHeaders, Response};
ghost use Rattle.http_client.specs.declared.incoming.ResponseFault.{ResponseFault};
ghost use Rattle.replicator_http.specs.Connection.{Answered, Connection, Exchange, Exchanges};
ghost use Rattle.replicator_http.specs.Input.{Decides, input_of, outcome_of};
ghost use Rattle.replicator_http.specs.Requests.{bulk_data};
ghost use Rattle.replicator.specs.Bulk.{bulk_text};

use http_client::laws::{more_bytes, one_response};

/// The text by which a worker measures documents is the body of the request that sends them.
pub fn bulk_is_as_measured()
    ensures { (documents : List Merge) → bulk_text documents ≡ compact_text (bulk_data documents) }
{}

/// Answer n belongs to request n, however far ahead requests were written. After any calls over a connection
/// on which nothing had been asked, a call that is answered by a response has the one that is in the input as
/// far behind as its request is among those that were written.
pub fn answers_are_in_order()
    ensures { (fresh now mid new : Connection) (calls : List Call) (events : List Event) (request : List ℕ)
        (response : Response) (behind : List ℕ)
        → fresh.ahead ≡ [] → FoldsTo Goes fresh calls now → FoldsTo Happens now events mid
        → Exchanges request mid (Answered response behind) new
        → (before : List (List ℕ × Response)) × HasPassed fresh new (before ++ (request, response) ∷ []) }
{
    one_response();
    more_bytes();
}

/// What the input decides of an exchange doesn't depend on how it comes. Two exchanges on the same input
/// have the same response, or both have none, and leave the same input behind; where they have none, the
/// input ended inside a response for both or can't be read for both, but where it ends in a head with too
/// many headers.
pub fn answers_are_of_the_input()
    ensures decides { (request input : List ℕ) (old new : Connection) (exchange : Exchange)
        → input_of old ≡ Some input → Exchanges request old exchange new
        → Decides input (outcome_of exchange) (input_of new) }
    ensures same { (request asked input : List ℕ) (old new first last : Connection)
        (exchange other : Exchange) (one two : Result Response ResponseFault)
        → input_of old ≡ Some input → Exchanges request old exchange new
        → input_of first ≡ Some input → Exchanges asked first other last
        → outcome_of exchange ≡ Some one → outcome_of other ≡ Some two
        → ((one ≡ two) ⊎ HasManyHeaders input) × (input_of new ≡ input_of last) }
{
    one_response();
    more_bytes();
}
