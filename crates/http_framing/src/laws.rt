//! What holds of every input, however it is read.
ghost use Rattle.std.specs.Prelude.{◌≡◌, ℕ, ◌+◌, ◌<◌, ◌≤◌, List, [], ◌∷◌, ◌++◌, length, IsUtf8};
ghost use Rattle.http_framing.specs.Request.{Request, BeginsWithRequest};
ghost use Rattle.http_framing.specs.Input.{request_limit, Item, Begins, Splits, AreOpen, IsUnfinished};
ghost use Rattle.http_framing.specs.Front.{IsFrontOf};
ghost use Rattle.http_framing.specs.Refusal.{head_window, IsRefused, HasTarget};

use crate::FramingFault;
use crate::front::Front;

/// Two readings of an input that have as many items are the same.
pub fn one_reading()
    ensures { (bytes : List ℕ) (items others : List Item) (rest after : List ℕ)
        → Splits bytes items rest → Splits bytes others after → length items ≡ length others
        → (items ≡ others) × (rest ≡ after) }
{}

/// What is refused is refused for one fault.
pub fn one_fault()
    ensures { (bytes : List ℕ) (fault other : FramingFault)
        → IsRefused bytes fault → IsRefused bytes other → fault ≡ other }
{}

/// What is unfinished is not refused.
pub fn unfinished_or_refused()
    ensures { (bytes : List ℕ) (fault : FramingFault)
        → IsUnfinished bytes → IsRefused bytes fault → ⊥ }
{}

/// What an input begins with stays there when more bytes have come.
pub fn more_input()
    ensures request { (bytes more : List ℕ) (request : Request) (after : List ℕ)
        → BeginsWithRequest bytes request after
        → BeginsWithRequest (bytes ++ more) request (after ++ more) }
    ensures refused { (bytes more : List ℕ) (fault : FramingFault)
        → IsRefused bytes fault → IsRefused (bytes ++ more) fault }
    ensures reading { (bytes more : List ℕ) (items : List Item) (rest : List ℕ)
        → AreOpen items → Splits bytes items rest
        → Splits (bytes ++ more) items (rest ++ more) }
{}

/// A reading goes on with what the rest begins with.
pub fn next_item()
    ensures { (bytes : List ℕ) (items : List Item) (rest : List ℕ) (item : Item) (after : List ℕ)
        → AreOpen items → Splits bytes items rest → Begins rest item after
        → Splits bytes (items ++ item ∷ []) after }
{}

/// A request takes some bytes, and at most [`REQUEST_LIMIT`](crate::REQUEST_LIMIT).
pub fn request_size()
    ensures some { (bytes : List ℕ) (request : Request) (after : List ℕ)
        → BeginsWithRequest bytes request after → length after < length bytes }
    ensures limit { (bytes : List ℕ) (request : Request) (after : List ℕ)
        → BeginsWithRequest bytes request after
        → length bytes ≤ length after + request_limit }
{}

/// Bytes are unfinished where a request is cut, and then no request begins them.
pub fn cut_request()
    ensures cut { (bytes more : List ℕ) (request : Request) (after : List ℕ)
        → BeginsWithRequest (bytes ++ more) request after → length after < length more
        → IsUnfinished bytes }
    ensures not_whole { (bytes : List ℕ) (request : Request) (after : List ℕ)
        → IsUnfinished bytes → BeginsWithRequest bytes request after → ⊥ }
    ensures limit { (bytes : List ℕ) → IsUnfinished bytes → length bytes < request_limit }
{}

/// The target of a request is text; a request line whose target is not text can be of no head.
pub fn text_targets()
    ensures text { (bytes : List ℕ) (request : Request) (after : List ℕ)
        → BeginsWithRequest bytes request after → IsUtf8 request.target }
    ensures not_text { (bytes target : List ℕ) (front : Front)
        → HasTarget (head_window bytes) target → ¬ (IsUtf8 target)
        → IsFrontOf bytes front → front ≡ Front.Refused FramingFault.Head }
{}
