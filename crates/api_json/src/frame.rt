//! What an answer has round a list.

/// The texts before and after a list.
#[derive(Drop)]
pub struct Frame {
    pub before: String,
    pub after: String,
}
