//! A revision in the list that a tree is made of.
ghost use Rattle.std.specs.Prelude.{◌≡◌, option_map, IfOk};
ghost use Rattle.std.specs.Arc.{arc_value};
ghost use Rattle.revision_tree.specs.Nodes.{entry_of, row_of};

use json_profile::Body;
use revision_id::RevId;
use std::alloc::AllocError;
use std::sync::Arc;

/// What a tree has of a revision.
#[derive(Drop)]
pub struct Node {
    pub rev: RevId,
    /// The parent, where it is known.
    pub parent: Option<RevId>,
    pub deleted: bool,
    /// Where it is kept.
    pub body: Option<Arc<Body>>,
    /// Whether it is the parent of another. The tree that takes the node says so.
    pub(crate) inner: bool,
}

impl Node {
    /// A revision, which is nobody's parent yet.
    pub fn new(rev: RevId, parent: Option<RevId>, deleted: bool, body: Option<Arc<Body>>) -> Node
        ensures { entry_of result ≡ (rev, record { parent = parent; deleted = deleted; body = option_map arc_value body }) }
    {
        Node {
            rev,
            parent,
            deleted,
            body,
            inner: false,
        }
    }

    /// The same again, with the same body. It takes no memory, but is refused at the largest count of a body's owners.
    pub fn share(&self) -> Result<Node, AllocError>
        ensures entry { IfOk result (λ node. entry_of node ≡ entry_of self.now) }
        ensures row { IfOk result (λ node. row_of node ≡ row_of self.now) }
    {
        Ok(Node {
            rev: self.rev,
            parent: self.parent,
            deleted: self.deleted,
            body: shared(&self.body)?,
            inner: self.inner,
        })
    }
}

fn shared(body: &Option<Arc<Body>>) -> Result<Option<Arc<Body>>, AllocError>
    ensures { IfOk result (λ same. option_map arc_value same ≡ option_map arc_value body.now) }
{
    let Some(body) = body else {
        return Ok(None);
    };
    Ok(Some(Arc::try_clone(body)?))
}
