//! The ids that paths name.
ghost use Rattle.document_json.specs.Steps.{Decides};
ghost use Rattle.http_request.specs.Identity.{path_id};

use document_id::DocId;
use document_json::{Fault, Reason, read_id};
use http_routing::last_segment;
use http_routing::segment::{SegmentFault, decode_segment};
use std::alloc::Global;

/// The id that a path ends in.
pub(crate) fn read_path_id(alloc: Global, path: &str) -> Result<DocId, Fault>
    ensures { Decides result (path_id path.now) }
{
    match decode_segment(alloc, last_segment(path)) {
        Ok(text) => read_id(alloc, text.as_str()),
        Err(SegmentFault::NotText) => Err(Fault::Refused(Reason::Id)),
        Err(SegmentFault::Memory) => Err(Fault::Memory),
    }
}
