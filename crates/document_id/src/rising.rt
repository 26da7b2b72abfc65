//! Lists that begin with ids in their order.
ghost use Rattle.std.specs.Prelude.{◌↔◌, T, IsTrue};
ghost use Rattle.std.specs.FinMap.Entries.{is_sorted};
ghost use Rattle.model.specs.Command.{names};

use crate::id::DocId;

/// Whether each id is below the next one's, by their bytes.
pub fn ids_rise<V>(entries: &[(DocId, V)]) -> bool
    ensures { IsTrue result ↔ T (is_sorted names.cmp entries.now) }
{
    let Some((first, rest)) = entries.split_first() else {
        return true;
    };
    let mut last = first;
    for entry in rest {
        if last.0 >= entry.0 {
            return false;
        }
        last = entry;
    }
    true
}
