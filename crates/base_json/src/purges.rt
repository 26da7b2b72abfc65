//! The purges that the log of a base keeps, as its text writes them.
ghost use Rattle.std.specs.Prelude.{◌≡◌, ◌++◌, List, All, map, option_map, Some, IfOk, OnOk, string_bytes};
ghost use Rattle.serde_json.specs.Data.{array, number, string, unsigned};
ghost use Rattle.serde_json.specs.View.{items_of};
ghost use Rattle.serde_json.specs.Written.{compact_text};
ghost use Rattle.model.specs.PurgeLog.{PurgeInfo};
ghost use Rattle.document_json.specs.Written.{revs_data};
ghost use Rattle.purge.specs.Log.{info_of, infos_of};
ghost use Rattle.base_json.specs.Base.{IsLogged, purge_info_data};

use crate::each::ListItem;
use document_id::DocId;
use document_json::put_comma;
use history_json::{LineValue, number_in, put_list, read_list};
use json_profile::Json;
use purge::{PurgeLog, Purged};
use revision_id::RevId;
use std::alloc::{AllocError, Global};

/// Writes the purges that are kept, in the order of their numbers.
pub(crate) fn put_purges(text: &mut String, alloc: Global, log: &PurgeLog) -> Result<(), AllocError>
    ensures { OnOk result (string_bytes text.new ≡ string_bytes text.old
        ++ compact_text (array (items_of (map purge_info_data log.now.infos)))) }
{
    text.push_str("[")?;
    let mut later = false;
    for (seq, purged) in log.iter() {
        put_comma(text, later)?;
        put_purged(text, alloc, *seq, purged)?;
        later = true;
    }
    text.push_str("]")
}

/// Writes one purge.
fn put_purged(text: &mut String, alloc: Global, seq: u64, purged: &Purged) -> Result<(), AllocError>
    ensures { OnOk result (string_bytes text.new
        ≡ string_bytes text.old ++ compact_text (purge_info_data (info_of (seq, purged.now)))) }
{
    text.push_str("{\"id\":")?;
    purged.id().put(text, alloc)?;
    text.push_str(",\"leaves\":")?;
    put_list(text, alloc, purged.leaves())?;
    write!(text, ",\"seq\":{seq}}}")
}

impl ListItem for (u64, Purged) {
    ghost Shown = { PurgeInfo };

    ghost shown = { info_of };

    ghost data_of = { purge_info_data };

    ghost is_within = { IsLogged };

    fn read_item(alloc: Global, value: Json) -> Result<Option<(u64, Purged)>, AllocError> {
        let Some(mut members) = value.into_object() else {
            return Ok(None);
        };
        let Some(id) = members.take("id") else {
            return Ok(None);
        };
        let Some(leaves) = members.take("leaves") else {
            return Ok(None);
        };
        let Some(seq) = members.take("seq") else {
            return Ok(None);
        };
        purged_of(alloc, id, leaves, &seq)
    }
}

/// The purge of these values.
fn purged_of(
    alloc: Global,
    id: Json,
    leaves: Json,
    seq: &Json,
) -> Result<Option<(u64, Purged)>, AllocError>
    ensures { IfOk result (λ found. (info : PurgeInfo) → IsLogged info → id ≡ string info.id
        → leaves ≡ revs_data info.leaves → seq.now ≡ number (unsigned info.seq)
        → option_map info_of found ≡ Some info) }
{
    let Some(seq) = number_in(seq) else {
        return Ok(None);
    };
    let Some(id) = DocId::read(alloc, id)? else {
        return Ok(None);
    };
    let Some(leaves) = read_list::<RevId>(alloc, leaves)? else {
        return Ok(None);
    };
    Ok(Some((seq, Purged::new(id, leaves))))
}
