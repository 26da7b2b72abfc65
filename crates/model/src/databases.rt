//! Laws of the sequential database and of compaction's copies.
ghost use Rattle.std.specs.Prelude.{◌≡◌, ◌≢◌, ◌↔◌, ℕ, ◌+◌, ◌-◌, ◌<◌, ◌≤◌, Bool, true, false, List, [], ◌∷◌, ◌++◌, length, map, filter, take, drop, nat_lt, All, Contains, Option, Some, None, option_map, option_and_then, unwrap_or, Ok, Err, if◌then◌else◌};
ghost use Rattle.model.specs.Lists.{last_few};
ghost use Rattle.model.specs.Map.{Map, IsRising, empty, get, put, same_key};
ghost use Rattle.model.specs.Body.{Body};
ghost use Rattle.model.specs.Revision.{Rev, IsRev, child, generation_after, last_generation};
ghost use Rattle.model.specs.Tree.{Tree, Leaf, body_of, is_leaf, winner};
ghost use Rattle.model.specs.TreeChange.{Contradicts, cut, graft, stem};
ghost use Rattle.model.specs.Command.{Id, IsId, names, numbers, Edit, Merge, Command, PutLocal, Purge, SetLimit, SetPurgedLimit, Compact, Purged, Refusal, BadHistory, Missing, Deleted, GenerationLimit, Seat, Entry, IsCommand, IsLimit, FitsReply, last_purge};
ghost use Rattle.model.specs.Query.{Options, Style, RevsDiff, AllDocuments, Info, GetLocal, RevsLimit, PurgedInfosLimit};
ghost use Rattle.model.specs.PurgeLog.{PurgeInfo, PurgeLog, AreNumbered, IsLog, has_number, is_overrun, limited, logged, purges_since};
ghost use Rattle.model.specs.Edit.{Written, parent_for, parent_path};
ghost use Rattle.model.specs.Local.{store_local};
ghost use Rattle.model.specs.Database.{Database, Record, IsDatabase, IsNumbered, act, after_edit, after_edits, after_merge, after_merges, after_purge, after_purges, after_put_local, calls_of, changed_by, edit_in, edit_replies, empty_database, merge_in, merge_replies, purge_reply, put_local_reply, removed_of, reply_to, tree_at, with_tree};
ghost use Rattle.model.specs.History.{replay};
ghost use Rattle.model.specs.Changes.{at_numbers, by_seq, changes_page};
ghost use Rattle.model.specs.Documents.{found, opened};
ghost use Rattle.model.specs.Answers.{answer_to};
ghost use Rattle.model.specs.Compaction.{Agrees, Marks, marks_of, passed, strip_at, taken_over, touched, touched_id};

// ---- the purge log

/// A mark is overrun exactly where some purge above it was given a number that the log no longer has. In a log this is
/// where the mark lies below the last number that was dropped, and above another mark the log has all purges.
pub fn overrun_is_a_lost_purge()
    ensures lost { (l : PurgeLog) (mark : ℕ) →
        (is_overrun l mark ≡ true) ↔ ((n : ℕ) × (mark < n) × (n ≤ l.purge_seq) × (has_number l.infos n ≡ false)) }
    ensures test { (l : PurgeLog) (mark : ℕ) → AreNumbered l.purge_seq l.infos →
        is_overrun l mark ≡ nat_lt mark (l.purge_seq - length l.infos) }
    ensures since { (l : PurgeLog) (all : List PurgeInfo) (mark : ℕ) →
        AreNumbered l.purge_seq all → l.infos ≡ last_few l.limit all → is_overrun l mark ≡ false →
        purges_since l mark ≡ filter (λ p. nat_lt mark p.seq) all }
{}

/// A log stays one with each purge, and has the newest of all purges, as many as its limit lets it keep. Under another
/// limit it keeps of them the newest at once, and gets none back.
pub fn log_keeps_the_newest()
    ensures kept { (l : PurgeLog) (id : Id) (leaves : List Rev) →
        IsId id → All IsRev leaves → 0 < length leaves → IsLog l → IsLog (logged l id leaves) }
    ensures newest { (l : PurgeLog) (all : List PurgeInfo) (id : Id) (leaves : List Rev) →
        l.infos ≡ last_few l.limit all →
        (logged l id leaves).infos ≡ last_few l.limit
        (all ++ record { seq = l.purge_seq + 1; id = id; leaves = leaves } ∷ []) }
    ensures limited { (l : PurgeLog) (n : ℕ) → IsLimit n → IsLog l → IsLog (limited l n) }
    ensures cut { (l : PurgeLog) (all : List PurgeInfo) (n : ℕ) → l.infos ≡ last_few l.limit all → n ≤ l.limit →
        (limited l n).infos ≡ last_few n all }
    ensures none_back { (l : PurgeLog) (n : ℕ) → length l.infos ≤ n → (limited l n).infos ≡ l.infos }
{}

// ---- what a command does

/// An edit makes a child of the leaf that it names. Where it names none, it makes the first revision of a document that
/// is not there, or a child of a deleted winner if it is no deletion itself.
pub fn edits_are_over_a_leaf_or_a_deleted_winner()
    ensures named { (t : Tree) (r : Rev) (deleted : Bool) (parent : Option Rev) →
        (parent_for (Some t) (Some r) deleted ≡ Ok parent) ↔ ((is_leaf t r ≡ true) × (parent ≡ Some r)) }
    ensures unnamed { (t : Tree) (deleted : Bool) (parent : Option Rev) →
        (parent_for (Some t) None deleted ≡ Ok parent) ↔ ((deleted ≡ false)
        × ((w : Leaf) × (winner t ≡ Some w) × (w.deleted ≡ true) × (parent ≡ Some w.rev))) }
    ensures first { (named : Option Rev) (deleted : Bool) (parent : Option Rev) →
        (parent_for None named deleted ≡ Ok parent) ↔ ((named ≡ None) × (deleted ≡ false) × (parent ≡ None)) }
    ensures missing { (o : Option Tree) (named : Option Rev) (deleted : Bool) →
        (parent_for o named deleted ≡ Err Missing) ↔ ((o ≡ None) × (deleted ≡ true)) }
    ensures deleted { (t : Tree) (named : Option Rev) (deleted : Bool) →
        (parent_for (Some t) named deleted ≡ Err Deleted) ↔ ((named ≡ None) × (deleted ≡ true)
        × ((w : Leaf) × (winner t ≡ Some w) × (w.deleted ≡ true))) }
{}

/// An edit grafts the child of its parent, and a merge the path that it brings; then the tree is stemmed. An edit is
/// refused past the last generation, and a merge exactly where a known parent contradicts its path.
pub fn writes_graft_and_then_stem()
    ensures edit { (d : Database) (e : Edit) (w : Written) → (edit_in d e ≡ Ok w) ↔ ((parent : Option Rev) × (u : Tree)
        × (parent_for (tree_at d e.id) e.named e.deleted ≡ Ok parent)
        × (generation_after parent ≤ last_generation)
        × (graft (child parent e.deleted e.body ∷ parent_path parent) e.body e.deleted (unwrap_or (tree_at d e.id) empty) ≡ Some u)
        × (w ≡ record { rev = child parent e.deleted e.body; tree = stem d.revs_limit u })) }
    ensures past { (d : Database) (e : Edit) → (edit_in d e ≡ Err GenerationLimit) ↔ ((parent : Option Rev)
        × (parent_for (tree_at d e.id) e.named e.deleted ≡ Ok parent) × (last_generation < generation_after parent)) }
    ensures merge { (d : Database) (m : Merge) (w : Written) → (merge_in d m ≡ Ok w) ↔ ((u : Tree)
        × (graft (m.newest ∷ m.older) m.body m.deleted (unwrap_or (tree_at d m.id) empty) ≡ Some u)
        × (w ≡ record { rev = m.newest; tree = stem d.revs_limit u })) }
    ensures contradicts { (d : Database) (m : Merge) (f : Refusal) → (merge_in d m ≡ Err f) ↔ ((f ≡ BadHistory)
        × Contradicts (unwrap_or (tree_at d m.id) empty) (m.newest ∷ m.older)) }
{}

/// A refused edit or merge changes nothing, and so does one whose tree is there already. Another one gives its document
/// that tree at the next update number, and no other document changes.
pub fn writes_take_the_next_number_or_change_nothing()
    ensures edit_refused { (d : Database) (e : Edit) (f : Refusal) → edit_in d e ≡ Err f → after_edit d e ≡ d }
    ensures edit_same { (d : Database) (e : Edit) (w : Written) →
        edit_in d e ≡ Ok w → tree_at d e.id ≡ Some w.tree → after_edit d e ≡ d }
    ensures edit_new { (d : Database) (e : Edit) (w : Written) →
        edit_in d e ≡ Ok w → tree_at d e.id ≢ Some w.tree → after_edit d e ≡ with_tree d e.id w.tree }
    ensures merge_refused { (d : Database) (m : Merge) (f : Refusal) → merge_in d m ≡ Err f → after_merge d m ≡ d }
    ensures merge_same { (d : Database) (m : Merge) (w : Written) →
        merge_in d m ≡ Ok w → tree_at d m.id ≡ Some w.tree → after_merge d m ≡ d }
    ensures merge_new { (d : Database) (m : Merge) (w : Written) →
        merge_in d m ≡ Ok w → tree_at d m.id ≢ Some w.tree → after_merge d m ≡ with_tree d m.id w.tree }
    ensures there { (d : Database) (id : Id) (t : Tree) →
        get (with_tree d id t).docs id ≡ Some (record { tree = t; seq = d.update_seq + 1 }) }
    ensures others { (d : Database) (id other : Id) (t : Tree) →
        other ≢ id → get (with_tree d id t).docs other ≡ get d.docs other }
{}

/// A purge that removes no leaf changes nothing. A document that loses leaves is logged with them at the next purge
/// number; it takes the next update number where a leaf is left, and otherwise it goes. No other document changes, so
/// what was there before the purge determines all that it removes: that, and the last purge number, is the answer.
pub fn purges_are_logged()
    ensures nothing { (d : Database) (id : Id) (named : List Rev) →
        removed_of d id named ≡ [] → after_purge d (id, named) ≡ d }
    ensures logs { (d : Database) (id : Id) (named : List Rev) → 0 < length (removed_of d id named) →
        (after_purge d (id, named)).purges ≡ logged d.purges id (removed_of d id named) }
    ensures stays { (d : Database) (id : Id) (named : List Rev) (t : Tree) → 0 < length (removed_of d id named) →
        option_and_then (cut named) (tree_at d id) ≡ Some t →
        (get (after_purge d (id, named)).docs id ≡ Some (record { tree = t; seq = d.update_seq + 1 }))
        × ((after_purge d (id, named)).update_seq ≡ d.update_seq + 1) }
    ensures goes { (d : Database) (id : Id) (named : List Rev) → 0 < length (removed_of d id named) →
        option_and_then (cut named) (tree_at d id) ≡ None →
        (get (after_purge d (id, named)).docs id ≡ None) × ((after_purge d (id, named)).update_seq ≡ d.update_seq) }
    ensures others { (d : Database) (id other : Id) (named : List Rev) →
        other ≢ id → get (after_purge d (id, named)).docs other ≡ get d.docs other }
    ensures before { (d : Database) (front : List (Id × List Rev)) (id : Id) (named : List Rev) →
        All (λ e. id ≢ e.0) front → removed_of (after_purges d front) id named ≡ removed_of d id named }
    ensures answers { (d : Database) (named : Map names (List Rev)) (id : Id) →
        get (purge_reply d named) id ≡ option_map (removed_of d id) (get named id) }
    ensures number { (d : Database) (seat : Seat) (named : Map names (List Rev)) →
        reply_to d (Purge named) ≡ Purged (act d seat (Purge named)).purges.purge_seq (purge_reply d named) }
{}

/// A bulk acts in the order listed, its first part and then the rest, and so does a purge.
pub fn bulks_act_in_order()
    ensures edits { (d : Database) (es fs : List Edit) → after_edits d (es ++ fs) ≡ after_edits (after_edits d es) fs }
    ensures edit_replies { (d : Database) (es fs : List Edit) →
        edit_replies d (es ++ fs) ≡ edit_replies d es ++ edit_replies (after_edits d es) fs }
    ensures merges { (d : Database) (ms ns : List Merge) →
        after_merges d (ms ++ ns) ≡ after_merges (after_merges d ms) ns }
    ensures merge_replies { (d : Database) (ms ns : List Merge) →
        merge_replies d (ms ++ ns) ≡ merge_replies d ms ++ merge_replies (after_merges d ms) ns }
    ensures purges { (d : Database) (es fs : List (Id × List Rev)) →
        after_purges d (es ++ fs) ≡ after_purges (after_purges d es) fs }
{}

/// Edits and merges change documents and the update number alone, and purges these and the log, of which the limit stays.
pub fn writes_leave_the_rest()
    ensures edits { (d : Database) (es : List Edit) →
        after_edits d es ≡ record d { docs = (after_edits d es).docs; update_seq = (after_edits d es).update_seq } }
    ensures merges { (d : Database) (ms : List Merge) →
        after_merges d ms ≡ record d { docs = (after_merges d ms).docs; update_seq = (after_merges d ms).update_seq } }
    ensures purges { (d : Database) (es : List (Id × List Rev)) →
        after_purges d es ≡ record d { docs = (after_purges d es).docs; update_seq = (after_purges d es).update_seq; purges = (after_purges d es).purges } }
    ensures log_limit { (d : Database) (es : List (Id × List Rev)) →
        (after_purges d es).purges.limit ≡ d.purges.limit }
{}

/// Setting a limit and writing a local document touch no document and no number of updates or purges; the limit of the
/// log cuts it.
pub fn settings_touch_no_document()
    ensures limit { (d : Database) (seat : Seat) (n : ℕ) →
        act d seat (SetLimit n) ≡ record d { revs_limit = n; calls = (act d seat (SetLimit n)).calls } }
    ensures purged_limit { (d : Database) (seat : Seat) (n : ℕ) →
        act d seat (SetPurgedLimit n)
        ≡ record d { purges = limited d.purges n; calls = (act d seat (SetPurgedLimit n)).calls } }
    ensures local { (d : Database) (seat : Seat) (id : Id) (named : Option ℕ) (body : Option Body) →
        act d seat (PutLocal id named body) ≡ record d {
          locals = store_local d.locals id body (put_local_reply d id named body);
          calls = (act d seat (PutLocal id named body)).calls;
        } }
{}

/// A local document is written over its present revision, or over none where there is none. It takes the next number,
/// from 1, and 0 when it goes. A refused write changes nothing, and no write another document.
pub fn local_documents_count_their_writes()
    ensures over { (d : Database) (id : Id) (named : Option ℕ) (body : Option Body) (k : ℕ) →
        put_local_reply d id named body ≡ Ok k → named ≡ option_map (λ l. l.counter) (get d.locals id) }
    ensures next { (d : Database) (id : Id) (named : Option ℕ) (b : Body) (k : ℕ) →
        put_local_reply d id named (Some b) ≡ Ok k →
        k ≡ unwrap_or (option_map (λ l. l.counter) (get d.locals id)) 0 + 1 }
    ensures written { (d : Database) (id : Id) (named : Option ℕ) (b : Body) (k : ℕ) →
        put_local_reply d id named (Some b) ≡ Ok k →
        get (after_put_local d id named (Some b)).locals id ≡ Some (record { counter = k; body = b }) }
    ensures zero { (d : Database) (id : Id) (named : Option ℕ) (k : ℕ) → put_local_reply d id named None ≡ Ok k → k ≡ 0 }
    ensures gone { (d : Database) (id : Id) (named : Option ℕ) (k : ℕ) →
        put_local_reply d id named None ≡ Ok k → get (after_put_local d id named None).locals id ≡ None }
    ensures refused { (d : Database) (id : Id) (named : Option ℕ) (body : Option Body) (f : Refusal) →
        put_local_reply d id named body ≡ Err f → after_put_local d id named body ≡ d }
    ensures others { (d : Database) (id other : Id) (named : Option ℕ) (body : Option Body) →
        other ≢ id → get (after_put_local d id named body).locals other ≡ get d.locals other }
{}

/// Each command is one call of its session, and none of another.
pub fn each_command_is_one_call()
    ensures calls { (d : Database) (seat : Seat) (c : Command) →
        (act d seat c).calls ≡ put d.calls seat.session (calls_of d seat.session + 1) }
    ensures counts { (d : Database) (seat : Seat) (c : Command) (s : ℕ) →
        calls_of (act d seat c) s ≡ (if same_key numbers s seat.session then calls_of d s + 1 else calls_of d s) }
{}

// ---- what a database keeps

/// Update numbers of records stay from 1 to the database's and no two alike, and no number of the database falls.
pub fn numbers_stay_distinct_and_never_fall()
    ensures distinct { (d : Database) (seat : Seat) (c : Command) → IsNumbered d → IsNumbered (act d seat c) }
    ensures update { (d : Database) (es : List Entry) → d.update_seq ≤ (replay d es).update_seq }
    ensures purge { (d : Database) (es : List Entry) → d.purges.purge_seq ≤ (replay d es).purges.purge_seq }
{}

/// The records are in the order of their update numbers, each once, and so they are in the index by these numbers.
pub fn records_are_listed_by_number()
    ensures members { (d : Database) (n : ℕ) (id : Id) (r : Record) → IsNumbered d →
        Contains (by_seq d) (n, (id, r)) ↔ ((get d.docs id ≡ Some r) × (r.seq ≡ n)) }
    ensures order { (d : Database) → IsRising numbers (map (λ e. e.0) (by_seq d)) }
    ensures index { (d : Database) (n : ℕ) (id : Id) (r : Record) → IsNumbered d →
        (get (at_numbers d) n ≡ Some (id, r)) ↔ ((get d.docs id ≡ Some r) × (r.seq ≡ n)) }
{}

/// The rule that makes an identity makes one in range, up to the last generation.
pub fn children_are_in_range()
    ensures child { (parent : Option Rev) (deleted : Bool) (body : Body) →
        generation_after parent ≤ last_generation → IsRev (child parent deleted body) }
{}

/// The empty database is valid, and a valid command leaves a valid database valid and is answered in the form of its row,
/// as long as purge numbers fit an answer. So each document has a winner, whose body is there.
pub fn databases_stay_valid()
    ensures start { IsDatabase empty_database }
    ensures kept { (d : Database) (seat : Seat) (c : Command) → IsCommand c → IsDatabase d → IsDatabase (act d seat c) }
    ensures history { (d : Database) (es : List Entry) →
        All (λ e. IsCommand e.command) es → IsDatabase d → IsDatabase (replay d es) }
    ensures reply { (d : Database) (c : Command) → IsCommand c → IsDatabase d →
        (changed_by d c).purges.purge_seq ≤ last_purge → FitsReply c (reply_to d c) }
    ensures winner { (d : Database) (id : Id) (t : Tree) → IsDatabase d → tree_at d id ≡ Some t →
        (w : Leaf) × (winner t ≡ Some w) × (body : Body) × (body_of t w.rev ≡ Some body) }
{}

// ---- compaction

/// Compaction is one step: each document has its record's strip, and nothing else changes.
pub fn compaction_is_the_strip()
    ensures each { (d : Database) (seat : Seat) (id : Id) → get (act d seat Compact).docs id ≡ strip_at d id }
    ensures rest { (d : Database) (seat : Seat) →
        act d seat Compact ≡ record d { docs = (act d seat Compact).docs; calls = (act d seat Compact).calls } }
{}

/// Compaction is seen by no feed, by no query of differences, live documents, numbers, the limits or local documents, and
/// by no query of a winner or of all leaves that doesn't ask which of their ancestors have a body.
pub fn compaction_is_unseen()
    ensures changes { (wanted : Id → Bool) (d : Database) (seat : Seat) (since : ℕ) (limit : Option ℕ) (style : Style) →
        changes_page wanted (act d seat Compact) since limit style ≡ changes_page wanted d since limit style }
    ensures differences { (d : Database) (seat : Seat) (asked : Map names (List Rev)) →
        answer_to (act d seat Compact) (RevsDiff asked) ≡ answer_to d (RevsDiff asked) }
    ensures live { (d : Database) (seat : Seat) → answer_to (act d seat Compact) AllDocuments ≡ answer_to d AllDocuments }
    ensures info { (d : Database) (seat : Seat) → answer_to (act d seat Compact) Info ≡ answer_to d Info }
    ensures limit { (d : Database) (seat : Seat) → answer_to (act d seat Compact) RevsLimit ≡ answer_to d RevsLimit }
    ensures purged_limit { (d : Database) (seat : Seat) →
        answer_to (act d seat Compact) PurgedInfosLimit ≡ answer_to d PurgedInfosLimit }
    ensures local { (d : Database) (seat : Seat) (id : Id) →
        answer_to (act d seat Compact) (GetLocal id) ≡ answer_to d (GetLocal id) }
    ensures winner { (d : Database) (seat : Seat) (id : Id) (options : Options) → options.revs_info ≡ false →
        found (act d seat Compact) id None options ≡ found d id None options }
    ensures leaves { (d : Database) (seat : Seat) (id : Id) (options : Options) → options.revs_info ≡ false →
        opened (act d seat Compact) id None options ≡ opened d id None options }
{}

/// A copy that agrees with a database at its marks agrees with each later one: an entry leaves a record's strip as it
/// was, gives the record a new update number, or logs its id, unless a purge above the mark is lost. A lost one stays so.
pub fn agreement_lasts()
    ensures start { (d : Database) → Agrees (strip_at d) (marks_of d) d }
    ensures entry { (d : Database) (seat : Seat) (c : Command) → AreNumbered d.purges.purge_seq d.purges.infos →
        Agrees (strip_at d) (marks_of d) (act d seat c) }
    ensures lasts { (copy : Id → Option Record) (m : Marks) (d : Database) (es : List Entry) →
        AreNumbered d.purges.purge_seq d.purges.infos → m.update ≤ d.update_seq → m.purge ≤ d.purges.purge_seq →
        Agrees copy m d → Agrees copy m (replay d es) }
    ensures overrun { (d : Database) (es : List Entry) (mark : ℕ) → AreNumbered d.purges.purge_seq d.purges.infos →
        is_overrun d.purges mark ≡ true → is_overrun (replay d es).purges mark ≡ true }
{}

/// Taking over the first n touched documents and passing them keeps agreement, and leaves the rest touched. The marks
/// rise, at most to the database's numbers. A copy that has taken over all that is touched is the strip everywhere.
pub fn catching_up_keeps_agreement()
    ensures agrees { (copy : Id → Option Record) (m : Marks) (d : Database) (n : ℕ) →
        AreNumbered d.purges.purge_seq d.purges.infos → IsNumbered d → is_overrun d.purges m.purge ≡ false →
        Agrees copy m d →
        Agrees (taken_over copy d (map touched_id (take n (touched d m)))) (passed m (take n (touched d m))) d }
    ensures rest { (d : Database) (m : Marks) (n : ℕ) → AreNumbered d.purges.purge_seq d.purges.infos →
        touched d (passed m (take n (touched d m))) ≡ drop n (touched d m) }
    ensures left { (d : Database) (m : Marks) (n : ℕ) → AreNumbered d.purges.purge_seq d.purges.infos →
        length (touched d (passed m (take n (touched d m)))) ≡ length (touched d m) - n }
    ensures rise { (d : Database) (m : Marks) (n : ℕ) → AreNumbered d.purges.purge_seq d.purges.infos →
        (m.update ≤ (passed m (take n (touched d m))).update) × (m.purge ≤ (passed m (take n (touched d m))).purge) }
    ensures most { (d : Database) (m : Marks) (n : ℕ) → AreNumbered d.purges.purge_seq d.purges.infos → IsNumbered d →
        m.update ≤ d.update_seq → m.purge ≤ d.purges.purge_seq →
        ((passed m (take n (touched d m))).update ≤ d.update_seq)
        × ((passed m (take n (touched d m))).purge ≤ d.purges.purge_seq) }
    ensures all { (copy : Id → Option Record) (m : Marks) (d : Database) (id : Id) →
        IsNumbered d → is_overrun d.purges m.purge ≡ false → Agrees copy m d →
        taken_over copy d (map touched_id (touched d m)) id ≡ strip_at d id }
    ensures done { (copy : Id → Option Record) (m : Marks) (d : Database) (id : Id) →
        IsNumbered d → is_overrun d.purges m.purge ≡ false → Agrees copy m d → touched d m ≡ [] →
        copy id ≡ strip_at d id }
{}
