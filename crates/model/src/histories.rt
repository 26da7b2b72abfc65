//! Laws of histories, of interleavings and of feeds.
ghost use Rattle.std.specs.Prelude.{◌≡◌, ◌≢◌, ◌↔◌, ◌⊎◌, ℕ, ◌+◌, ◌<◌, ◌≤◌, Bool, true, List, [], ◌∷◌, ◌++◌, length, map, take, slice_get, filter_map, AllPairs, Contains, Option};
ghost use Rattle.std.specs.List.{range_with_len};
ghost use Rattle.model.specs.Map.{Map};
ghost use Rattle.model.specs.Command.{Id, names, Command, Reply, Seat, Job, Entry};
ghost use Rattle.model.specs.Query.{Style, Row};
ghost use Rattle.model.specs.Database.{Database, Record, IsDatabase, IsNumbered, empty_database, act, calls_of};
ghost use Rattle.model.specs.History.{replay, IsNext, IsLegal, batch_entries, job_of, of_session, calls_in, Chronicle, now, extended, Extends, Follows, IsBase, base_of, largest_base, successor};
ghost use Rattle.model.specs.PurgeLog.{AreNumbered, is_overrun};
ghost use Rattle.model.specs.Compaction.{Agrees, Marks};
ghost use Rattle.model.specs.Changes.{rows_since, last_seq_of, changes_page, IsRowOf, IsRightFeed, fed};
ghost use Rattle.model.specs.World.{Config, Event, Put, Swap, Completed, WroteAt, World, AddsCompact, database_of, start_world, step, run};
ghost use Rattle.model.specs.Told.{Tells, AllTold, wrote, places_of, NoneFalls};

/// Replay goes on by `act`, and a batch adds the entries of its first jobs and then those of the others.
pub fn replay_goes_on()
    ensures pushed { (base : Database) (es : List Entry) (e : Entry) →
        replay base (es ++ e ∷ []) ≡ act (replay base es) e.seat e.command }
    ensures appended { (base : Database) (es more : List Entry) →
        replay base (es ++ more) ≡ replay (replay base es) more }
    ensures batch { (d : Database) (js ks : List Job) →
        batch_entries d (js ++ ks) ≡ batch_entries d js ++ batch_entries (replay d (batch_entries d js)) ks }
{}

/// A history is legal exactly where a beginning of it is, and the rest from the database after that. Its entries
/// are those of its jobs, one after another.
pub fn legal_histories_go_on()
    ensures next { (base : Database) (es : List Entry) (e : Entry) →
        IsLegal base (es ++ e ∷ []) ↔ (IsLegal base es × IsNext (replay base es) e) }
    ensures parts { (base : Database) (es more : List Entry) →
        IsLegal base (es ++ more) ↔ (IsLegal base es × IsLegal (replay base es) more) }
    ensures entries { (base : Database) (es : List Entry) →
        IsLegal base es → es ≡ batch_entries base (map job_of es) }
{}

/// In a legal history each session's calls are numbered one by one, on from those of the base, and no call is
/// twice.
pub fn calls_are_numbered()
    ensures numbers { (base : Database) (es : List Entry) (s : ℕ) → IsLegal base es →
        calls_in (of_session s es) ≡ range_with_len (calls_of base s + 1) (length (of_session s es)) }
    ensures count { (base : Database) (es : List Entry) (s : ℕ) →
        calls_of (replay base es) s ≡ calls_of base s + length (of_session s es) }
    ensures once { (base : Database) (es : List Entry) (m n : ℕ) (e f : Entry) → IsLegal base es →
        slice_get es m ≡ Some e → slice_get es n ≡ Some f → e.seat ≡ f.seat → m ≡ n }
{}

/// A history can begin from the empty database, and from the successor of a database whose numbers leave room.
pub fn histories_begin_from_bases()
    ensures empty { IsBase empty_database }
    ensures successor { (d : Database) → IsDatabase d → d.update_seq ≤ largest_base →
        d.purges.purge_seq ≤ largest_base → IsBase (successor d) }
{}

/// A history that extends another records all that the other does. The commands that it records have places from 1 to its
/// length.
pub fn longer_histories_tell_more()
    ensures each { (later earlier : Chronicle) (c : Completed) → Extends later earlier →
        Tells (base_of earlier.base) earlier.entries c → Tells (base_of later.base) later.entries c }
    ensures all { (later earlier : Chronicle) (cs : List Completed) → Extends later earlier →
        AllTold (base_of earlier.base) earlier.entries cs → AllTold (base_of later.base) later.entries cs }
    ensures places { (base : Database) (h : List Entry) (seat : Seat) (c : Command) (place : ℕ) (reply : Reply) →
        Tells base h (WroteAt seat c place reply) → (0 < place) × (place ≤ length h) }
{}

/// Versions follow one another in an order in which no update number and no purge number falls.
pub fn versions_follow_in_order()
    ensures extends_itself { (v : Chronicle) → Extends v v }
    ensures extends_through { (u v w : Chronicle) → Extends u v → Extends v w → Extends u w }
    ensures extended { (v : Chronicle) (es : List Entry) →
        Extends (extended v es) v × (now (extended v es) ≡ replay (now v) es) }
    ensures follows_itself { (v : Chronicle) → Follows v v }
    ensures follows_through { (u v w : Chronicle) → Follows u v → Follows v w → Follows u w }
    ensures update_numbers { (later earlier : Chronicle) → Follows later earlier →
        (now earlier).update_seq ≤ (now later).update_seq }
    ensures purge_numbers { (later earlier : Chronicle) → Follows later earlier →
        (now earlier).purges.purge_seq ≤ (now later).purges.purge_seq }
{}

/// A copy that agrees with a version agrees with each one that follows, in this epoch or a later one, and a lost purge
/// stays lost.
pub fn agreement_follows()
    ensures agrees { (copy : Id → Option Record) (m : Marks) (later earlier : Chronicle) →
        AreNumbered (now earlier).purges.purge_seq (now earlier).purges.infos → Follows later earlier →
        m.update ≤ (now earlier).update_seq → m.purge ≤ (now earlier).purges.purge_seq →
        Agrees copy m (now earlier) → Agrees copy m (now later) }
    ensures overrun { (later earlier : Chronicle) (mark : ℕ) →
        AreNumbered (now earlier).purges.purge_seq (now earlier).purges.infos → Follows later earlier →
        is_overrun (now earlier).purges mark ≡ true → is_overrun (now later).purges mark ≡ true }
{}

/// After every list of events the history is legal, records each completed call and holds no other entry, and the
/// places of a session's calls never fall.
pub fn every_run_is_legal()
    ensures legal { (base : Database) (c : Config) (es : List Event) →
        IsLegal base (run base c (start_world c) es).history }
    ensures told { (base : Database) (c : Config) (es : List Event) →
        let w = run base c (start_world c) es in AllTold base w.history w.completed }
    ensures only { (base : Database) (c : Config) (es : List Event) →
        let w = run base c (start_world c) es in filter_map wrote w.completed ≡ w.history }
    ensures places { (base : Database) (c : Config) (es : List Event) (s : ℕ) →
        NoneFalls 0 (places_of s (run base c (start_world c) es).completed) }
{}

/// A Put adds the entries of its batch in order, a Swap at most a Compact, which strips the database, and no
/// other event adds an entry.
pub fn events_add_entries()
    ensures put { (base : Database) (c : Config) (w : World) →
        0 < length w.batch → length w.history + length w.batch ≤ c.max_places →
        (step base c w Put).history ≡ w.history ++ batch_entries (database_of base w) w.batch }
    ensures full { (base : Database) (c : Config) (w : World) →
        c.max_places < length w.history + length w.batch → step base c w Put ≡ w }
    ensures swap { (base : Database) (c : Config) (w : World) →
        ((step base c w Swap).history ≡ w.history) ⊎ AddsCompact base w (step base c w Swap) }
    ensures others { (base : Database) (c : Config) (w : World) (e : Event) →
        e ≢ Put → e ≢ Swap → (step base c w e).history ≡ w.history }
{}

/// The changes since a number are the rows of the wanted documents that were updated later, in the order of
/// their last updates.
pub fn changes_list_later_updates()
    ensures rows { (wanted : Id → Bool) (d : Database) (since : ℕ) (style : Style) (r : Row) → IsNumbered d →
        Contains (rows_since wanted d since style) r ↔ IsRowOf wanted d since style r }
    ensures rising { (wanted : Id → Bool) (d : Database) (since : ℕ) (style : Style) →
        AllPairs (λ q r. q.seq < r.seq) (rows_since wanted d since style) }
{}

/// A follower's map that is right for a version is right, with its next rows, for each version that follows. A
/// map that is right up to a number is right, with a page of changes since then, up to the page's last number.
pub fn feeds_stay_right()
    ensures next { (wanted : Id → Bool) (style : Style) (m : Map names Row) (s c n : ℕ)
        (later earlier : Chronicle) → IsNumbered (base_of earlier.base) → Follows later earlier →
        c ≤ (now earlier).update_seq → IsRightFeed wanted style m s c (now earlier) →
        let rows = take n (rows_since wanted (now later) c style) in
        IsRightFeed wanted style (fed m rows) s (last_seq_of c rows) (now later) }
    ensures cursor { (wanted : Id → Bool) (style : Style) (c n : ℕ) (d : Database) →
        IsNumbered d → c ≤ d.update_seq →
        let last = last_seq_of c (take n (rows_since wanted d c style)) in
        (c ≤ last) × (last ≤ d.update_seq) }
    ensures page { (wanted : Id → Bool) (style : Style) (m : Map names Row) (s since : ℕ) (limit : Option ℕ)
        (d : Database) → IsNumbered d → IsRightFeed wanted style m s since d →
        let page = changes_page wanted d since limit style in
        IsRightFeed wanted style (fed m page.rows) s page.last_seq d }
{}
