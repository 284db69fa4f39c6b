//! What the definitions say, as contracts of functions that do nothing.
ghost use Rattle.std.specs.Prelude.{◌≡◌, ◌≢◌, ◌↔◌, ◌⊎◌, ◌≤◌, ◌+◌, ◌++◌, ⊤, ℕ, List, [], Some, None, Option, false, length, map, take, drop, AllPairs, Contains, IsNone, IsSome, Result, Ok, Err, bytes_eq};
ghost use Rattle.file_store.specs.declared.failing.FailingStore.{FailingStore};
ghost use Rattle.file_store.specs.declared.failing.FailureTime.TheVariants.{Before, After};
ghost use Rattle.file_store.specs.declared.node.Listed.{Listed};
ghost use Rattle.file_store.specs.declared.node.Listing.{Listing};
ghost use Rattle.file_store.specs.declared.node.Node.TheVariants.{File};
ghost use Rattle.file_store.specs.declared.node.Stat.{Stat};
ghost use Rattle.file_store.specs.declared.refusal.StoreRefusal.{StoreRefusal};
ghost use Rattle.file_store.specs.declared.refusal.StoreRefusal.TheVariants.{StoreFault};
ghost use Rattle.file_store.specs.Calls.{Lists, Stats, Reads, MakesTemp, Writes, Commits, Drops, Renames, Removes, MakesDir, RemovesDir, temp_made, temp_written, committed};
ghost use Rattle.file_store.specs.Contents.{overwritten};
ghost use Rattle.file_store.specs.Failing.{calls_left, failure_time, wrapped};
ghost use Rattle.file_store.specs.Laws.{FailsOneOf, IsOfKind, Leaves, ReadsOn, SaysWhatIsThere};
ghost use Rattle.file_store.specs.Names.{Name, is_parent};
ghost use Rattle.file_store.specs.Trees.{Tree, bytes_of};
ghost use Rattle.sync_names.specs.Refusal.{refusal};

/// No call, whatever it returns and even if the store fails, changes another name than those that it is given, except that
/// missing parents are made.
pub fn calls_change_their_names_alone()
    ensures make_temp { (old new : Tree) (n q : Name) (r : Result (Unit {0}) StoreRefusal) → MakesTemp ⊤ old n r new →
        bytes_eq n q ≡ false → is_parent q n ≡ false → Leaves old new q }
    ensures make_temp_there { (old new : Tree) (n q : Name) (r : Result (Unit {0}) StoreRefusal) → MakesTemp ⊤ old n r new →
        IsSome (old.names q) → new.names q ≡ old.names q }
    ensures write_at { (old new : Tree) (n q : Name) (offset : ℕ) (piece : List ℕ) (r : Result (Unit {0}) StoreRefusal) →
        Writes ⊤ old n offset piece r new → bytes_eq n q ≡ false → Leaves old new q }
    ensures write_at_file { (old new : Tree) (n : Name) (offset : ℕ) (piece : List ℕ) (r : Result (Unit {0}) StoreRefusal) →
        Writes ⊤ old n offset piece r new → new.names ≡ old.names }
    ensures commit_temp { (old new : Tree) (n q : Name) (r : Result (Unit {0}) StoreRefusal) →
        Commits ⊤ old n r new → bytes_eq n q ≡ false → Leaves old new q }
    ensures drop_temp { (old new : Tree) (n q : Name) (r : Result (Unit {0}) StoreRefusal) →
        Drops ⊤ old n r new → bytes_eq n q ≡ false → Leaves old new q }
    ensures rename { (old new : Tree) (from to q : Name) (r : Result (Unit {0}) StoreRefusal) →
        Renames ⊤ old from to r new → bytes_eq from q ≡ false → bytes_eq to q ≡ false → Leaves old new q }
    ensures remove { (old new : Tree) (n q : Name) (r : Result (Unit {0}) StoreRefusal) →
        Removes ⊤ old n r new → bytes_eq n q ≡ false → Leaves old new q }
    ensures make_dir { (old new : Tree) (n q : Name) (r : Result (Unit {0}) StoreRefusal) → MakesDir ⊤ old n r new →
        bytes_eq n q ≡ false → is_parent q n ≡ false → Leaves old new q }
    ensures make_dir_there { (old new : Tree) (n q : Name) (r : Result (Unit {0}) StoreRefusal) → MakesDir ⊤ old n r new →
        bytes_eq n q ≡ false → IsSome (old.names q) → new.names q ≡ old.names q }
    ensures remove_dir { (old new : Tree) (n q : Name) (r : Result (Unit {0}) StoreRefusal) →
        RemovesDir ⊤ old n r new → bytes_eq n q ≡ false → Leaves old new q }
{}

/// Bytes that are written are read, those before and after them are as before, and bytes written at the end are appended.
pub fn bytes_written_are_read()
    ensures read { (bytes piece : List ℕ) (offset : ℕ) →
        take (length piece) (drop offset (overwritten bytes offset piece)) ≡ piece }
    ensures appended { (bytes piece : List ℕ) → overwritten bytes (length bytes) piece ≡ bytes ++ piece }
{}

/// A file whose temporary file is made, written whole and committed has the bytes that were written, and no temporary file.
pub fn files_are_put()
    ensures file { (t : Tree) (n : Name) (bytes : List ℕ) (modified : ℕ) →
        (committed (temp_written (temp_made t n) n 0 bytes) n modified).names n ≡ Some (File bytes modified) }
    ensures temporary { (t : Tree) (n : Name) (bytes : List ℕ) (modified : ℕ) →
        (committed (temp_written (temp_made t n) n 0 bytes) n modified).temps n ≡ None }
{}

/// `list`, `stat` and `read_at` change nothing, whatever they return.
pub fn questions_change_nothing()
    ensures list { (old new : Tree) (r : Result Listing StoreRefusal) → Lists ⊤ old r new → new ≡ old }
    ensures stat { (old new : Tree) (n : Name) (r : Result Stat StoreRefusal) → Stats ⊤ old n r new → new ≡ old }
    ensures read_at { (old new : Tree) (n : Name) (offset : ℕ) (before after : List ℕ) (r : Result ℕ StoreRefusal) →
        Reads ⊤ old n offset before after r new → new ≡ old }
{}

/// `stat` says that nothing, a directory or a file of so many bytes is there exactly where it is, and nothing else.
pub fn stat_says_what_is_there()
    ensures { (old new : Tree) (n : Name) (said : Stat) → Stats ⊤ old n (Ok said) new → SaysWhatIsThere said (old.names n) }
{}

/// A listing has each safe name of a file or a directory, with its kind, once, and nothing else.
pub fn listings_are_exact()
    ensures entries { (old new : Tree) (listing : Listing) (e : Listed) → Lists ⊤ old (Ok listing) new →
        Contains listing.entries.items e ↔ (IsNone (refusal e.name) × IsOfKind e.kind (old.names e.name)) }
    ensures once { (old new : Tree) (listing : Listing) → Lists ⊤ old (Ok listing) new →
        AllPairs (λ a b. a ≢ b) (map (λ e. e.name) listing.entries.items) }
    ensures unread { (old new : Tree) (listing : Listing) → Lists ⊤ old (Ok listing) new → listing.unread.items ≡ [] }
{}

/// A read gives bytes of the file from its offset on, and none exactly for an empty buffer and at the end; the rest of the
/// buffer is as before. Reads one after the other, up to the first that gives nothing, give the whole file.
pub fn reads_give_the_file()
    ensures buffer { (old new : Tree) (n : Name) (offset k : ℕ) (before after : List ℕ) →
        Reads ⊤ old n offset before after (Ok k) new → after ≡ take k (drop offset (bytes_of (old.names n))) ++ drop k before }
    // Exactly when a read gives nothing. The premises are on the buffer: its length stays, and it holds what is read.
    ensures none { (old new : Tree) (n : Name) (offset k : ℕ) (before after : List ℕ) →
        Reads ⊤ old n offset before after (Ok k) new → k ≤ length after → length after ≡ length before →
        (k ≡ 0) ↔ ((before ≡ []) ⊎ (length (bytes_of (old.names n)) ≤ offset)) }
    ensures whole { (t : Tree) (n : Name) (bytes : List ℕ) → ReadsOn t n 0 bytes → bytes ≡ bytes_of (t.names n) }
{}

/// A failing store fails the call before which no calls are left, once: before the wrapped store is asked, which stays as it
/// is, or after. All other calls are the wrapped store's.
pub fn failing_stores_fail_one_call<S, V>()
    // The call fails and the wrapped store stays as it is, where no calls are left and the failure is before the call.
    ensures before { (old new : FailingStore S) (result answer : Result V StoreRefusal) (done : S) → FailsOneOf old new result answer done →
        calls_left old ≡ Some 0 → failure_time old ≡ Before → (result ≡ Err StoreFault) × (wrapped new ≡ wrapped old) }
    // The same for a failure after the call: then the wrapped store has done it.
    ensures after { (old new : FailingStore S) (result answer : Result V StoreRefusal) (done : S) → FailsOneOf old new result answer done →
        calls_left old ≡ Some 0 → failure_time old ≡ After → (result ≡ Err StoreFault) × (wrapped new ≡ done) }
    ensures other { (old new : FailingStore S) (result answer : Result V StoreRefusal) (done : S) → FailsOneOf old new result answer done →
        calls_left old ≢ Some 0 → (result ≡ answer) × (wrapped new ≡ done) }
    ensures counted { (old new : FailingStore S) (result answer : Result V StoreRefusal) (done : S) → FailsOneOf old new result answer done →
        (left : ℕ) → calls_left old ≡ Some (left + 1) → calls_left new ≡ Some left }
    ensures once { (old new : FailingStore S) (result answer : Result V StoreRefusal) (done : S) → FailsOneOf old new result answer done →
        (calls_left old ≡ Some 0) ⊎ (calls_left old ≡ None) → calls_left new ≡ None }
{}
