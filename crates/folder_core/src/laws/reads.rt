//! What reads answer.
ghost use Rattle.std.specs.Prelude.{◌≡◌, ◌≢◌, ◌↔◌, ◌⊎◌, ◌<◌, ◌≤◌, ℕ, length, Option, List, Some, None, IsTrue, false, [], map, flat_map, sum_by, Contains};
ghost use Rattle.std.specs.List.Sorted.{IsStrictlySortedBy};
ghost use Rattle.std.specs.Ordering.{nat_cmp};
ghost use Rattle.folder_core.specs.declared.counts.Counts.{Counts};
ghost use Rattle.folder_core.specs.declared.place.Place.{Place};
ghost use Rattle.std.specs.FinMap.{get, entries, len};
ghost use Rattle.sync_blocks.specs.declared.block.Block.{Block};
ghost use Rattle.sync_record.specs.Devices.{Identity, bytes_cmp};
ghost use Rattle.sync_record.specs.Records.{Name, FileRecord, is_live_file};
ghost use Rattle.sync_record.specs.Contents.{same_content};
ghost use Rattle.sync_record.specs.Validity.{is_valid};
ghost use Rattle.folder_core.specs.Announced.{key, bests, IsBest};
ghost use Rattle.folder_core.specs.States.{FolderState, IsFolder, local, need};
ghost use Rattle.folder_core.specs.Reads.{BestEntry, with_devices, ArePages, IsCounted, Query, Reply, Reads, IsAfter, IsFullBefore, StopsBefore, Local, Best, Bests, Need, LocalSince, FindBlock, Known, CountAll, max_page_blocks};

/// Every query has a reply, and only one, except that a block may be found in several places.
pub fn queries_have_replies()
    ensures some { (s : FolderState) (q : Query) → (r : Reply q) × Reads s q r }
    ensures one { (s : FolderState) (q : Query) (r t : Reply q) → Reads s q r → Reads s q t →
        (r ≡ t) ⊎ ((hash : List ℕ) × (q ≡ FindBlock hash)) }
{}

/// Reads of single records and of numbers: the local record of a name, which has that name, is valid and has a sequence
/// from 1 to the last; the best of a name with the devices that have it, which rise, and none only where no valid record
/// is announced; of this device the last sequence, and of another device the greatest of its records' sequences, 0
/// without any; and the counts, which are the numbers of what they count. Where all that is said of a reply holds, it is the
/// reply.
pub fn reads_follow_the_state()
    ensures local { (s : FolderState) (n : Name) (r : Option FileRecord) →
        Reads s (Local n) r ↔ (r ≡ get s.announced (key n s.me)) }
    // Exactly when a record and devices are the reply: it is the best, and they are those that have it, in order.
    ensures best { (s : FolderState) (n : Name) (r : FileRecord) (devices : List Identity) →
        Reads s (Best n) (Some (r, devices)) ↔
        ((d : Identity) × IsBest s.announced n d r × IsStrictlySortedBy bytes_cmp devices
        × ((e : Identity) → Contains devices e
        ↔ ((q : FileRecord) × (get s.announced (key n e) ≡ Some q)
        × IsTrue (is_valid q) × (q.version ≡ r.version) × IsTrue (same_content q r)))) }
    ensures no_best { (s : FolderState) (n : Name) → Reads s (Best n) None ↔
        ((d : Identity) (r : FileRecord) → get s.announced (key n d) ≡ Some r →
        is_valid r ≡ false) }
    ensures known { (s : FolderState) (k : ℕ) → Reads s (Known s.me) k ↔ (k ≡ s.last) }
    ensures sound { (s : FolderState) (n : Name) (r : FileRecord) (k : ℕ) → IsFolder s →
        Reads s (Local n) (Some r) → Reads s (Known s.me) k →
        (r.name ≡ n) × IsTrue (is_valid r) × (1 ≤ r.sequence) × (r.sequence ≤ k) }
    // Exactly when a number is the reply: no record of the device has a greater sequence, and one has it, or it is 0.
    ensures known_of_others { (s : FolderState) (d : Identity) (k : ℕ) → d ≢ s.me →
        Reads s (Known d) k ↔ (((n : Name) (r : FileRecord) → get s.announced (key n d) ≡ Some r →
        r.sequence ≤ k)
        × ((k ≡ 0) ⊎ ((n : Name) × (r : FileRecord) × (get s.announced (key n d) ≡ Some r)
        × (r.sequence ≡ k)))) }
    ensures counts { (s : FolderState) (c : Counts) → Reads s CountAll c →
        (c.needed ≡ length (need s)) × (c.pulls ≡ len s.pulls) × (c.last ≡ s.last) }
    ensures counted { (s : FolderState) (c : Counts) → Reads s CountAll c ↔ IsCounted s c }
{}

/// A page of needed names rises and has no more than asked for; all of it is needed and after the given name, and what is
/// needed and after that name is in the page, or after a full page. A list of which all this holds is the page.
pub fn needed_names_come_in_pages()
    ensures rise { (s : FolderState) (after : Option Name) (limit : ℕ) (names : List Name) →
        Reads s (Need after limit) names → IsStrictlySortedBy bytes_cmp names
        × (length names ≤ limit) }
    ensures only { (s : FolderState) (after : Option Name) (limit : ℕ) (names : List Name)
        (n : Name) →
        Reads s (Need after limit) names → Contains names n →
        Contains (need s) n × IsAfter after n }
    // No needed name is left out: it is in the page, or the page is full and ends before it. One choice for each name.
    ensures all { (s : FolderState) (after : Option Name) (limit : ℕ) (names : List Name)
        (n : Name) →
        Reads s (Need after limit) names → Contains (need s) n → IsAfter after n →
        Contains names n ⊎ IsFullBefore (λ m. m) names limit n }
    // The other way round: a list of which `rise`, `only` and `all` hold is the page. All three are its premises.
    ensures whole { (s : FolderState) (after : Option Name) (limit : ℕ) (names : List Name) →
        IsStrictlySortedBy bytes_cmp names → length names ≤ limit →
        ((n : Name) → Contains names n → Contains (need s) n × IsAfter after n) →
        ((n : Name) → Contains (need s) n → IsAfter after n →
        Contains names n ⊎ IsFullBefore (λ m. m) names limit n) →
        Reads s (Need after limit) names }
{}

/// A page of bests rises and has no more than asked for; each of it is the best of its name, with the devices that have
/// it, and after the given name. The best of a name after that one is in the page, or after a full page; so an empty page
/// comes only where no name after the given one has a best. A list of which all this holds is the page. Of at least one best
/// a page, there are pages one after the other, each read after the last name of the one before, up to one that isn't full;
/// and together such pages have the best of each name once, in byte order, with its devices.
pub fn bests_come_in_pages()
    ensures rise { (s : FolderState) (after : Option Name) (limit : ℕ) (page : List BestEntry) →
        IsFolder s →
        Reads s (Bests after limit) page →
        IsStrictlySortedBy bytes_cmp (map (λ b. b.0.name) page) × (length page ≤ limit) }
    // An entry of a page is the best of its name, with its devices, and that name comes after the given one.
    // In one, as both are of the same entry of the same page.
    ensures only { (s : FolderState) (after : Option Name) (limit : ℕ) (page : List BestEntry)
        (b : BestEntry) → IsFolder s →
        Reads s (Bests after limit) page → Contains page b →
        Reads s (Best b.0.name) (Some b) × IsAfter after b.0.name }
    // No best is left out: it is in the page, or the page is full and ends before its name. One choice for each best.
    ensures all { (s : FolderState) (after : Option Name) (limit : ℕ) (page : List BestEntry)
        (n : Name)
        (b : BestEntry) → IsFolder s →
        Reads s (Bests after limit) page → Reads s (Best n) (Some b) → IsAfter after n →
        Contains page b ⊎ IsFullBefore (λ c. c.0.name) page limit n }
    ensures end { (s : FolderState) (after : Option Name) (limit : ℕ) (n : Name) → 1 ≤ limit →
        Reads s (Bests after limit) [] → IsAfter after n → Reads s (Best n) None }
    // As with the needed names: a list of which `rise`, `only` and `all` hold is the page, and all three are premises.
    ensures whole { (s : FolderState) (after : Option Name) (limit : ℕ) (page : List BestEntry) →
        IsFolder s →
        IsStrictlySortedBy bytes_cmp (map (λ b. b.0.name) page) → length page ≤ limit →
        ((b : BestEntry) → Contains page b →
        Reads s (Best b.0.name) (Some b) × IsAfter after b.0.name) →
        ((n : Name) (b : BestEntry) → Reads s (Best n) (Some b) → IsAfter after n →
        Contains page b ⊎ IsFullBefore (λ c. c.0.name) page limit n) →
        Reads s (Bests after limit) page }
    ensures pages { (s : FolderState) (limit : ℕ) → IsFolder s → 1 ≤ limit →
        (pages : List (List BestEntry)) × ArePages s limit None pages }
    ensures together { (s : FolderState) (limit : ℕ) (pages : List (List BestEntry)) → IsFolder s →
        ArePages s limit None pages →
        flat_map (λ page. page) pages ≡ map (with_devices (entries s.announced))
        (bests (entries s.announced)) }
{}

/// A page of local records rises by sequence, has no more records than asked for, and no more than the most blocks or
/// one record; all of it is local and above the given sequence. A local record above that sequence is in the page, or
/// the page stops before it, at a record with which it would have too many records or blocks. A list of which all this holds
/// is the page.
pub fn local_records_come_in_pages()
    // How much a page may have: rising sequences, at most `limit` records, and at most the most blocks or one record.
    ensures rise { (s : FolderState) (after limit : ℕ) (page : List FileRecord) → IsFolder s →
        Reads s (LocalSince after limit) page →
        IsStrictlySortedBy nat_cmp (map (λ r. r.sequence) page) × (length page ≤ limit)
        × ((sum_by (λ r. length r.blocks) page ≤ max_page_blocks) ⊎ (length page ≤ 1)) }
    ensures only { (s : FolderState) (after limit : ℕ) (page : List FileRecord) (r : FileRecord) →
        IsFolder s →
        Reads s (LocalSince after limit) page → Contains page r →
        (n : Name) × (local s n ≡ Some r) × (after < r.sequence) }
    // No local record is left out: it is in the page, or there was no room for it or for one before it.
    ensures all { (s : FolderState) (after limit : ℕ) (page : List FileRecord) (n : Name)
        (r : FileRecord) → IsFolder s →
        Reads s (LocalSince after limit) page → local s n ≡ Some r → after < r.sequence →
        Contains page r ⊎ StopsBefore s limit page r }
    // The other way round again: `rise`, `only` and `all` are the premises, and a list of which they hold is the page.
    ensures whole { (s : FolderState) (after limit : ℕ) (page : List FileRecord) → IsFolder s →
        IsStrictlySortedBy nat_cmp (map (λ r. r.sequence) page) → length page ≤ limit →
        (sum_by (λ r. length r.blocks) page ≤ max_page_blocks) ⊎ (length page ≤ 1) →
        ((r : FileRecord) → Contains page r → (n : Name) × (local s n ≡ Some r)
        × (after < r.sequence)) →
        ((n : Name) (r : FileRecord) → local s n ≡ Some r → after < r.sequence →
        Contains page r ⊎ StopsBefore s limit page r) →
        Reads s (LocalSince after limit) page }
{}

/// A place that is found is one of a block with the digest in a live local file, and none is found only where no live local
/// file has such a block.
pub fn blocks_are_found_where_they_are()
    // Exactly when a place is a reply: one live local file `r` has a block `b` with the digest, and that is the place.
    ensures place { (s : FolderState) (hash : List ℕ) (p : Place) →
        Reads s (FindBlock hash) (Some p) ↔
        ((n : Name) × (r : FileRecord) × (b : Block) × (local s n ≡ Some r)
        × IsTrue (is_live_file r)
        × Contains r.blocks b × (b.hash ≡ hash)
        × (p ≡ record { name = r.name; offset = b.offset; size = b.size })) }
    ensures no_place { (s : FolderState) (hash : List ℕ) → Reads s (FindBlock hash) None ↔
        ((n : Name) (r : FileRecord) (b : Block) → local s n ≡ Some r → IsTrue (is_live_file r) →
        Contains r.blocks b → b.hash ≢ hash) }
{}
