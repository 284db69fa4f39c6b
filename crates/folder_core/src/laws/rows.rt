//! Worked rows.
ghost use Rattle.std.specs.Prelude.{[], ◌∷◌, ◌≡◌, pos, Some, None, false, replicate};
ghost use Rattle.std.specs.FinMap.{entries};
ghost use Rattle.folder_core.specs.Announced.{is_candidate, best};
ghost use Rattle.folder_core.specs.States.{need};
ghost use Rattle.folder_core.specs.Reads.{best_with_devices, local_since, places, counts, known, need_page};
ghost use Rattle.folder_core.specs.Samples.{Leads, me, p1, p2, p3, x, y, file, recorded, two_files, places_of_abd, counts_of_two, deletion, content, modified, abc, by, folder};
ghost use Rattle.folder_core.specs.Samples.{ring, deleted_and_live, deleted_alone, modified_by_5_and_7, cut_short, one_version, one_content, invalid_above};
ghost use Rattle.folder_core.specs.Samples.{nanoseconds_apart, counters_apart, shared_by_two, of_each_kind, counts_of_each_kind};
ghost use Rattle.folder_core.specs.Samples.{deleted_there, deletion_ticket, deletion_pulled};
ghost use Rattle.folder_core.specs.Samples.{target, full_target, offered, appeared, local_moves, commit_is_closed, target_is_withdrawn};
ghost use Rattle.folder_core.specs.Samples.{commit_merges, stray_tickets, other_tickets, no_sequence_to_enter, link_offered, scans, counter_is_full, sequences_end};
ghost use Rattle.folder_core.specs.Samples.{commit_keeps_sequence};
ghost use Rattle.folder_core.specs.declared.change.Change.TheVariants.{IndexFull, IndexMore, BeginPull};
ghost use Rattle.folder_core.specs.declared.answer.Answer.TheVariants.{Applied, NotNeeded, Unsupported, Begun};
ghost use Rattle.folder_core.specs.Steps.{step};

/// The best in worked rows: of a ring of three, after its best is withdrawn, of a deletion and a live file, of a
/// deletion alone, by the smaller modified_by, by the later part of a second, by the greater counters, of a block list
/// that ends too early, of two contents of one version, of one content of two versions, below an invalid record, and of
/// what this device has too.
pub fn best_in_rows()
    ensures ring { best ring x ≡ Some (by p3 (file ((3, 1) ∷ []) 2)) }
    ensures withdrawn { best (entries (step (folder ring 0 []) (IndexFull p3 [])).1.announced) x
        ≡ Some (by p1 (file ((1, 2) ∷ []) 1)) }
    ensures live { best deleted_and_live x ≡ Some (by p2 (file ((2, 1) ∷ []) 1)) }
    ensures deletion { best deleted_alone x ≡ Some (by p1 (deletion ((1, 1) ∷ []) 1)) }
    ensures modified_by { best modified_by_5_and_7 x
        ≡ Some (by p1 (modified 5 (file ((1, 1) ∷ []) 1))) }
    ensures cut { is_candidate (cut_short ∷ []) cut_short ≡ false }
    ensures cut_alone { best (cut_short ∷ []) x ≡ None }
    ensures contents { best_with_devices (folder one_version 0 []) x
        ≡ Some (content 3 abc (file ((1, 1) ∷ []) 1), p1 ∷ []) }
    ensures versions { best_with_devices (folder one_content 0 []) x
        ≡ Some (content 3 abc (file ((2, 1) ∷ []) 2), p2 ∷ []) }
    ensures invalid { best invalid_above x ≡ Some (by p2 (file ((1, 1) ∷ []) 1)) }
    ensures nanoseconds { best nanoseconds_apart x
        ≡ Some (by p2 (record (file ((2, 1) ∷ []) 1) { modified_ns = pos 4 })) }
    ensures counters { best counters_apart x ≡ Some (by p2 (file ((1, 2) ∷ []) 1)) }
    ensures shared { best_with_devices (folder shared_by_two 1 []) x
        ≡ Some (content 3 abc (file ((1, 1) ∷ []) 2), me ∷ p1 ∷ []) }
{}

/// Changes in worked rows, each with its answer and its state.
pub fn changes_in_rows()
    ensures last_of_a_name { step (folder [] 0 [])
        (IndexMore p1 (file ((1, 1) ∷ []) 1 ∷ file ((1, 2) ∷ []) 1 ∷ []))
        ≡ (Applied, folder (by p1 (file ((1, 2) ∷ []) 1) ∷ []) 0 []) }
    ensures deletion_need { need (folder deleted_alone 0 []) ≡ [] }
    ensures deletion_pull { step (folder deleted_alone 0 []) (BeginPull x)
        ≡ (NotNeeded, folder deleted_alone 0 []) }
    ensures seen_deletion_need { need deleted_there ≡ x ∷ [] }
    ensures seen_deletion_pull { step deleted_there (BeginPull x)
        ≡ (Begun deletion_ticket, deletion_pulled) }
    ensures link_pull { step link_offered (BeginPull x) ≡ (Unsupported, link_offered) }
    ensures scanned { Leads (folder [] 0 []) scans }
    ensures moved { Leads offered local_moves }
    ensures closed { Leads offered commit_is_closed }
    ensures superseded { Leads offered target_is_withdrawn }
    ensures merged { Leads (folder appeared 1 []) commit_merges }
    ensures stray { Leads offered stray_tickets }
    ensures other { Leads offered other_tickets }
    ensures counter { Leads (folder (by p1 full_target ∷ []) 0 []) counter_is_full }
    ensures last { Leads (folder [] 9223372036854775806 []) sequences_end }
    ensures last_but_one { Leads (folder
        (by p1 target ∷ []) 9223372036854775806 []) commit_keeps_sequence }
    ensures no_sequence { Leads (folder
        (by p1 target ∷ []) 9223372036854775807 []) no_sequence_to_enter }
{}

/// Reads in worked rows.
pub fn reads_in_rows()
    ensures first_page { local_since two_files 0 1 ≡ recorded x 1 ∷ [] }
    ensures second_page { local_since two_files 1 10 ≡ recorded y 2 ∷ [] }
    ensures places { places two_files (replicate 32 8) ≡ places_of_abd }
    ensures no_place { places two_files (replicate 32 7) ≡ [] }
    ensures counted { counts two_files ≡ counts_of_two }
    ensures counted_by_kind { counts of_each_kind ≡ counts_of_each_kind }
    ensures known { known offered p1 ∷ known offered p2 ∷ known two_files me ∷ [] ≡ 1 ∷ 0 ∷ 2 ∷ [] }
    ensures need { need_page offered None 5 ∷ need_page offered None 0 ∷ need_page offered
        (Some x) 5 ∷ []
        ≡ (x ∷ []) ∷ [] ∷ [] ∷ [] }
{}
