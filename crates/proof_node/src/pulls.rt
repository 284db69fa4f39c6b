//! What a pull of a name does first, and what it answers where it is not begun.
ghost use Rattle.std.specs.Prelude.{◌≡◌, ◌⊎◌, ℕ, ℤ};
ghost use Rattle.file_store.specs.Asked.{Call};
ghost use Rattle.file_store.specs.Names.{Name};
ghost use Rattle.file_store.specs.Trees.{Tree};
ghost use Rattle.folder_calls.specs.Shared.{CallerView, Gets};
ghost use Rattle.folder_core.specs.declared.answer.Answer.{Answer};
ghost use Rattle.folder_core.specs.declared.answer.Answer.TheVariants as answer;
ghost use Rattle.folder_core.specs.declared.change.Change.TheVariants.{BeginPull};
ghost use Rattle.sync_pull.specs.Pulled.{Comes};
ghost use Rattle.sync_pull.specs.declared.answer.PullAnswer.{PullAnswer as Result};
ghost use Rattle.sync_pull.specs.declared.answer.PullAnswer.TheVariants.{Busy, NotNeeded, Refused, Unsupported};
ghost use Rattle.sync_pull.specs.declared.answer.PullRefusal.TheVariants.{HistoryFull, OutOfMemory};
ghost use Rattle.sync_record.specs.Records.{FileRecord};
ghost use Rattle.proof_node.specs.Begins.{HadBegun, TellsOfBegun};

/// What is handed in where it is said what a pull comes to: that the store keeps what is written, that a fault was counted, that a target has
/// no source, that the temporary file was dropped, and that the store refused a call. The laws hold whatever these say.
pub trait PullParts {
    ghost keeps: { Type 0 };

    ghost counted: { Type 0 };

    ghost sourceless: { FileRecord → CallerView → Type 0 };

    ghost dropped: { Type 0 };

    ghost refused: { Tree → Call → Type 0 };
}

/// What a worker first asks of the folder for the pull of a name is that this pull begins; it asks for nothing else for it, unless it got a
/// ticket. Only out of memory can it have asked for nothing.
///
/// False of a definition by which a pull may begin with anything else, or ask for more where it isn't begun.
pub fn a_pull_first_asks_to_begin<P: PullParts>()
    // One of three: out of memory before any call, nothing asked but the begin, or the begin got a ticket.
    ensures { (most : ℤ) (moment : ℕ) (n : Name) (result : Result) (old new : CallerView) (before after : Tree) →
        Comes most moment n P.keeps P.counted P.sourceless P.dropped P.refused result old before new after →
        ((result ≡ Refused OutOfMemory) × (new ≡ old))
        ⊎ (((a : Answer) × Gets old (BeginPull n) a new) ⊎ HadBegun n old result new) }
{}

/// A pull that is done or failed, that was superseded or overtaken by a local change, for which no sequence was left, or that was stray, was
/// begun: the begin of a pull of that name got a ticket.
///
/// False of a definition by which a pull that was never begun may say that it failed or is done.
pub fn a_pull_that_ends_had_begun<P: PullParts>()
    // An answer that tells of a begun pull comes from one. `Comes`, all that a pull may do, is one premise.
    ensures { (most : ℤ) (moment : ℕ) (n : Name) (result : Result) (old new : CallerView) (before after : Tree) →
        Comes most moment n P.keeps P.counted P.sourceless P.dropped P.refused result old before new after →
        TellsOfBegun result → HadBegun n old result new }
{}

/// A pull that is refused answers what its begin was refused by, and then nothing else was asked and, if the store keeps what is written,
/// nothing was done. Where the history is full or memory is out, it may also have been begun.
///
/// False of a definition by which a refused pull may answer what it likes, or change the store.
pub fn a_refused_pull_answers_its_begin<P: PullParts>()
    // `NotNeeded` is what the begin got, and nothing was done. Its premise is `Comes`, with this one answer.
    ensures not_needed { (most : ℤ) (moment : ℕ) (n : Name) (old new : CallerView) (before after : Tree) →
        Comes most moment n P.keeps P.counted P.sourceless P.dropped P.refused NotNeeded old before new after →
        Gets old (BeginPull n) answer.NotNeeded new × (P.keeps → after ≡ before) }
    // The same for `Busy`, which is another premise and another answer of the begin.
    ensures busy { (most : ℤ) (moment : ℕ) (n : Name) (old new : CallerView) (before after : Tree) →
        Comes most moment n P.keeps P.counted P.sourceless P.dropped P.refused Busy old before new after →
        Gets old (BeginPull n) answer.Busy new × (P.keeps → after ≡ before) }
    // The same for `Unsupported`.
    ensures unsupported { (most : ℤ) (moment : ℕ) (n : Name) (old new : CallerView) (before after : Tree) →
        Comes most moment n P.keeps P.counted P.sourceless P.dropped P.refused Unsupported old before new after →
        Gets old (BeginPull n) answer.Unsupported new × (P.keeps → after ≡ before) }
    // `HistoryFull` has two cases, so both are said: the begin got it and nothing was done, or the pull was begun.
    ensures history_full { (most : ℤ) (moment : ℕ) (n : Name) (old new : CallerView) (before after : Tree) →
        Comes most moment n P.keeps P.counted P.sourceless P.dropped P.refused (Refused HistoryFull) old before new after →
        (Gets old (BeginPull n) answer.HistoryFull new × (P.keeps → after ≡ before))
        ⊎ HadBegun n old (Refused HistoryFull) new }
    // Out of memory has two cases as well: no call was answered and nothing was done, or the pull was begun.
    ensures out_of_memory { (most : ℤ) (moment : ℕ) (n : Name) (old new : CallerView) (before after : Tree) →
        Comes most moment n P.keeps P.counted P.sourceless P.dropped P.refused (Refused OutOfMemory) old before new after →
        ((new ≡ old) × (P.keeps → after ≡ before)) ⊎ HadBegun n old (Refused OutOfMemory) new }
{}
