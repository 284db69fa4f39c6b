//! What it says that no pass is left.
ghost use Rattle.std.specs.Prelude.{◌≡◌, ◌≤◌, ◌^◌, ℕ, List};
ghost use mathlib.Core.Option.{some};
ghost use lib.ListN.{get_elem?};
ghost use Rattle.crossbeam_channel.specs.Claims.{IsSeatAt, view};
ghost use Rattle.crossbeam_channel.specs.Ends.{sends_on};
ghost use Rattle.folder_calls.specs.declared.history.History.{History};
ghost use Rattle.folder_shared.specs.Passes.{IsFullOf, limit_of, opening_of};
ghost use Rattle.folder_shared.specs.Rule.{RuleHolds, Runs};
ghost use Rattle.folder_shared.specs.declared.known.Known.{Known};
ghost use Rattle.folder_shared.specs.declared.known.TokenState.TheVariants.{Idle};
ghost use Rattle.folder_shared.specs.declared.shared.LockedFolder.{LockedFolder as Folder};
ghost use Rattle.folder_shared.specs.declared.shared.PassesFull.{PassesFull as Full};

use folder_core::FolderCore;

/// That no pass is left says four things of the token that says it, and nothing else: it has its seat at the lock of this very folder, is
/// idle, put back what has the folder's opening and its limit, and knew of 2^32 passes there, of no fewer and of no more.
///
/// False of a definition that leaves one of these out, or that is met where a pass is left.
pub fn a_full_folder_has_all_passes<C: FolderCore + Drop>()
    ensures seat { (s : Folder C) (e : Full C) → IsFullOf s e → IsSeatAt (sends_on s.sender) e.token }
    ensures idle { (s : Folder C) (e : Full C) → IsFullOf s e → (view e.token).state ≡ Idle }
    ensures opening { (s : Folder C) (e : Full C) → IsFullOf s e → (view e.token).memo.opening ≡ opening_of s }
    ensures limit { (s : Folder C) (e : Full C) → IsFullOf s e → (view e.token).memo.limit ≡ limit_of s }
    ensures passes { (s : Folder C) (e : Full C) → IsFullOf s e → (view e.token).memo.passes ≡ 2 ^ 32 }
    // The other direction of the five clauses before it: where all five hold, no pass is left. Each is one premise.
    ensures no_more { (s : Folder C) (e : Full C) → IsSeatAt (sends_on s.sender) e.token → (view e.token).state ≡ Idle →
        (view e.token).memo.opening ≡ opening_of s → (view e.token).memo.limit ≡ limit_of s →
        (view e.token).memo.passes ≡ 2 ^ 32 → IsFullOf s e }
{}

/// By the rule of the lock there is then no folder under it, nor in the hands of a call, of which fewer passes were given out, or that was
/// opened otherwise.
///
/// False of a definition that a call can meet which finds that passes are left.
pub fn no_pass_is_left_of_a_full_folder<C: FolderCore + Drop>()
    // The folder is under the lock, as `runs`, with all its passes given out: the three parts are of this one `runs`.
    ensures { (s : Folder C) (e : Full C) (items : List History) (views : List Known) (port : ℕ) →
        IsFullOf s e → RuleHolds items views → get_elem? views port ≡ some (view e.token) →
        (runs : Runs items views) × (2 ^ 32 ≤ runs.now.passes)
        × (runs.now.opening ≡ opening_of s) × (runs.now.limit ≡ limit_of s) }
{}
