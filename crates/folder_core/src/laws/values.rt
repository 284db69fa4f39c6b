//! When two values are the same.
ghost use Rattle.std.specs.Prelude.{◌≡◌, ◌↔◌, IsTrue};
ghost use Rattle.folder_core.specs.declared.announcement.Announcement.{Announcement};
ghost use Rattle.folder_core.specs.declared.answer.Answer.{Answer};
ghost use Rattle.folder_core.specs.declared.best.Best.{Best};
ghost use Rattle.folder_core.specs.declared.change.Change.{Change};
ghost use Rattle.folder_core.specs.declared.counts.Counts.{Counts};
ghost use Rattle.folder_core.specs.declared.finding.Finding.{Finding};
ghost use Rattle.folder_core.specs.declared.place.Place.{Place};
ghost use Rattle.folder_core.specs.declared.pull_info.PullInfo.{PullInfo};

/// The comparison `==` of two changes or answers, of what is said of two pulls, of two findings, places or bests, and of two announcements or
/// counts, is true exactly where the two are equal.
pub fn comparison_is_equality()
    ensures changes { (a b : Change) → IsTrue (⟦<crate::Change as PartialEq>⟧.eq a b) ↔ (a ≡ b) }
    ensures answers { (a b : Answer) → IsTrue (⟦<crate::Answer as PartialEq>⟧.eq a b) ↔ (a ≡ b) }
    ensures infos { (a b : PullInfo) → IsTrue (⟦<crate::PullInfo as PartialEq>⟧.eq a b) ↔ (a ≡ b) }
    ensures findings { (a b : Finding) → IsTrue (⟦<crate::Finding as PartialEq>⟧.eq a b) ↔ (a ≡ b) }
    ensures places { (a b : Place) → IsTrue (⟦<crate::Place as PartialEq>⟧.eq a b) ↔ (a ≡ b) }
    ensures bests { (a b : Best) → IsTrue (⟦<crate::Best as PartialEq>⟧.eq a b) ↔ (a ≡ b) }
    ensures announcements { (a b : Announcement) →
        IsTrue (⟦<crate::Announcement as PartialEq>⟧.eq a b) ↔ (a ≡ b) }
    ensures counts { (a b : Counts) → IsTrue (⟦<crate::Counts as PartialEq>⟧.eq a b) ↔ (a ≡ b) }
{}
