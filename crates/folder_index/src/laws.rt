//! Laws of what an index has, each the contract of a function with an empty body.
ghost use Rattle.std.specs.Prelude.{◌≡◌, ◌≢◌, ◌+◌, ◌≤◌, length};
ghost use Rattle.std.specs.FinMap.{entries};
ghost use Rattle.sync_record.specs.Devices.{Identity};
ghost use Rattle.sync_record.specs.Records.{Name, FileRecord};
ghost use Rattle.folder_core.specs.Announced.{best, without};
ghost use Rattle.folder_index.specs.Devices.{names_by, without_device};
ghost use Rattle.folder_index.specs.Indexes.{IndexState, needs, with_record, without_record};

/// A record that is put or taken away leaves the best of every other name, and whether it is needed. So a best that changes was
/// chosen anew, and counted.
pub fn changes_are_of_one_name()
    ensures set { (s : IndexState) (d : Identity) (r : FileRecord) (n : Name) → n ≢ r.name →
        best (entries (with_record d r s).announced) n ≡ best (entries s.announced) n }
    ensures set_needs { (s : IndexState) (d : Identity) (r : FileRecord) (n : Name) → n ≢ r.name →
        needs (with_record d r s) n ≡ needs s n }
    ensures clear { (s : IndexState) (d : Identity) (m n : Name) → n ≢ m →
        best (entries (without_record d m s).announced) n ≡ best (entries s.announced) n }
    ensures clear_needs { (s : IndexState) (d : Identity) (m n : Name) → n ≢ m →
        needs (without_record d m s) n ≡ needs s n }
{}

/// Once a device is forgotten, what is announced is what the others announce.
pub fn forgotten_devices_announce_nothing()
    ensures announced { (s : IndexState) (d : Identity) →
        (without_device d s).announced ≡ without d s.announced }
    ensures me { (s : IndexState) (d : Identity) → (without_device d s).me ≡ s.me }
    ensures promised { (s : IndexState) (d : Identity) → (without_device d s).promised ≡ s.promised }
    ensures choices { (s : IndexState) (d : Identity) →
        (without_device d s).choices ≤ s.choices + length (names_by d (entries s.announced)) }
{}
