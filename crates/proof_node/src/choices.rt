//! How far the number of chosen bests rises.
ghost use Rattle.std.specs.Prelude.{ℕ, List};
ghost use Rattle.sync_record.specs.Devices.{Identity};
ghost use Rattle.sync_record.specs.Records.{FileRecord, Name};
ghost use Rattle.folder_core.specs.States.{FolderState};
ghost use Rattle.folder_core.specs.Steps.{step};
ghost use Rattle.folder_core.specs.declared.change.Change.{Change};
ghost use Rattle.folder_index.specs.Devices.{without_device};
ghost use Rattle.folder_index.specs.Indexes.{IndexState, with_record, with_records, without_record};
ghost use Rattle.proof_node.specs.NewBests.{CountsNewBests, choices_of};

/// Each change of an index counts at least the names whose best it changes: of a record that is put or taken away, of records that are put
/// together, and of a device that is forgotten.
///
/// False of a definition that lets a record change without a count, or counts several records of an index as one.
pub fn new_bests_of_an_index_are_counted()
    ensures set { (s : IndexState) (d : Identity) (r : FileRecord) →
        CountsNewBests s.announced s.choices (with_record d r s).announced (with_record d r s).choices }
    ensures set_all { (s : IndexState) (d : Identity) (records : List FileRecord) →
        CountsNewBests s.announced s.choices (with_records d records s).announced (with_records d records s).choices }
    ensures clear { (s : IndexState) (d : Identity) (n : Name) →
        CountsNewBests s.announced s.choices (without_record d n s).announced (without_record d n s).choices }
    ensures forget { (s : IndexState) (d : Identity) →
        CountsNewBests s.announced s.choices (without_device d s).announced (without_device d s).choices }
{}

/// So does each step of a folder, where bests are counted as the calls of a folder in an index promise it.
///
/// False of a promise that counts the records of a message without those of the device that it replaces, or an end of a pull not at all.
pub fn new_bests_of_a_folder_are_counted()
    ensures { (s : FolderState) (c : Change) (choices : ℕ) →
        CountsNewBests s.announced choices (step s c).1.announced (choices_of s c (step s c).0 choices) }
{}
