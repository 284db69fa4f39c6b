//! Records of plans that are finished, in order, which are found by name.
ghost use Rattle.std.specs.Prelude.{◌≡◌, ◌++◌, ◌∷◌, [], OnOk, length, option_copied};
ghost use Rattle.folder_core.specs.Announced.{last_of};

use std::alloc::{AllocError, Global};
use std::collections::BTreeMap;
use std::marker::Model;
use sync_names::SafeName;
use sync_record::Record;

/// Records in order, and where the last one of each name is. Contracts see the records.
#[derive(Drop)]
pub(crate) struct Finished {
    records: Vec<Record>,
    places: BTreeMap<SafeName, usize>,
}

impl Model for Finished {
    ghost use Rattle.std.specs.Prelude.{List};
    ghost use Rattle.sync_record.specs.Records.{FileRecord};

    ghost Value = { List FileRecord };

    ghost use Rattle.node_replay.specs.Places.{ArePlaces, place_at};

    ghost view = { λ f. f.records.items };

    ghost invariant = { λ f. ArePlaces f.records.items (place_at f.places) };
}

impl Finished {
    /// No record. Does not allocate.
    pub(crate) fn new(alloc: Global) -> Finished
        ensures { result ≡ [] }
    {
        Finished {
            records: Vec::new(alloc),
            places: BTreeMap::new(alloc),
        }
    }

    /// How many there are. O(1).
    pub(crate) fn len(&self) -> usize
        ensures { result ≡ length self.now }
    {
        self.records.len()
    }

    /// The last one of the name. O(log n) for n records.
    pub(crate) fn last_of(&self, name: &SafeName) -> Option<&Record>
        ensures { option_copied result ≡ last_of name.now self.now }
    {
        let place = *self.places.get(name)?;
        self.records.get(place)
    }

    /// Appends a record. Returns `Err` only if out of memory. O(log n) for n records, and a copy of the name.
    pub(crate) fn push(&mut self, record: Record) -> Result<(), AllocError>
        ensures { OnOk result (self.new ≡ self.old ++ «record» ∷ []) }
    {
        let name = record.name().copy()?;
        let place = self.records.len();
        self.records.reserve(1)?;
        self.places.insert(name, place)?;
        self.records.push_reserved(record);
        Ok(())
    }

    /// The records. O(n).
    pub(crate) fn into_records(self) -> Vec<Record>
        ensures { result.items ≡ self }
    {
        let Finished { records, .. } = self;
        records
    }
}
