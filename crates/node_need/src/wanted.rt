//! A name that is to be pulled, and one that could not be.
ghost use Rattle.std.specs.Prelude.{◌≡◌, IfOk, false, true};

use std::alloc::AllocError;
use sync_names::SafeName;
use sync_pull::PullAnswer;
use sync_record::Record;

/// What is known of a name when it is to be pulled.
#[derive(Drop)]
pub struct Wanted {
    pub name: SafeName,
    /// Its best.
    pub best: Record,
    /// What this device has recorded of it.
    pub local: Option<Record>,
    /// Whether one of the peers that are up has announced it.
    pub is_reached: bool,
    /// What was told last of a pull that failed, since something happened at the name.
    pub told: Option<PullAnswer>,
}

/// That a name could not be pulled.
#[derive(Clone, Copy)]
pub struct Miss {
    /// The place of the name among those that are pulled.
    pub place: usize,
    /// What was told of it.
    pub told: Option<PullAnswer>,
    /// Whether the disk had no room for it.
    pub lacks_room: bool,
}

impl Wanted {
    /// The same, of which the records share their memory. Fails only if out of memory. O(n) for a name of n bytes.
    pub fn copy(&self) -> Result<Wanted, AllocError>
        ensures { IfOk result (λ wanted. wanted ≡ self.now) }
    {
        Ok(Wanted {
            name: self.name.copy()?,
            best: self.best.copy()?,
            local: copy_of(&self.local)?,
            is_reached: self.is_reached,
            told: self.told,
        })
    }

    /// The same, of which this was told. Fails only if out of memory. O(n) for a name of n bytes.
    pub fn told(&self, told: Option<PullAnswer>) -> Result<Wanted, AllocError>
        ensures { IfOk result (λ wanted. wanted ≡ record self.now { told = told }) }
    {
        let mut wanted = self.copy()?;
        wanted.told = told;
        Ok(wanted)
    }

    /// It could not be pulled, and this is told of it.
    pub fn miss(&self, place: usize, answer: PullAnswer) -> Miss
        ensures { result ≡ record { place = place; told = Some answer; lacks_room = false } }
    {
        Miss {
            place,
            told: Some(answer),
            lacks_room: false,
        }
    }

    /// It could not be pulled, since the disk has no room. This is told for all names at once.
    pub fn miss_for_room(&self, place: usize) -> Miss
        ensures { result ≡ record { place = place; told = self.now.told; lacks_room = true } }
    {
        Miss {
            place,
            told: self.told,
            lacks_room: true,
        }
    }
}

// The same record, if there is one, in the same memory.
fn copy_of(local: &Option<Record>) -> Result<Option<Record>, AllocError>
    ensures { IfOk result (λ copy. copy ≡ local.now) }
{
    match local {
        Some(local) => Ok(Some(local.copy()?)),
        None => Ok(None),
    }
}
