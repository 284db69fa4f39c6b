//! The open pulls of a folder, and which of their plans are on the disk.
ghost use Rattle.std.specs.Prelude.{◌≡◌, ◌++◌, true, filter, map, nat_eq, nat_le, not, IfOk, OnErr, OnOk, option_copied};
ghost use Rattle.node_keeper.specs.Plans.{after_batch, first_of, next_batch, no_plans, noted, readiness_of, unsaved, without};

use std::alloc::{AllocError, Global};
use std::marker::Model;
use sync_names::SafeName;
use sync_record::Record;

/// What a pull may put in place.
#[derive(Debug, Drop)]
pub struct PlannedPull {
    /// The local record over which the pull began; `None` where there was none.
    pub base: Option<Record>,
    /// The record whose file is fetched.
    pub target: Record,
}

impl PlannedPull {
    // The same once more, in the memory of this one. Returns `Err` only if a record has 2^63 - 1 copies.
    fn copy(&self) -> Result<PlannedPull, AllocError>
        ensures { IfOk result (λ plan. plan ≡ self.now) }
    {
        let target = self.target.copy()?;
        let base = match &self.base {
            Some(base) => Some(base.copy()?),
            None => None,
        };
        Ok(PlannedPull { base, target })
    }
}

/// Whether what a pull prepared may be put in place.
#[derive(Clone, Copy, Debug, PartialEq, Eq)]
pub(crate) enum Readiness {
    /// Its plan is on the disk, or it has none.
    Ready,
    /// Its plan is not on the disk yet.
    Waiting,
    /// Its plan could not be written.
    Refused,
}

/// An open pull.
#[derive(Debug, Drop)]
pub(crate) struct OpenPull {
    /// Its number.
    pub(crate) number: u64,
    /// How many batches of plans had begun when it was noted: the next one has its plan.
    pub(crate) batch: u64,
    pub(crate) plan: PlannedPull,
}

/// The open pulls of a folder. Their plans are written in batches: what is not on the disk when one begins is in it.
#[derive(Debug, Drop)]
pub(crate) struct Plans {
    pub(crate) pulls: Vec<OpenPull>,
    // How many batches began, and before which one all that was noted is on the disk.
    batch: u64,
    kept: u64,
    // Whether the last batch could not be written.
    is_failing: bool,
    // Whether a plan could not be noted, out of memory.
    has_lost: bool,
}

impl Model for Plans {
    ghost use Rattle.std.specs.Prelude.{⊤};
    ghost use Rattle.node_keeper.specs.Plans.{PlanBook};

    ghost Value = { PlanBook };

    ghost view = { λ p. record {
      pulls = p.pulls.items;
      batch = p.batch;
      kept = p.kept;
      is_failing = p.is_failing;
      has_lost = p.has_lost;
    } };

    ghost invariant = { λ _. ⊤ };
}

impl Plans {
    /// None, with room for so many. Returns `Err` only if out of memory.
    pub(crate) fn with_capacity(alloc: Global, count: usize) -> Result<Plans, AllocError>
        ensures { IfOk result (λ plans. plans ≡ no_plans) }
    {
        Ok(Plans {
            pulls: Vec::with_capacity(alloc, count)?,
            batch: 0,
            kept: 0,
            is_failing: false,
            has_lost: false,
        })
    }

    /// A pull with this number began, with this plan. Returns `Err` only if out of memory; does not allocate while there is room. O(1), amortized.
    pub(crate) fn note(&mut self, number: u64, plan: PlannedPull) -> Result<(), AllocError>
        ensures noted { OnOk result (self.new ≡ noted number plan self.old) }
        ensures err { OnErr result (self.new ≡ self.old) }
    {
        let pull = OpenPull {
            number,
            batch: self.batch,
            plan,
        };
        self.pulls.push(pull)?;
        Ok(())
    }

    /// A plan could not be noted: nothing of the folder is put in place any more.
    pub(crate) fn lose(&mut self)
        ensures { self.new ≡ record self.old { has_lost = true } }
    {
        self.has_lost = true;
    }

    /// The pull with this number ends.
    pub(crate) fn end(&mut self, number: u64)
        ensures { self.new ≡ without number self.old }
    {
        leave_out(&mut self.pulls, number);
    }

    /// Whether what was prepared for the name may be put in place. O(n) for n open pulls.
    pub(crate) fn readiness(&self, name: &SafeName) -> Readiness
        ensures { result ≡ readiness_of self.now name.now }
    {
        if self.has_lost {
            return Readiness::Refused;
        }
        let Some(pull) = self.first_of(name) else {
            return Readiness::Ready;
        };
        if pull.batch < self.kept {
            Readiness::Ready
        } else if self.is_failing {
            Readiness::Refused
        } else {
            Readiness::Waiting
        }
    }

    // The first pull of the name.
    fn first_of(&self, name: &SafeName) -> Option<&OpenPull>
        ensures { option_copied result ≡ first_of name.now self.now.pulls }
    {
        self.pulls
            .iter()
            .find(|pull| pull.plan.target.name().as_str() == name.as_str())
    }

    /// Begins a batch: returns its number, and the plans that are not on the disk yet, in the order in which their pulls began. Returns `Err` only if
    /// out of memory, and then none begins. O(n) for n open pulls.
    pub(crate) fn begin_batch(
        &mut self,
        alloc: Global,
    ) -> Result<(u64, Vec<PlannedPull>), AllocError>
        ensures plans { IfOk result (λ batch. batch.1.items ≡ unsaved self.old) }
        ensures number { IfOk result (λ batch. batch.0 ≡ next_batch self.old) }
        ensures begins { OnOk result (self.new ≡ record self.old { batch = next_batch self.old }) }
        ensures err { OnErr result (self.new ≡ self.old) }
    {
        let mut plans = Vec::new(alloc);
        let pulls = self.pulls.as_slice();
        add_unsaved(&mut plans, pulls, self.kept)?;
        self.batch = self.batch.saturating_add(1);
        Ok((self.batch, plans))
    }

    /// All that was noted before this batch began is on the disk.
    pub(crate) fn end_batch(&mut self, number: u64)
        ensures { self.new ≡ after_batch number self.old }
    {
        self.kept = number;
        self.is_failing = false;
    }

    /// A batch could not be written: until one is, no pull whose plan is not on the disk puts anything in place.
    pub(crate) fn fail(&mut self)
        ensures { self.new ≡ record self.old { is_failing = true } }
    {
        self.is_failing = true;
    }
}

// Leaves out the pull with this number.
fn leave_out(pulls: &mut Vec<OpenPull>, number: u64)
    ensures { pulls.new.items ≡ filter (λ pull. not (nat_eq pull.number number)) pulls.old.items }
{
    pulls.retain(|pull| pull.number != number);
}

// Appends the plans of these pulls that were noted since this batch began.
fn add_unsaved(
    plans: &mut Vec<PlannedPull>,
    pulls: &[OpenPull],
    kept: u64,
) -> Result<(), AllocError>
    ensures { OnOk result (plans.new.items
        ≡ plans.old.items ++ map (λ pull. pull.plan) (filter (λ pull. nat_le kept pull.batch) pulls.now)) }
{
    for pull in pulls {
        if kept <= pull.batch {
            plans.push(pull.plan.copy()?)?;
        }
    }
    Ok(())
}
