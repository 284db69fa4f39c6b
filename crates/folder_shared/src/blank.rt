//! The blank token of the lock, from which that of each pass is cut, and its slot, which all calls share.
ghost use Rattle.std.specs.Prelude.{◌≡◌, [], ◌∷◌, None, IfOk};
ghost use Rattle.folder_shared.specs.Blank.{Guarded, Seized, IsBlankOf, IsLoanOf};

use crate::shared::{BlankSlot, Token};
use atomic_table::{Play, Seat, Table, TableRule};
use folder_calls::RecordedFolder;
use folder_core::FolderCore;
use std::alloc::{AllocError, Global};
use std::snapshot::Snapshot;
use std::sync::Wait;

/// What all tokens have in common: the channel, and the history when the folder was opened. It has no bytes.
#[derive(Drop)]
pub struct Origin<C: FolderCore + Drop> {
    pub(crate) seat: Snapshot<Token<C>>,
    pub(crate) first: Snapshot<RecordedFolder<C>>,
}

/// The word is 0 where the blank token is in the slot, 1 where a call has it, and 2 until it is first put there.
pub struct BlankRule;

impl<C: FolderCore + Drop> TableRule<Option<Token<C>>, Origin<C>, Origin<C>> for BlankRule {
    ghost holds = { λ origin. Guarded (IsBlankOf origin) };

    ghost first = { λ origin. origin };
}

/// A swap to 1, which takes what is there.
pub struct TakesBlank;

impl<C: FolderCore + Drop> Play<Option<Token<C>>, Origin<C>> for TakesBlank {
    ghost then = { λ st m found n. (found ≡ 0 → Seized (IsBlankOf m.0) n)
        × (found ≡ 2 → n.1 ≡ (0, None) ∷ []) };
}

/// A store of 0, which leaves the token there.
pub struct PutsBlank;

impl<C: FolderCore + Drop> Play<Option<Token<C>>, Origin<C>> for PutsBlank {
    ghost then = { λ st m found n. Unit {0} };
}

// A call has taken the blank token. This has no `Drop`, so it ends in `put_back`.
pub(crate) struct Loan<C: FolderCore + Drop> {
    seat: Seat<Option<Token<C>>, Origin<C>>,
}

impl<C: FolderCore + Drop> BlankSlot<C> {
    /// The slot, with the blank token still to be put there.
    pub(crate) fn new(
        alloc: Global,
        origin: &Origin<C>,
    ) -> Result<(BlankSlot<C>, Loan<C>), AllocError>
        ensures { IfOk result (λ m. (m.0.table.shared.key ≡ origin.now) × IsLoanOf m.0 m.1) }
    {
        let (table, _) = Table::vacant(alloc, &[2], 1, origin)?;
        let (found, seat) = table.shared.swap_new_seat::<TakesBlank>(0, 1);
        // It is 2, since no other call knows the place. The rule doesn't say so.
        if found != 2 {
            return Err(AllocError);
        }
        Ok((BlankSlot { table }, Loan { seat }))
    }

    /// Takes the blank token, as soon as no other call has it.
    pub(crate) fn take<R: Wait>(&self, rt: &R) -> (Token<C>, Loan<C>)
        ensures blank { IsBlankOf self.now.table.shared.key result.0 }
        ensures loan { IsLoanOf self.now result.1 }
    {
        for _ in rt.forever() {
            let (found, mut seat) = self.table.shared.swap_new_seat::<TakesBlank>(0, 1);
            if found == 0 {
                let token = self.table.shared.exchange(&mut seat, 0, None).unwrap();
                return (token, Loan { seat });
            }
        }
        unreachable!()
    }

    /// Puts it back.
    pub(crate) fn put_back(&self, token: Token<C>, loan: Loan<C>)
        requires blank { IsBlankOf self.now.table.shared.key token }
        requires loan { IsLoanOf self.now loan }
    {
        let Loan { mut seat } = loan;
        drop(self.table.shared.exchange(&mut seat, 0, Some(token)));
        self.table.shared.store::<PutsBlank>(&mut seat, 0, 0);
    }
}
