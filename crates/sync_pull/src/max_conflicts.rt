//! How many conflict copies of a file are kept: any number (-1), none (0), or up to 1,000.
ghost use Rattle.std.specs.Prelude.{◌≡◌, ◌↔◌, IsSome, IfSome, MatchOption, negsuc, pos};
ghost use Rattle.sync_pull.specs.Copies.{IsMaxConflicts};

use std::marker::Model;

/// The most conflict copies that are kept of a name: -1 keeps any number, 0 makes none. Contracts see the number.
#[derive(Clone, Copy, Debug, PartialEq, Eq)]
pub struct MaxConflicts {
    most: i32,
}

impl Model for MaxConflicts {
    ghost use Rattle.std.specs.Prelude.{ℤ};
    ghost use Rattle.sync_pull.specs.Copies.{IsMaxConflicts};

    ghost Value = { ℤ };

    ghost view = { λ m. m.most };

    ghost inverse = { λ most. record { most = most } };

    ghost invariant = { λ m. IsMaxConflicts m.most };
}

impl MaxConflicts {
    /// Any number of copies is kept, as by -1.
    pub const ANY: i32 = -1;

    /// The greatest number that may be set.
    pub const GREATEST: i32 = 1000;

    /// The limit of this number; `None` for a number below -1 or above 1,000. O(1).
    pub fn new(most: i32) -> Option<MaxConflicts>
        ensures value { IfSome result (λ limit. limit ≡ most) }
        ensures allowed { IsSome result ↔ IsMaxConflicts most }
    {
        if (MaxConflicts::ANY..=MaxConflicts::GREATEST).contains(&most) {
            Some(MaxConflicts { most })
        } else {
            None
        }
    }

    /// The number: -1 to 1,000. O(1).
    pub fn most(self) -> i32
        ensures value { result ≡ self }
        ensures allowed { IsMaxConflicts self }
    {
        self.most
    }

    /// How many copies may be kept; `None` for any number. O(1).
    pub fn limit(self) -> Option<usize>
        ensures { MatchOption result (self ≡ negsuc 0) (λ most. self ≡ pos most) }
    {
        usize::try_from(self.most).ok()
    }
}
