//! Names are compared by their bytes.
ghost use Rattle.std.specs.Prelude.{Some, refl, bytes_eq};
ghost use Rattle.std.specs.Ordering.{nat_cmp};
ghost use Rattle.std.specs.Cmp.{partial_equiv_from_equiv};
ghost use Rattle.std.specs.Cmp.Lexicographic.{slice_cmp, nat_list_eq_equiv, nat_list_cmp_total, texts_ties, texts_po};

use crate::SafeName;
use std::cmp::Ordering;

impl PartialEq for SafeName {
    ghost eq = { bytes_eq };

    ghost laws = { partial_equiv_from_equiv nat_list_eq_equiv };

    fn eq(&self, other: &SafeName) -> bool {
        self.as_str() == other.as_str()
    }
}

impl Eq for SafeName {
    ghost laws = { nat_list_eq_equiv };
}

impl PartialOrd for SafeName {
    ghost partial_cmp = { λ a b. Some (slice_cmp nat_cmp a b) };

    ghost laws = { texts_po };

    fn partial_cmp(&self, other: &SafeName) -> Option<Ordering> {
        Some(self.cmp(other))
    }
}

impl Ord for SafeName {
    ghost cmp = { slice_cmp nat_cmp };

    ghost total = { nat_list_cmp_total };

    ghost matches_partial_cmp = { λ a b. refl };

    ghost matches_eq = { texts_ties };

    fn cmp(&self, other: &SafeName) -> Ordering {
        self.as_str().cmp(other.as_str())
    }
}
