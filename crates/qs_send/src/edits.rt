//! Edits of sets of offsets.
ghost use Rattle.std.specs.Prelude.{◌≡◌, ℕ, ◌+◌, ◌-◌, ◌≤◌, ◌<◌, ◌⊎◌, ◌^◌, false, IsTrue, OnOk, OnErr};
ghost use Rattle.std.specs.FinSet as set;
ghost use Rattle.qs_ranges.specs.Numbers.{numbers, is_within, ContainsRange, MissesRange};

use qs_ranges::{NoMemory, RangeSet};

/// Adds the offsets from `lo` on and below `hi`. Memory is taken only if there are some, and the set has none of them and none beside them.
#[tactic(auto, using(crate::proofs::Runs::with_none))]
pub fn add(offsets: &mut RangeSet, lo: u64, hi: u64) -> Result<(), NoMemory>
    requires ordered { lo ≤ hi }
    requires within { hi ≤ 2 ^ 62 }
    ensures ok { OnOk result (offsets.new ≡ set.union offsets.old (numbers lo hi)) }
    ensures err { OnErr result (offsets.new ≡ offsets.old) }
    ensures some { OnErr result (lo < hi) }
    ensures grows { OnErr result (MissesRange offsets.old (lo - 1) (hi + 1)) }
{
    if lo == hi {
        return Ok(());
    }
    offsets.insert(lo, hi)
}

/// Takes out the offsets from `lo` on and below `hi`. If a run would have to be split and memory for that is refused, they stay: what isn't
/// noted as due costs nothing to keep.
#[tactic(auto, using(crate::proofs::Runs::forgets_no_other, crate::proofs::Runs::forgets_only))]
pub fn forget(offsets: &mut RangeSet, lo: u64, hi: u64)
    requires ordered { lo ≤ hi }
    requires within { hi ≤ 2 ^ 62 }
    ensures others { (n : ℕ) → is_within lo hi n ≡ false → set.contains offsets.new n ≡ set.contains offsets.old n }
    ensures taken { (offsets.new ≡ set.difference offsets.old (numbers lo hi)) ⊎ ContainsRange offsets.old (lo - 1) (hi + 1) }
    ensures fewer { (n : ℕ) → IsTrue (set.contains offsets.new n) → IsTrue (set.contains offsets.old n) }
{
    let _ = offsets.remove(lo, hi);
}
