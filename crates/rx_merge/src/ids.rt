ghost use Rattle.std.specs.Prelude.{◌≡◌, ℕ, nat_eq, if◌then◌else◌, Some, filter, IfOk, OnOk, All};
ghost use Rattle.std.specs.Ordering.{nat_cmp};
ghost use Rattle.std.specs.List.{list_any};
ghost use Rattle.std.specs.List.Sorted.{IsPermutation, IsSorted, IsStrictlyIncreasing};
ghost use Rattle.std.specs.BTreeMap.{IsOrdered, values};
ghost use Rattle.rx_merge.specs.Ids.{has_id, met_ids, MeetsAt};

use rx_value::List;
use std::alloc::{AllocError, Global};
use std::collections::BTreeMap;

/// Row ids in memory.
pub type IdList = List<u64>;

/// The same ids, none below the one before it. Takes no memory.
pub(crate) fn sorted(ids: IdList) -> IdList
    ensures same { IsPermutation ids result }
    ensures sorted { IsSorted nat_cmp result }
{
    let mut items = ids.into_vec();
    items.sort_unstable();
    List::from_vec(items)
}

// Whether sorted ids have one among them.
fn has(ids: &[u64], id: u64) -> bool
    requires { IsSorted nat_cmp ids.now }
    ensures { result ≡ has_id ids.now id }
{
    ids.binary_search(&id).is_ok()
}

// Those ids that are among sorted ones too. Takes no memory.
fn common(ids: IdList, found: &IdList) -> IdList
    requires { IsSorted nat_cmp found.now }
    ensures { result ≡ filter (has_id found.now) ids }
{
    let mut kept = ids.into_vec();
    let found = found.as_slice();
    kept.retain(|id| has(found, *id));
    List::from_vec(kept)
}

/// Leaves a member, by its number, those of its ids that one more of its scans has found, which are sorted; all of these where
/// it is its first scan. The error is want of memory.
pub(crate) fn meet(
    members: &mut BTreeMap<u32, IdList>,
    member: u32,
    found: IdList,
) -> Result<(), AllocError>
    requires { IsSorted nat_cmp found }
    ensures { OnOk result (MeetsAt members.old members.new member found) }
{
    let ids = match members.remove(&member) {
        Some(ids) => common(ids, &found),
        None => found,
    };
    members.insert(member, ids)?;
    Ok(())
}

/// The ids of all members, each once, rising. Takes time in proportion to n log n. The error is want of memory.
pub(crate) fn any_of(alloc: Global, members: &BTreeMap<u32, IdList>) -> Result<IdList, AllocError>
    ensures each { IfOk result (λ ids. (id : ℕ) → has_id ids id ≡ list_any (λ held. has_id held id) (values members.now)) }
    ensures rising { IfOk result IsStrictlyIncreasing }
    ensures ordered { OnOk result (IsOrdered nat_cmp members.now) }
{
    let mut all = Vec::new(alloc);
    for ids in members.values() {
        all.extend_from_slice(ids.as_slice())?;
    }
    all.sort_unstable();
    all.dedup();
    Ok(List::from_vec(all))
}
