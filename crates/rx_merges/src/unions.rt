//! Unions: the rows whose ids one of several members has.

ghost use Rattle.std.specs.Prelude.{◌≡◌, ◌<◌, ◌≤◌, ◌*◌, [], ◌∷◌, ◌++◌, None, if◌then◌else◌, IfOk, IfSome, OnOk, length, map, take, filter, slice_get, All};
ghost use Rattle.std.specs.List.{flat_map};
ghost use Rattle.rx_cost.specs.Choice.{IsFirstLeast, least_place, chosen_place};
ghost use Rattle.rx_cost.specs.Costs.{most_counted};
ghost use Rattle.rx_plan.specs.Naming.{is_primary};
ghost use Rattle.rx_merges.specs.Fitting.{IsCounted, AreScans, IsMember, most_scans, most_disjuncts};
ghost use Rattle.rx_merges.specs.Ordered.{row_ordered};
ghost use Rattle.rx_merges.specs.Intersections.{ids_of};
ghost use Rattle.rx_merges.specs.Unions.{all_there, single, members_among, member_of, union, cheapest, sort_union, union_among, sort_union_among, union_of};

use crate::counts::ids_of;
use crate::intersections::intersections_among;
use crate::ordered::row_ordered;
use rx_cost::{
    Candidate, CandidateList, Kind, Scan, ScanList, choose, sort_union_cost, union_cost,
};
use rx_plan::is_primary;
use rx_query::Settings;
use rx_value::{List, Schema};
use std::alloc::{AllocError, Global};

/// The scans of each disjunct of a disjunction, in order.
pub type ScanLists = List<ScanList>;

// One scan as the member of a union. The error is want of memory.
fn single(alloc: Global, scan: &Scan) -> Result<Candidate, AllocError>
    requires { IsCounted most_counted scan.now }
    ensures { IfOk result (λ candidate. candidate ≡ single scan.now) }
{
    let mut scans = ScanList::new(alloc);
    scans.push(scan.copy(alloc)?)?;
    Ok(Candidate {
        kind: Kind::Union,
        scans,
        cost: union_cost(ids_of(scan), scan.rows),
        rows: scan.rows,
        index_only: false,
    })
}

// The scans of the primary key, each as a member. The error is want of memory.
fn primary_members(
    alloc: Global,
    schema: &Schema,
    scans: &[Scan],
) -> Result<CandidateList, AllocError>
    requires there { All (λ scan. scan.index < length schema.now.indexes) scans.now }
    requires counted { All (IsCounted most_counted) scans.now }
    ensures { IfOk result (λ list. list ≡ map single (filter (λ scan. is_primary schema.now scan.index) scans.now)) }
{
    let mut members = CandidateList::new(alloc);
    for scan in scans {
        if is_primary(schema, scan.index) {
            members.push(single(alloc, scan)?)?;
        }
    }
    Ok(members)
}

// Adds the first of scans as a member, where there is one. The error is want of memory.
fn add_first(alloc: Global, members: &mut CandidateList, scans: &[Scan]) -> Result<(), AllocError>
    requires { All (IsCounted most_counted) scans.now }
    ensures { OnOk result (members.new ≡ members.old ++ map single (take 1 scans.now)) }
{
    match scans {
        [] => Ok(()),
        [first, ..] => members.push(single(alloc, first)?),
    }
}

// Adds candidates at the end. The error is want of memory.
fn add_all(members: &mut CandidateList, more: CandidateList) -> Result<(), AllocError>
    ensures { OnOk result (members.new ≡ members.old ++ more) }
{
    for member in more.into_vec() {
        members.push(member)?;
    }
    Ok(())
}

// What may be the member of a disjunct, by the disjunct's scans. The error is want of memory.
fn members_among(
    alloc: Global,
    intersect: bool,
    schema: &Schema,
    count: u64,
    scans: &[Scan],
) -> Result<CandidateList, AllocError>
    requires count { count ≤ most_counted }
    requires scans { AreScans schema.now count scans.now }
    ensures { IfOk result (λ list. list ≡ members_among intersect schema.now count scans.now) }
{
    let ordered = row_ordered(alloc, schema, scans)?;
    let mut members = primary_members(alloc, schema, scans)?;
    add_first(alloc, &mut members, ordered.as_slice())?;
    if intersect {
        add_all(
            &mut members,
            intersections_among(alloc, false, &[], schema, count, scans)?,
        )?;
    }
    Ok(members)
}

// Takes the first candidate of least cost, where there is one.
fn take_chosen(list: CandidateList) -> Option<Candidate>
    ensures { result ≡ slice_get list (chosen_place list) }
{
    if list.len() == 0 {
        return None;
    }
    let place = choose(&list);
    let mut items = list.into_vec();
    Some(items.swap_remove(place))
}

// The member of a disjunct, where there is one. The error is want of memory.
fn member_of(
    alloc: Global,
    intersect: bool,
    schema: &Schema,
    count: u64,
    scans: &[Scan],
) -> Result<Option<Candidate>, AllocError>
    requires count { count ≤ most_counted }
    requires scans { AreScans schema.now count scans.now }
    ensures value { IfOk result (λ member. member ≡ member_of intersect schema.now count scans.now) }
    ensures few { IfOk result (λ member. IfSome member IsMember) }
{
    let members = members_among(alloc, intersect, schema, count, scans)?;
    Ok(take_chosen(members))
}

// The members of disjuncts by the scans of each, where each has one. The error is want of memory.
fn all_members(
    alloc: Global,
    intersect: bool,
    schema: &Schema,
    count: u64,
    lists: &[ScanList],
) -> Result<Option<CandidateList>, AllocError>
    requires count { count ≤ most_counted }
    requires lists { All (AreScans schema.now count) lists.now }
    ensures value { IfOk result (λ members. members ≡ all_there (map (member_of intersect schema.now count) lists.now)) }
    ensures few { IfOk result (λ members. IfSome members (λ list. length list ≤ length lists.now)) }
    ensures each { IfOk result (λ members. IfSome members (All IsMember)) }
{
    let mut members = CandidateList::new(alloc);
    for scans in lists {
        match member_of(alloc, intersect, schema, count, scans.as_slice())? {
            Some(member) => members.push(member)?,
            None => return Ok(None),
        }
    }
    Ok(Some(members))
}

// Adds the scans of a member. The error is want of memory.
fn add_scans(scans: &mut ScanList, member: ScanList) -> Result<(), AllocError>
    ensures { OnOk result (scans.new ≡ scans.old ++ member) }
{
    for scan in member.into_vec() {
        scans.push(scan)?;
    }
    Ok(())
}

// The union of members. The error is want of memory.
fn union(alloc: Global, members: CandidateList) -> Result<Candidate, AllocError>
    requires few { length members ≤ most_disjuncts }
    requires each { All IsMember members }
    ensures { IfOk result (λ candidate. candidate ≡ union members) }
{
    let mut scans = ScanList::new(alloc);
    let mut cost = 0;
    let mut rows = 0;
    for member in members.into_vec() {
        add_scans(&mut scans, member.scans)?;
        cost += member.cost;
        rows += member.rows;
    }
    Ok(Candidate {
        kind: Kind::Union,
        scans,
        cost,
        rows,
        index_only: false,
    })
}

// The place of the first scan whose ids cost least.
fn cheapest_place(scans: &[Scan]) -> usize
    requires some { 0 < length scans.now }
    requires counted { All (IsCounted most_counted) scans.now }
    ensures { IsFirstLeast (map ids_of scans.now) result }
{
    let mut best = 0;
    for i in 0..scans.len() {
        if ids_of(&scans[i]) < ids_of(&scans[best]) {
            best = i;
        }
    }
    best
}

// The scan whose ids cost least, the first of such, in memory of its own, where there is one. The error is want of memory.
fn cheapest(alloc: Global, scans: &[Scan]) -> Result<Option<Scan>, AllocError>
    requires { All (IsCounted most_counted) scans.now }
    ensures value { IfOk result (λ scan. scan ≡ cheapest scans.now) }
    ensures counted { IfOk result (λ scan. IfSome scan (IsCounted most_counted)) }
{
    if scans.len() == 0 {
        return Ok(None);
    }
    let scan = scans[cheapest_place(scans)].copy(alloc)?;
    Ok(Some(scan))
}

// For each disjunct the scan whose ids cost least, where each has one. The error is want of memory.
fn all_cheapest(alloc: Global, lists: &[ScanList]) -> Result<Option<ScanList>, AllocError>
    requires { All (All (IsCounted most_counted)) lists.now }
    ensures value { IfOk result (λ scans. scans ≡ all_there (map cheapest lists.now)) }
    ensures few { IfOk result (λ scans. IfSome scans (λ list. length list ≤ length lists.now)) }
    ensures each { IfOk result (λ scans. IfSome scans (All (IsCounted most_counted))) }
{
    let mut scans = ScanList::new(alloc);
    for list in lists {
        match cheapest(alloc, list.as_slice())? {
            Some(scan) => scans.push(scan)?,
            None => return Ok(None),
        }
    }
    Ok(Some(scans))
}

// The union of scans whose ids are sorted first.
fn sort_union(scans: ScanList) -> Candidate
    requires few { length scans ≤ most_disjuncts }
    requires each { All (IsCounted most_counted) scans }
    ensures { result ≡ sort_union scans }
{
    let mut ids = 0;
    let mut rows = 0;
    for scan in scans.as_slice() {
        ids += ids_of(scan);
        rows += scan.rows;
    }
    Candidate {
        kind: Kind::SortUnion,
        scans,
        cost: sort_union_cost(ids, rows),
        rows,
        index_only: false,
    }
}

// The union of disjuncts by the scans of each, where it is asked for and each has a member. The error is want of memory.
fn union_among(
    alloc: Global,
    settings: &Settings,
    schema: &Schema,
    count: u64,
    lists: &[ScanList],
) -> Result<Option<Candidate>, AllocError>
    requires count { count ≤ most_counted }
    requires few { length lists.now ≤ most_disjuncts }
    requires lists { All (AreScans schema.now count) lists.now }
    ensures { IfOk result (λ candidate. candidate ≡ (if settings.now.union_on then union_among settings.now.intersection schema.now count lists.now else None)) }
{
    if !settings.union_on {
        return Ok(None);
    }
    match all_members(alloc, settings.intersection, schema, count, lists)? {
        Some(members) => Ok(Some(union(alloc, members)?)),
        None => Ok(None),
    }
}

// The same of sorted ids, where each has a scan. The error is want of memory.
fn sort_union_among(
    alloc: Global,
    settings: &Settings,
    lists: &[ScanList],
) -> Result<Option<Candidate>, AllocError>
    requires few { length lists.now ≤ most_disjuncts }
    requires lists { All (All (IsCounted most_counted)) lists.now }
    ensures { IfOk result (λ candidate. candidate ≡ (if settings.now.sort_union then sort_union_among lists.now else None)) }
{
    if !settings.sort_union {
        return Ok(None);
    }
    match all_cheapest(alloc, lists)? {
        Some(scans) => Ok(Some(sort_union(scans))),
        None => Ok(None),
    }
}

/// The union of a disjunction over a table of so many rows, by the scans of each disjunct, where there is one. Its members are
/// of each disjunct the one that costs least among the scan of the primary key, the first of those that give row ids in rising
/// order, and their intersections. Where a disjunct has none of these it is the union of the scans whose ids cost least, and
/// the ids are sorted first. Each of the three is considered only where the settings ask for it (MySQL manual, "Index Merge
/// Optimization", "Index Merge Union Access Algorithm", "Index Merge Sort-Union Access Algorithm").
///
/// # Errors
///
/// The error is want of memory.
pub fn union_of(
    alloc: Global,
    settings: &Settings,
    schema: &Schema,
    count: u64,
    lists: &[ScanList],
) -> Result<Option<Candidate>, AllocError>
    requires count { count ≤ most_counted }
    requires few { length lists.now ≤ most_disjuncts }
    requires lists { All (AreScans schema.now count) lists.now }
    ensures { IfOk result (λ candidate. candidate ≡ union_of settings.now schema.now count lists.now) }
{
    match union_among(alloc, settings, schema, count, lists)? {
        Some(candidate) => Ok(Some(candidate)),
        None => sort_union_among(alloc, settings, lists),
    }
}
