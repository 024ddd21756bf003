ghost use Rattle.std.specs.Prelude.{◌≡◌, ◌++◌, map, IfOk, OnOk};
ghost use Rattle.std.specs.List.{list_all, list_any};
ghost use Rattle.rx_statement.specs.Switches.{parted, is_default, flag_state, merge_flag_of, union_flag_of, flag_of, is_switch_item, same_flag, repeats, default_flags, defaults_first, flags_of, switch_of_items, switch_of_text};

use rx_query::{Setting, SettingList};
use rx_value::same_name;
use std::alloc::{AllocError, Global};

fn parted(alloc: Global, text: &[u8]) -> Result<Vec<&[u8]>, AllocError>
    ensures { IfOk result (λ list. map (λ item. item.now) list.items ≡ parted text.now) }
{
    text.split(|byte| *byte == b',').collect(alloc)
}

fn is_default(item: &[u8]) -> bool
    ensures { result ≡ is_default item.now }
{
    same_name(item, b"default")
}

/// Whether an item sets a flag on, by the three texts that set it.
fn flag_state(item: &[u8], on: &[u8], off: &[u8], by_default: &[u8]) -> Option<bool>
    ensures { result ≡ flag_state item.now on.now off.now by_default.now }
{
    if same_name(item, on) || same_name(item, by_default) {
        return Some(true);
    }
    if same_name(item, off) {
        return Some(false);
    }
    None
}

/// What an item sets of index merges, and of intersections.
#[tactic(auto, unfolding(crate::specs::Switches::merge_flag_of))]
fn merge_flag_of(item: &[u8]) -> Option<Setting>
    ensures { result ≡ merge_flag_of item.now }
{
    if let Some(on) = flag_state(
        item,
        b"index_merge=on",
        b"index_merge=off",
        b"index_merge=default",
    ) {
        return Some(Setting::Merge(on));
    }
    match flag_state(
        item,
        b"index_merge_intersection=on",
        b"index_merge_intersection=off",
        b"index_merge_intersection=default",
    ) {
        Some(on) => Some(Setting::Intersection(on)),
        None => None,
    }
}

/// What an item sets of unions, and of unions that sort.
#[tactic(auto, unfolding(crate::specs::Switches::union_flag_of))]
fn union_flag_of(item: &[u8]) -> Option<Setting>
    ensures { result ≡ union_flag_of item.now }
{
    if let Some(on) = flag_state(
        item,
        b"index_merge_union=on",
        b"index_merge_union=off",
        b"index_merge_union=default",
    ) {
        return Some(Setting::UnionOn(on));
    }
    match flag_state(
        item,
        b"index_merge_sort_union=on",
        b"index_merge_sort_union=off",
        b"index_merge_sort_union=default",
    ) {
        Some(on) => Some(Setting::SortUnion(on)),
        None => None,
    }
}

/// The flag that an item sets.
#[tactic(auto, unfolding(crate::specs::Switches::flag_of))]
fn flag_of(item: &[u8]) -> Option<Setting>
    ensures { result ≡ flag_of item.now }
{
    if let Some(flag) = merge_flag_of(item) {
        return Some(flag);
    }
    if let Some(flag) = union_flag_of(item) {
        return Some(flag);
    }
    match flag_state(
        item,
        b"skip_scan=on",
        b"skip_scan=off",
        b"skip_scan=default",
    ) {
        Some(on) => Some(Setting::Skip(on)),
        None => None,
    }
}

fn is_switch_item(item: &[u8]) -> bool
    ensures { result ≡ is_switch_item item.now }
{
    is_default(item) || flag_of(item).is_some()
}

fn all_are_items(items: &[&[u8]]) -> bool
    ensures { result ≡ list_all is_switch_item (map (λ item. item.now) items.now) }
{
    for item in items {
        if !is_switch_item(*item) {
            return false;
        }
    }
    true
}

fn any_is_default(items: &[&[u8]]) -> bool
    ensures { result ≡ list_any is_default (map (λ item. item.now) items.now) }
{
    for item in items {
        if is_default(*item) {
            return true;
        }
    }
    false
}

fn same_flag(one: Setting, other: Setting) -> bool
    ensures { result ≡ same_flag one other }
{
    match (one, other) {
        (Setting::Merge(_), Setting::Merge(_)) => true,
        (Setting::Intersection(_), Setting::Intersection(_)) => true,
        (Setting::UnionOn(_), Setting::UnionOn(_)) => true,
        (Setting::SortUnion(_), Setting::SortUnion(_)) => true,
        (Setting::Skip(_), Setting::Skip(_)) => true,
        _ => false,
    }
}

fn is_among(setting: Setting, others: &[Setting]) -> bool
    ensures { result ≡ list_any (same_flag setting) others.now }
{
    others.iter().any(|other| same_flag(setting, *other))
}

/// Whether a flag stands twice.
fn repeats(settings: &[Setting]) -> bool
    ensures { result ≡ repeats settings.now }
{
    let mut rest = settings;
    'flags: loop {
        let [setting, others @ ..] = rest else {
            return false;
        };
        if is_among(*setting, others) {
            return true;
        }
        rest = others;
    }
}

/// The five flags with their defaults.
pub(crate) fn default_flags(alloc: Global) -> Result<SettingList, AllocError>
    ensures { IfOk result (λ list. list ≡ default_flags) }
{
    let mut list = SettingList::new(alloc);
    list.push(Setting::Merge(true))?;
    list.push(Setting::Intersection(true))?;
    list.push(Setting::UnionOn(true))?;
    list.push(Setting::SortUnion(true))?;
    list.push(Setting::Skip(true))?;
    Ok(list)
}

fn defaults_first(alloc: Global, items: &[&[u8]]) -> Result<SettingList, AllocError>
    ensures { IfOk result (λ list. list ≡ defaults_first (map (λ item. item.now) items.now)) }
{
    if any_is_default(items) {
        return default_flags(alloc);
    }
    Ok(SettingList::new(alloc))
}

fn flags_of(alloc: Global, items: &[&[u8]]) -> Result<SettingList, AllocError>
    ensures { IfOk result (λ list. list ≡ flags_of (map (λ item. item.now) items.now)) }
{
    let mut list = SettingList::new(alloc);
    for item in items {
        match flag_of(*item) {
            Some(setting) => list.push(setting)?,
            None => {}
        }
    }
    Ok(list)
}

fn switch_of_items(alloc: Global, items: &[&[u8]]) -> Result<Option<SettingList>, AllocError>
    ensures { IfOk result (λ o. o ≡ switch_of_items (map (λ item. item.now) items.now)) }
{
    let flags = flags_of(alloc, items)?;
    if !all_are_items(items) || repeats(flags.as_slice()) {
        return Ok(None);
    }
    let mut list = defaults_first(alloc, items)?;
    append(&mut list, &flags)?;
    Ok(Some(list))
}

/// Adds settings at the end.
pub(crate) fn append(list: &mut SettingList, more: &SettingList) -> Result<(), AllocError>
    ensures { OnOk result (list.new ≡ list.old ++ more.now) }
{
    for setting in more.as_slice() {
        list.push(*setting)?;
    }
    Ok(())
}

/// What the text of `optimizer_switch` sets, and None where it is none.
pub(crate) fn switch_of_text(alloc: Global, text: &[u8]) -> Result<Option<SettingList>, AllocError>
    ensures { IfOk result (λ o. o ≡ switch_of_text text.now) }
{
    let items = parted(alloc, text)?;
    switch_of_items(alloc, items.as_slice())
}
