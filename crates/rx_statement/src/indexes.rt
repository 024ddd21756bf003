ghost use Rattle.std.specs.Prelude.{◌≡◌, map, IfOk};
ghost use Rattle.std.specs.List.{list_any};
ghost use Rattle.rx_statement.specs.Names.{is_index_named, is_no_index};
ghost use Rattle.rx_statement.specs.Asking.{is_use, names_index, is_used, is_ignored, is_usable};

use rx_script::{HintKind, RawHint};
use rx_value::{BoolList, Index, same_name};
use std::alloc::{AllocError, Global};

fn is_index_named(name: &[u8], index: &Index) -> bool
    ensures { result ≡ is_index_named name.now index.now }
{
    same_name(name, index.name.as_slice())
}

fn any_named(indexes: &[Index], name: &[u8]) -> bool
    ensures { result ≡ list_any (is_index_named name.now) indexes.now }
{
    indexes.iter().any(|index| is_index_named(name, index))
}

/// Whether no index has this name.
pub(crate) fn is_no_index(indexes: &[Index], name: &[u8]) -> bool
    ensures { result ≡ is_no_index indexes.now name.now }
{
    !any_named(indexes, name)
}

fn is_use(kind: HintKind) -> bool
    ensures { result ≡ is_use kind }
{
    matches!(kind, HintKind::Use)
}

fn names_index(index: &Index, hint: &RawHint) -> bool
    ensures { result ≡ names_index index.now hint.now }
{
    hint.indexes
        .as_slice()
        .iter()
        .any(|name| is_index_named(name.as_slice(), index))
}

fn is_used(index: &Index, hint: &RawHint) -> bool
    ensures { result ≡ is_used index.now hint.now }
{
    is_use(hint.kind) && names_index(index, hint)
}

fn is_ignored(index: &Index, hint: &RawHint) -> bool
    ensures { result ≡ is_ignored index.now hint.now }
{
    !is_use(hint.kind) && names_index(index, hint)
}

fn any_use(hints: &[RawHint]) -> bool
    ensures { result ≡ list_any (λ hint. is_use hint.kind) hints.now }
{
    hints.iter().any(|hint| is_use(hint.kind))
}

fn any_used(index: &Index, hints: &[RawHint]) -> bool
    ensures { result ≡ list_any (is_used index.now) hints.now }
{
    hints.iter().any(|hint| is_used(index, hint))
}

fn any_ignored(index: &Index, hints: &[RawHint]) -> bool
    ensures { result ≡ list_any (is_ignored index.now) hints.now }
{
    hints.iter().any(|hint| is_ignored(index, hint))
}

fn is_usable(hints: &[RawHint], index: &Index) -> bool
    ensures { result ≡ is_usable hints.now index.now }
{
    (!any_use(hints) || any_used(index, hints)) && !any_ignored(index, hints)
}

/// Whether each index may be used, by the hints.
pub(crate) fn usable(
    alloc: Global,
    hints: &[RawHint],
    indexes: &[Index],
) -> Result<BoolList, AllocError>
    ensures { IfOk result (λ list. list ≡ map (is_usable hints.now) indexes.now) }
{
    let mut list = BoolList::new(alloc);
    for index in indexes {
        list.push(is_usable(hints, index))?;
    }
    Ok(list)
}
