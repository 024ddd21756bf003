ghost use Rattle.std.specs.Prelude.{◌≡◌, Some, IfOk};
ghost use Rattle.rx_reading.specs.Reading.{Passes, Reads, ReadsMaybe};
ghost use Rattle.rx_script.specs.Hints.{after_hint, no_names_at, usable_names_at, use_at, ignore_at, hint_at, hints_at};

use crate::statements::{HintKind, RawHint, RawHintList};
use rx_reading::{
    Item, Names, Read, Reading, Separator, after_key, after_sign, after_word, enclosed_at, many_at,
};
use rx_token::{Token, signs};
use rx_value::NameList;
use std::alloc::{AllocError, Global};

/// The tokens behind a word and KEY or INDEX.
fn after_hint<'a>(tokens: &'a [Token], word: &[u8]) -> Option<&'a [Token]>
    ensures { Passes (after_hint word.now) tokens.now result }
{
    let Some(behind) = after_word(tokens, word) else {
        return None;
    };
    after_key(behind)
}

/// Parentheses with nothing between.
fn no_names_at(alloc: Global, tokens: &[Token]) -> Option<Read<NameList>>
    ensures { Reads no_names_at tokens.now result }
{
    let Some(behind) = after_sign(tokens, signs::OPEN) else {
        return None;
    };
    let Some(rest) = after_sign(behind, signs::CLOSE) else {
        return None;
    };
    Some(Read {
        value: NameList::new(alloc),
        rest,
    })
}

fn usable_names_at(alloc: Global, tokens: &[Token]) -> Reading<NameList>
    ensures { IfOk result (Reads usable_names_at tokens.now) }
{
    if let Some(found) = no_names_at(alloc, tokens) {
        return Ok(Some(found));
    }
    enclosed_at(alloc, &Names, tokens)
}

fn use_at(alloc: Global, tokens: &[Token]) -> Reading<RawHint>
    ensures { IfOk result (Reads use_at tokens.now) }
{
    let Some(behind) = after_hint(tokens, b"USE") else {
        return Ok(None);
    };
    let Some(names) = usable_names_at(alloc, behind)? else {
        return Ok(None);
    };
    let value = RawHint {
        kind: HintKind::Use,
        indexes: names.value,
    };
    Ok(Some(Read {
        value,
        rest: names.rest,
    }))
}

fn ignore_at(alloc: Global, tokens: &[Token]) -> Reading<RawHint>
    ensures { IfOk result (Reads ignore_at tokens.now) }
{
    let Some(behind) = after_hint(tokens, b"IGNORE") else {
        return Ok(None);
    };
    let Some(names) = enclosed_at(alloc, &Names, behind)? else {
        return Ok(None);
    };
    let value = RawHint {
        kind: HintKind::Ignore,
        indexes: names.value,
    };
    Ok(Some(Read {
        value,
        rest: names.rest,
    }))
}

/// Reads a hint.
struct Hints;

impl Item for Hints {
    type Value = RawHint;

    ghost reader = { λ item. hint_at };

    #[tactic(auto, unfolding(crate::specs::Hints::hint_at))]
    fn read_at<'a>(&self, alloc: Global, tokens: &'a [Token]) -> Reading<'a, RawHint> {
        if let Some(found) = use_at(alloc, tokens)? {
            return Ok(Some(found));
        }
        ignore_at(alloc, tokens)
    }
}

/// Hints as many as follow, maybe none.
pub(crate) fn hints_at<'a>(
    alloc: Global,
    tokens: &'a [Token],
) -> Result<Read<'a, RawHintList>, AllocError>
    ensures { IfOk result (λ read. ReadsMaybe hints_at tokens.now (Some read)) }
{
    many_at(alloc, Separator::Nothing, &Hints, tokens)
}
