ghost use Rattle.std.specs.Prelude.{◌≡◌, IfOk};
ghost use Rattle.rx_statement.specs.Changes.{is_up_to, switch_of, dive_limit_of, memory_of, trace_of_text, trace_of, one, set_by, changed};

use crate::faults::What;
use crate::switches::{append, default_flags, switch_of_text};
use rx_query::{Setting, SettingList};
use rx_script::{RawSetting, RawValue};
use rx_value::{Bytes, same_name};
use std::alloc::{AllocError, Global};

fn is_up_to(limit: u64, negative: bool, number: u128) -> bool
    ensures { result ≡ is_up_to limit negative number }
{
    number <= limit as u128 && (!negative || number == 0)
}

fn switch_of(alloc: Global, value: &RawValue) -> Result<Option<SettingList>, AllocError>
    ensures { IfOk result (λ o. o ≡ switch_of value.now) }
{
    match value {
        RawValue::Number {
            negative: _,
            number: _,
        } => Ok(None),
        RawValue::Text(text) => switch_of_text(alloc, text.as_slice()),
        RawValue::Default => Ok(Some(default_flags(alloc)?)),
    }
}

fn dive_limit_of(value: &RawValue) -> Option<Setting>
    ensures { result ≡ dive_limit_of value.now }
{
    match value {
        RawValue::Number { negative, number } => {
            if is_up_to(4_294_967_295, *negative, *number) {
                Some(Setting::DiveLimit(*number as u64))
            } else {
                None
            }
        }
        RawValue::Text(_) => None,
        RawValue::Default => Some(Setting::DiveLimit(200)),
    }
}

fn memory_of(value: &RawValue) -> Option<Setting>
    ensures { result ≡ memory_of value.now }
{
    match value {
        RawValue::Number { negative, number } => {
            if is_up_to(18_446_744_073_709_551_615, *negative, *number) {
                Some(Setting::Memory(*number as u64))
            } else {
                None
            }
        }
        RawValue::Text(_) => None,
        RawValue::Default => Some(Setting::Memory(8_388_608)),
    }
}

fn trace_of_text(text: &[u8]) -> Option<Setting>
    ensures { result ≡ trace_of_text text.now }
{
    if same_name(text, b"enabled=on") {
        return Some(Setting::Trace(true));
    }
    if same_name(text, b"enabled=off") {
        return Some(Setting::Trace(false));
    }
    None
}

fn trace_of(value: &RawValue) -> Option<Setting>
    ensures { result ≡ trace_of value.now }
{
    match value {
        RawValue::Number {
            negative: _,
            number: _,
        } => None,
        RawValue::Text(text) => trace_of_text(text.as_slice()),
        RawValue::Default => Some(Setting::Trace(false)),
    }
}

fn one(alloc: Global, setting: Option<Setting>) -> Result<Option<SettingList>, AllocError>
    ensures { IfOk result (λ o. o ≡ one setting) }
{
    let Some(setting) = setting else {
        return Ok(None);
    };
    let mut list = SettingList::new(alloc);
    list.push(setting)?;
    Ok(Some(list))
}

/// What a setting sets, and None where there is no such setting or it takes no such value.
#[tactic(auto, unfolding(crate::specs::Changes::set_by))]
fn set_by(alloc: Global, setting: &RawSetting) -> Result<Option<SettingList>, AllocError>
    ensures { IfOk result (λ o. o ≡ set_by setting.now) }
{
    let name = setting.name.as_slice();
    if same_name(name, b"optimizer_switch") {
        return switch_of(alloc, &setting.value);
    }
    if same_name(name, b"eq_range_index_dive_limit") {
        return one(alloc, dive_limit_of(&setting.value));
    }
    if same_name(name, b"range_optimizer_max_mem_size") {
        return one(alloc, memory_of(&setting.value));
    }
    if same_name(name, b"optimizer_trace") {
        return one(alloc, trace_of(&setting.value));
    }
    Ok(None)
}

/// The settings that a SET changes, or the first bad one.
#[tactic(auto, unfolding(crate::specs::Changes::changed))]
pub(crate) fn changed(
    alloc: Global,
    settings: &[RawSetting],
) -> Result<Result<SettingList, What>, AllocError>
    ensures { IfOk result (λ r. r ≡ changed settings.now) }
{
    let mut list = SettingList::new(alloc);
    for setting in settings {
        let Some(more) = set_by(alloc, setting)? else {
            return Ok(Err(What::BadSetting {
                name: Bytes::of(alloc, setting.name.as_slice())?,
            }));
        };
        append(&mut list, &more)?;
    }
    Ok(Ok(list))
}
