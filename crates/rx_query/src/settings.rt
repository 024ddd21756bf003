ghost use Rattle.std.specs.Prelude.{◌≡◌};
ghost use Rattle.rx_query.specs.Settings.{default_settings, with_setting, applied};

use crate::statements::{Setting, SettingList};

/// What the statements of a script are run under. The flags are those of `optimizer_switch`
/// (MySQL manual, "Switchable Optimizations" and "Range Optimization").
#[derive(Clone, Copy)]
pub struct Settings {
    /// `index_merge`: whether any index merge is considered.
    pub merge: bool,
    /// `index_merge_intersection`.
    pub intersection: bool,
    /// `index_merge_union`.
    pub union_on: bool,
    /// `index_merge_sort_union`.
    pub sort_union: bool,
    /// `skip_scan`.
    pub skip: bool,
    /// `eq_range_index_dive_limit`: from so many equality ranges on, statistics take the place
    /// of dives; 0 is never.
    pub dive_limit: u64,
    /// `range_optimizer_max_mem_size` in bytes; 0 is no limit.
    pub memory: u64,
    /// Whether a line with the trace follows each block.
    pub trace: bool,
}

impl Settings {
    /// The settings that a script begins with.
    pub fn new() -> Settings
        ensures { result ≡ default_settings }
    {
        Settings {
            merge: true,
            intersection: true,
            union_on: true,
            sort_union: true,
            skip: true,
            dive_limit: 200,
            memory: 8_388_608,
            trace: false,
        }
    }

    fn set(&mut self, setting: Setting)
        ensures { self.new ≡ with_setting self.old setting }
    {
        match setting {
            Setting::Merge(on) => self.merge = on,
            Setting::Intersection(on) => self.intersection = on,
            Setting::UnionOn(on) => self.union_on = on,
            Setting::SortUnion(on) => self.sort_union = on,
            Setting::Skip(on) => self.skip = on,
            Setting::DiveLimit(limit) => self.dive_limit = limit,
            Setting::Memory(bytes) => self.memory = bytes,
            Setting::Trace(on) => self.trace = on,
        }
    }
}

/// The settings after the places of a SET statement: what it sets has its last value, the rest
/// stays.
pub fn apply(settings: &Settings, change: &SettingList) -> Settings
    ensures { result ≡ applied settings.now change.now }
{
    let mut after = *settings;
    for setting in change.as_slice() {
        after.set(*setting);
    }
    after
}
