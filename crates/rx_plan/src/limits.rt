ghost use Rattle.std.specs.Prelude.{◌≡◌, ◌≤◌};
ghost use Rattle.rx_plan.specs.Known.{items_limit};

/// The most items that the graph of a condition may have by `range_optimizer_max_mem_size`, which is in bytes: one for each
/// 230 bytes, and no more than a million, as also where it is 0 (MySQL manual, "Limiting Memory Use for Range
/// Optimization").
pub fn items_limit(memory: u64) -> u64
    ensures value { result ≡ items_limit memory }
    ensures within { result ≤ 1000000 }
{
    if memory == 0 {
        return 1_000_000;
    }
    (memory / 230).min(1_000_000)
}
