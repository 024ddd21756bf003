ghost use Rattle.std.specs.Prelude.{◌≡◌, ◌≤◌};
ghost use Rattle.rx_cost.specs.Costs.{most_counted, most_summed, digits_of, table_cost_of, index_cost_of, group_cost_of, skip_cost_of, range_cost_of, ids_cost_of, intersect_cost_of, union_cost_of, sort_union_cost_of};

/// The cost of the scan of a table of so many rows (MySQL manual, "Avoiding Full Table Scans").
pub fn table_cost(rows: u64) -> u64
    requires { rows ≤ most_counted }
    ensures { result ≡ table_cost_of rows }
{
    20 * (1 + rows / 50) + 2 * rows
}

/// The cost of the scan of all entries of an index, as many as the table has rows (MySQL manual, "EXPLAIN Output Format",
/// join type `index`).
pub fn index_cost(rows: u64) -> u64
    requires { rows ≤ most_counted }
    ensures { result ≡ index_cost_of rows }
{
    20 * (1 + rows / 200) + 2 * rows
}

/// The cost of a loose scan of so many groups, each by so many seeks and entries (MySQL manual, "GROUP BY Optimization",
/// "Loose Index Scan").
pub fn group_cost(groups: u64, seeks: u64, entries: u64) -> u64
    requires groups { groups ≤ most_counted }
    requires seeks { seeks ≤ most_counted }
    requires entries { entries ≤ most_counted }
    ensures { result ≡ group_cost_of groups seeks entries }
{
    groups * (20 * seeks + 2 * entries)
}

/// The cost of a skip scan from so many heads over so many groups, with so many spans of the part behind them, that gives so
/// many rows (MySQL manual, "Range Optimization", "Skip Scan Range Access Method").
pub fn skip_cost(heads: u64, groups: u64, spans: u64, rows: u64) -> u64
    requires heads { heads ≤ most_counted }
    requires groups { groups ≤ most_counted }
    requires spans { spans ≤ most_counted }
    requires rows { rows ≤ most_counted }
    ensures { result ≡ skip_cost_of heads groups spans rows }
{
    20 * heads + 20 * groups * (1 + spans) + 3 * rows + 20 * (rows / 200)
}

/// The cost of a scan of so many ranges that gives so many rows: of the primary key, of an index that has all columns of the
/// query, or of another (MySQL manual, "Range Optimization").
pub fn range_cost(ranges: u64, rows: u64, primary: bool, index_only: bool) -> u64
    requires ranges { ranges ≤ most_counted }
    requires rows { rows ≤ most_counted }
    ensures { result ≡ range_cost_of ranges rows primary index_only }
{
    if index_only {
        20 * ranges + 3 * rows + 20 * (rows / 200)
    } else if primary {
        20 * ranges + 3 * rows + 20 * (rows / 50)
    } else {
        20 * ranges + 23 * rows
    }
}

/// The cost of the row ids of a scan of so many ranges that gives so many rows (MySQL manual, "Index Merge Optimization").
pub fn ids_cost(ranges: u64, rows: u64) -> u64
    requires ranges { ranges ≤ most_counted }
    requires rows { rows ≤ most_counted }
    ensures { result ≡ ids_cost_of ranges rows }
{
    20 * ranges + rows + 20 * (rows / 200)
}

/// The cost of an intersection that gives so many rows, from the ids of its scans and the ranges of its filter (MySQL
/// manual, "Index Merge Optimization", "Index Merge Intersection Access Algorithm").
pub fn intersect_cost(ids: u64, filters: u64, rows: u64, index_only: bool) -> u64
    requires ids { ids ≤ most_summed }
    requires filters { filters ≤ most_summed }
    requires rows { rows ≤ most_summed }
    ensures { result ≡ intersect_cost_of ids filters rows index_only }
{
    let each = if index_only { 2 } else { 22 };
    ids + 20 * filters + each * rows
}

/// The cost of a union that gives so many rows, from the ids of its members (MySQL manual, "Index Merge Optimization",
/// "Index Merge Union Access Algorithm").
pub fn union_cost(ids: u64, rows: u64) -> u64
    requires ids { ids ≤ most_summed }
    requires rows { rows ≤ most_summed }
    ensures { result ≡ union_cost_of ids rows }
{
    ids + 22 * rows
}

/// The cost of a union that gives so many rows, from the ids of its scans, which are sorted (MySQL manual, "Index Merge
/// Optimization", "Index Merge Sort-Union Access Algorithm").
pub fn sort_union_cost(ids: u64, rows: u64) -> u64
    requires ids { ids ≤ most_summed }
    requires rows { rows ≤ most_summed }
    ensures { result ≡ sort_union_cost_of ids rows }
{
    ids + rows * u64::from(digits(rows)) + 22 * rows
}

// How many binary digits a number has.
fn digits(n: u64) -> u32
    ensures exact { result ≡ digits_of n }
    ensures few { result ≤ 64 }
{
    if n == 0 { 0 } else { n.ilog2() + 1 }
}
