ghost use Rattle.std.specs.Prelude.{◌≡◌, [], ◌∷◌, Some, option_copied, unwrap_or, refl, IfSome, IfNone};
ghost use Rattle.rx_value.specs.Order.{value_cmp};
ghost use Rattle.rx_value.specs.declared.values.Value.TheVariants.{Null};
ghost use Rattle.rx_group.specs.Classes.{values_at, values_cmp, same_values};
ghost use Rattle.rx_group.specs.OrderLaws.{values_equiv, values_per, values_po, values_total};

use rx_value::{Row, Value, compare};
use std::cmp::Ordering;
use std::marker::Model;

/// Values of a row, which stay where they are. Seen by contracts as these values.
#[derive(Drop)]
pub struct Tuple<'a> {
    values: &'a [Value],
    columns: Option<&'a [u32]>,
}

impl<'a> Model for Tuple<'a> {
    ghost use Rattle.std.specs.Prelude.{List, option_copied};
    ghost use Rattle.rx_value.specs.declared.values.Value.{Value as value};
    ghost use Rattle.rx_group.specs.Classes.{values_if};

    ghost Value = { List value };

    ghost view = { λ t. values_if (option_copied t.columns) t.values.now };
}

impl<'a> Tuple<'a> {
    /// The values of a row at these columns, NULL for one that isn't there.
    pub fn at(row: &'a Row, columns: &'a [u32]) -> Tuple<'a>
        ensures { result ≡ values_at columns.now row.now }
    {
        Tuple {
            values: row.as_slice(),
            columns: Some(columns),
        }
    }

    /// All values of a row.
    pub fn whole(row: &'a Row) -> Tuple<'a>
        ensures { result ≡ row.now }
    {
        Tuple {
            values: row.as_slice(),
            columns: None,
        }
    }

    // The same values.
    fn again(&self) -> Tuple<'a>
        ensures { result ≡ self.now }
    {
        Tuple {
            values: self.values,
            columns: self.columns,
        }
    }

    // The first value and the rest.
    fn split(&self) -> Option<(Option<&'a Value>, Tuple<'a>)>
        ensures some { IfSome result (λ parts. self.now ≡ unwrap_or (option_copied parts.0) Null ∷ parts.1) }
        ensures none { IfNone result (self.now ≡ []) }
    {
        match self.columns {
            None => match self.values {
                [] => None,
                [first, values @ ..] => Some((
                    Some(first),
                    Tuple {
                        values,
                        columns: None,
                    },
                )),
            },
            Some([]) => None,
            Some([column, columns @ ..]) => Some((
                self.values.get(*column as usize),
                Tuple {
                    values: self.values,
                    columns: Some(columns),
                },
            )),
        }
    }
}

/// Values in their order, NULL for one that isn't there.
pub fn compare_found(a: Option<&Value>, b: Option<&Value>) -> Ordering
    ensures { result ≡ value_cmp (unwrap_or (option_copied a.entry) Null) (unwrap_or (option_copied b.entry) Null) }
{
    match (a, b) {
        (Some(a), Some(b)) => compare(a, b),
        (Some(a), None) => compare(a, &Value::Null),
        (None, Some(b)) => compare(&Value::Null, b),
        (None, None) => Ordering::Equal,
    }
}

fn compare_tuples(a: &Tuple<'_>, b: &Tuple<'_>) -> Ordering
    ensures { result ≡ values_cmp a.now b.now }
{
    let mut left = a.again();
    let mut right = b.again();
    'values: loop {
        match (left.split(), right.split()) {
            (None, None) => return Ordering::Equal,
            (None, Some(_)) => return Ordering::Less,
            (Some(_), None) => return Ordering::Greater,
            (Some((v, rest)), Some((w, others))) => match compare_found(v, w) {
                Ordering::Equal => {
                    left = rest;
                    right = others;
                }
                order => return order,
            },
        }
    }
}

impl<'a> PartialEq for Tuple<'a> {
    ghost eq = { λ x y. same_values x y };

    ghost laws = { values_per };

    fn eq(&self, other: &Self) -> bool {
        self.cmp(other) == Ordering::Equal
    }
}

impl<'a> Eq for Tuple<'a> {
    ghost laws = { values_equiv };
}

impl<'a> PartialOrd for Tuple<'a> {
    ghost partial_cmp = { λ x y. Some (values_cmp x y) };

    ghost laws = { values_po };

    fn partial_cmp(&self, other: &Self) -> Option<Ordering> {
        Some(self.cmp(other))
    }
}

impl<'a> Ord for Tuple<'a> {
    ghost cmp = { λ x y. values_cmp x y };

    ghost total = { values_total };

    ghost matches_partial_cmp = { λ x y. refl };

    ghost matches_eq = { λ x y. refl };

    fn cmp(&self, other: &Self) -> Ordering {
        compare_tuples(self, other)
    }
}
