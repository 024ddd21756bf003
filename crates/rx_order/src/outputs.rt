ghost use Rattle.std.specs.Prelude.{◌≡◌};

use rx_value::{Row, Value};
use std::marker::Model;

/// An output row, and the row that it was made of, whose columns ORDER BY may name. Seen by contracts as both.
#[derive(Drop)]
pub struct Output<'a> {
    pub(crate) values: Row,
    pub(crate) source: &'a [Value],
}

impl<'a> Model for Output<'a> {
    ghost use Rattle.std.specs.Prelude.{List};
    ghost use Rattle.rx_value.specs.declared.values.Value.{Value as value};

    ghost Value = { List value × List value };

    ghost view = { λ o. (o.values, o.source.now) };
}

impl<'a> Output<'a> {
    /// An output row beside the row that it was made of.
    pub fn new(values: Row, source: &'a [Value]) -> Output<'a>
        ensures { result ≡ (values, source.now) }
    {
        Output { values, source }
    }

    /// The output row alone.
    pub fn into_values(self) -> Row
        ensures { result ≡ self.entry.0 }
    {
        self.values
    }
}
