ghost use Rattle.std.specs.Prelude.{◌≡◌, ◌<◌, length};
ghost use Rattle.rx_index.specs.Entries.{IsEntered, IsOrder, parts_at, ids_at, different_at};
ghost use Rattle.rx_index.specs.Different.{AreDifferent};

use rx_value::{OrderLists, Part, RowList, Schema};

/// The rows of a table in the order of their ids, and per index the ids in the order of its entries: by key, and where
/// keys are equal by rising id.
#[derive(Drop)]
pub struct Indexed {
    pub schema: Schema,
    /// By primary key, or as in the file where there is none.
    pub rows: RowList,
    pub orders: OrderLists,
    /// Per index how many different keys its entries have on its first part, on its first two, and so on.
    pub different: OrderLists,
}

impl Indexed {
    /// The parts of an index by its number.
    pub fn parts(&self, index: u32) -> &[Part]
        requires { index < length self.now.schema.indexes }
        ensures { result.now ≡ parts_at self.now index }
    {
        self.schema.indexes.as_slice()[index as usize]
            .parts
            .as_slice()
    }

    /// The ids of an index by its number, in the order of its entries.
    pub fn ids(&self, index: u32) -> &[u32]
        requires entered { IsEntered self.now }
        requires there { index < length self.now.schema.indexes }
        ensures value { result.now ≡ ids_at self.now index }
        ensures order { IsOrder (parts_at self.now index) self.now.rows result.now }
    {
        self.orders.as_slice()[index as usize].as_slice()
    }

    /// How many different keys an index by its number has on its first part, on its first two, and so on.
    pub fn different(&self, index: u32) -> &[u32]
        requires entered { IsEntered self.now }
        requires there { index < length self.now.schema.indexes }
        ensures value { result.now ≡ different_at self.now index }
        ensures different { AreDifferent (parts_at self.now index) self.now.rows result.now }
    {
        self.different.as_slice()[index as usize].as_slice()
    }
}
