ghost use Rattle.std.specs.Prelude.{◌≡◌, [], ◌∷◌, ◌++◌, IfOk, OnOk, OnErr, IfSome, IfNone, length};

use crate::bytes::Bytes;
use crate::copies::Copied;
use crate::values::Value;
use std::alloc::{AllocError, Global};
use std::marker::Model;

/// Items in order, seen by contracts as a list.
#[derive(Drop)]
pub struct List<T> {
    items: Vec<T>,
}

impl<T> Model for List<T> {
    ghost use Rattle.std.specs.Prelude.{List as list};
    ghost use Rattle.std.specs.Coded.{coded_list};

    ghost Value = { list T };

    ghost coded = { coded_list T.code };

    ghost view = { λ l. l.items.items };
}

impl<T> List<T> {
    /// The empty list. Takes no memory.
    pub fn new(alloc: Global) -> List<T>
        ensures { result ≡ [] }
    {
        List {
            items: Vec::new(alloc),
        }
    }

    /// The empty list with room for so many items. The error is want of memory.
    pub fn with_capacity(alloc: Global, count: usize) -> Result<List<T>, AllocError>
        ensures { IfOk result (λ l. l ≡ []) }
    {
        let items = Vec::with_capacity(alloc, count)?;
        Ok(List { items })
    }

    /// The list of these items. Takes no memory.
    pub fn from_vec(items: Vec<T>) -> List<T>
        ensures { result ≡ items.items }
    {
        List { items }
    }

    /// The items as a vector. Takes no memory.
    pub fn into_vec(self) -> Vec<T>
        ensures { result.items ≡ self }
    {
        self.items
    }

    /// Adds an item at the end. A refused call leaves the list, and drops the item.
    pub fn push(&mut self, item: T) -> Result<(), AllocError>
    where
        T: Drop,
        ensures ok { OnOk result (self.new ≡ self.old ++ item ∷ []) }
        ensures err { OnErr result (self.new ≡ self.old) }
    {
        self.items.push(item)?;
        Ok(())
    }

    /// Takes out the last item.
    pub fn pop(&mut self) -> Option<T>
        ensures some { IfSome result (λ last. self.old ≡ self.new ++ last ∷ []) }
        ensures none { IfNone result (self.old ≡ []) }
        ensures empty { IfNone result (self.new ≡ []) }
    {
        self.items.pop()
    }

    /// The items in order.
    pub fn as_slice(&self) -> &[T]
        ensures { result.now ≡ self.now }
    {
        self.items.as_slice()
    }

    /// How many items there are.
    pub fn len(&self) -> usize
        ensures { result ≡ length self.now }
    {
        self.items.len()
    }
}

impl<T: Copied> List<T> {
    /// The same items in memory of their own. The error is want of memory.
    pub fn copy(&self, alloc: Global) -> Result<List<T>, AllocError>
        ensures { IfOk result (λ c. c ≡ self.now) }
    {
        let mut copies = List::with_capacity(alloc, self.len())?;
        for item in self.as_slice() {
            copies.push(item.copied(alloc)?)?;
        }
        Ok(copies)
    }
}

impl<T: Copied> Copied for List<T> {
    fn copied(&self, alloc: Global) -> Result<List<T>, AllocError> {
        self.copy(alloc)
    }
}

/// The key of a row in one index: its values in the order of the parts.
pub type Key = List<Value>;
/// A row: its values in the order of the columns.
pub type Row = List<Value>;
/// Keys in order.
pub type KeyList = List<Key>;
/// Lists of keys in order.
pub type KeyLists = List<KeyList>;
/// Rows in order.
pub type RowList = List<Row>;
/// Numbers of columns, indexes or places.
pub type NumberList = List<u32>;
/// Per index, numbers of rows in its order.
pub type OrderLists = List<NumberList>;
/// Truth values in order.
pub type BoolList = List<bool>;
/// Names in order.
pub type NameList = List<Bytes>;
