//! What leads to a level.

/// The number of a level's topmost item, none where the level has no items. What leads there is held
/// by somebody else, or stands in the store: it is read, and isn't spent.
pub type Link = Option<usize>;

/// The same of a level that is held: it must be spent once, by what takes it over or by `free`, since
/// the store counts what is held.
pub type Owned = Option<usize>;
