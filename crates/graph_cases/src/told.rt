//! What is told of a case.

/// What a graph is made of. `other` is the size of the tree that was shared before the call, `alone` the number of
/// items of the arena when that one is given back, `second` the size of a second graph, and of two facts 1 stands for yes.
#[derive(Clone, Copy, Drop)]
pub struct Told {
    /// The items of the first level.
    pub first: u64,
    /// The items of the tree, those of a shared level counted at each place.
    pub size: u64,
    /// The different items.
    pub items: u64,
    /// The items of the arena.
    pub live: u64,
    pub handles: u64,
    pub other: u64,
    pub alone: u64,
    pub second: u64,
    pub nothing: u64,
    pub same: u64,
    /// The height of a level.
    pub height: u64,
}

impl Told {
    /// Nothing is told yet.
    pub fn new() -> Told {
        Told {
            first: 0,
            size: 0,
            items: 0,
            live: 0,
            handles: 0,
            other: 0,
            alone: 0,
            second: 0,
            nothing: 0,
            same: 0,
            height: 0,
        }
    }

    /// The value of a word, none where the word asks for nothing. 'live<=9' is 1 where the value of 'live' is at most 9.
    pub fn value(&self, word: &str) -> Option<u64> {
        let Some((word, bound)) = word.split_once("<=") else {
            return self.field(word);
        };
        let value = self.field(word)?;
        match bound.parse::<u64>() {
            Ok(bound) => Some(u64::from(value <= bound)),
            Err(_) => None,
        }
    }

    // The value that has this name.
    fn field(&self, word: &str) -> Option<u64> {
        match word {
            "first" => Some(self.first),
            "size" => Some(self.size),
            "items" => Some(self.items),
            "live" => Some(self.live),
            "handles" => Some(self.handles),
            "other" => Some(self.other),
            "alone" => Some(self.alone),
            "second" => Some(self.second),
            "nothing" => Some(self.nothing),
            "same" => Some(self.same),
            "height" => Some(self.height),
            _ => None,
        }
    }
}
