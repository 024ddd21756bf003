ghost use Rattle.std.specs.Prelude.{◌≡◌, Some};
ghost use Rattle.rx_graph.specs.Graph.{link_of};

use rx_level::Link;
use std::marker::Model;

/// Where the tree of a handle begins: everything and nothing have no items.
#[derive(Clone, Copy, Debug, PartialEq, Eq)]
pub enum Root {
    Everything,
    Nothing,
    Items(usize),
}

/// A tree in use. It must be spent, since the arena counts its handles.
pub struct Handle {
    root: Root,
}

impl Model for Handle {
    ghost use Rattle.rx_graph.specs.declared.handles.Root.{Root};

    ghost Value = { Root };

    ghost view = { λ h. h.root };
}

impl Handle {
    /// The handle of a root, for crates that hold levels.
    pub fn of(root: Root) -> Handle
        ensures { result ≡ root }
    {
        Handle { root }
    }

    /// The root of a handle, which is held on.
    pub fn root(&self) -> Root
        ensures { result ≡ self.now }
    {
        self.root
    }

    /// The link to the level of a handle, none where its tree has no items.
    pub fn link(&self) -> Link
        ensures { result ≡ link_of self.now }
    {
        match self.root {
            Root::Items(key) => Some(key),
            Root::Everything => None,
            Root::Nothing => None,
        }
    }

    /// The root of a handle that is spent: the root is held in its place.
    pub fn into_root(self) -> Root
        ensures { result ≡ self }
    {
        let Handle { root } = self;
        root
    }
}
