//! Marks of the nodes that a link leads to.

ghost use Rattle.std.specs.Prelude.{◌≡◌, ◌≤◌, ℕ, Bool, false, List, [], length, get_or};
ghost use Rattle.std.specs.List.{count_by};
ghost use Rattle.rx_level.specs.Store.{IsSound};
ghost use Rattle.rx_level.specs.Under.{IsClosed, IsMarking, IsNumberUnder};

use crate::links::Link;
use crate::nodes::Node;
use slab::Slab;

// Marks each node that a link leads to, at once or over links. What a marked node leads to is marked
// already.
fn mark(nodes: &Slab<Node>, marks: &mut [bool], root: Link)
    requires sound { IsSound nodes.now [] }
    requires long { length nodes.now.slots ≤ length marks.old }
    requires closed { IsClosed nodes.now marks.old }
    ensures { IsMarking nodes.now root marks.old marks.new }
{
    let Some(key) = root else {
        return;
    };
    let Some(node) = nodes.get(key) else {
        return;
    };
    if marks[key] {
        return;
    }
    mark(nodes, marks, node.child);
    mark(nodes, marks, node.left);
    mark(nodes, marks, node.right);
    marks[key] = true;
}

// How many marks there are.
fn count_marks(marks: &[bool]) -> u64
    ensures { result ≡ count_by (λ marked. marked) marks.now }
{
    marks.iter().filter(|marked| **marked).count() as u64
}

/// How many nodes a link leads to, at once or over links. No node is marked before.
pub fn count_under(nodes: &Slab<Node>, marks: &mut [bool], root: Link) -> u64
    requires sound { IsSound nodes.now [] }
    requires long { length nodes.now.slots ≤ length marks.old }
    requires unmarked { (m : ℕ) → get_or marks.old m false ≡ false }
    ensures { IsNumberUnder nodes.now root result }
{
    mark(nodes, marks, root);
    count_marks(marks)
}
