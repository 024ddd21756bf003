//! That each call does to the list of held handles what is said of it.

ghost use Rattle.std.specs.Prelude.{◌<◌, ◌-◌, ◌^◌, ◌++◌, ℕ, List, [], ◌∷◌, IfOk, OnErr};
ghost use Rattle.rx_tree.specs.Points.{AreSpansAt};
ghost use Rattle.rx_graph.specs.declared.handles.Root.{Root};
ghost use Rattle.rx_graph.specs.Graph.{IsHeld, handle_count};
ghost use Rattle.rx_graph_laws.specs.Operations.{Operation, without, without_two};
ghost use Rattle.rx_graph_laws.specs.Runs.{Does, AreRootsAt, IsRootAt, with_handles};

use rx_graph::{Arena, GraphFault, Handle};
use rx_value::SpanList;
use std::alloc::{AllocError, Global};

fn everything(arena: &mut Arena) -> Handle
    requires { handle_count arena.old < 2 ^ 32 - 1 }
    ensures { (roots : List Root) → Does Operation.add_everything (with_handles arena.old roots) (with_handles arena.new (roots ++ result ∷ [])) }
{
    arena.everything()
}

fn nothing(arena: &mut Arena) -> Handle
    requires { handle_count arena.old < 2 ^ 32 - 1 }
    ensures { (roots : List Root) → Does Operation.add_nothing (with_handles arena.old roots) (with_handles arena.new (roots ++ result ∷ [])) }
{
    arena.nothing()
}

fn point_set(arena: &mut Arena, part: u32, spans: SpanList) -> Result<Handle, AllocError>
    requires spans { AreSpansAt arena.old.nullable part spans }
    requires few { handle_count arena.old < 2 ^ 32 - 1 }
    ensures ok { IfOk result (λ r. (roots : List Root) → Does (Operation.add_points part spans) (with_handles arena.old roots) (with_handles arena.new (roots ++ r ∷ []))) }
    ensures err { OnErr result ((roots : List Root) → Does Operation.refused_points (with_handles arena.old roots) (with_handles arena.new roots)) }
{
    arena.point_set(part, spans)
}

fn share(arena: &mut Arena, h: &Handle) -> Handle
    requires held { IsHeld arena.old (h.now ∷ []) }
    requires few { handle_count arena.old < 2 ^ 32 - 1 }
    ensures { (roots : List Root) (i : ℕ) → IsRootAt i roots h.now → Does (Operation.share i) (with_handles arena.old roots) (with_handles arena.new (roots ++ result ∷ [])) }
{
    arena.share(h)
}

fn release(arena: &mut Arena, h: Handle)
    requires { IsHeld arena.old (h ∷ []) }
    ensures { (roots : List Root) (i : ℕ) → IsRootAt i roots h → Does (Operation.release i) (with_handles arena.old roots) (with_handles arena.new (without i roots)) }
{
    arena.release(h);
}

fn and(
    alloc: Global,
    arena: &mut Arena,
    g: Handle,
    h: Handle,
    limit: u64,
) -> Result<Handle, GraphFault>
    requires held { IsHeld arena.old (g ∷ h ∷ []) }
    ensures ok { IfOk result (λ r. (roots : List Root) (i j : ℕ) → AreRootsAt i j roots g h → Does (Operation.meet i j) (with_handles arena.old roots) (with_handles arena.new (without_two i j roots ++ r ∷ []))) }
    ensures err { OnErr result ((roots : List Root) (i j : ℕ) → AreRootsAt i j roots g h → Does (Operation.refused_meet i j) (with_handles arena.old roots) (with_handles arena.new (without_two i j roots))) }
{
    rx_and::and(alloc, arena, g, h, limit)
}

fn or(
    alloc: Global,
    arena: &mut Arena,
    g: Handle,
    h: Handle,
    limit: u64,
) -> Result<Handle, GraphFault>
    requires held { IsHeld arena.old (g ∷ h ∷ []) }
    ensures ok { IfOk result (λ r. (roots : List Root) (i j : ℕ) → AreRootsAt i j roots g h → Does (Operation.unite i j) (with_handles arena.old roots) (with_handles arena.new (without_two i j roots ++ r ∷ []))) }
    ensures err { OnErr result ((roots : List Root) (i j : ℕ) → AreRootsAt i j roots g h → Does (Operation.refused_unite i j) (with_handles arena.old roots) (with_handles arena.new (without_two i j roots))) }
{
    rx_or::or(alloc, arena, g, h, limit)
}
