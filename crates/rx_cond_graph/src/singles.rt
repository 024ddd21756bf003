//! The graphs of single tests, by the columns and constants that they name.

ghost use Rattle.std.specs.Prelude.{◌≡◌, true, [], IfOk, IfErr, OnErr, length};
ghost use Rattle.rx_graph.specs.Graph.{Steps};
ghost use Rattle.rx_cond.specs.Tree.{tree_of, truth_at};
ghost use Rattle.rx_regions.specs.Cans.{can_be, is_so};
ghost use Rattle.rx_regions.specs.Places.{turned};
ghost use Rattle.rx_cond_graph.specs.Giving.{GivesTreeOf, is_single};

use crate::leaves::{all_or_none, compared, listed, patterned};
use crate::rows::rows;
use rx_cond::{Cond, Op, Operand, Tri, truth};
use rx_graph::{Arena, GraphFault, Handle};
use rx_value::{Part, Row, Value};
use std::alloc::Global;

fn is_so(sign: bool, tri: Tri) -> bool
    ensures { result ≡ is_so sign tri }
{
    match tri {
        Tri::T => sign,
        Tri::F => !sign,
        Tri::N => false,
    }
}

// The comparison with its sides exchanged.
fn turned(op: Op) -> Op
    ensures { result ≡ turned op }
{
    match op {
        Op::Lt => Op::Gt,
        Op::Le => Op::Ge,
        Op::Gt => Op::Lt,
        Op::Ge => Op::Le,
        Op::Eq | Op::SafeEq | Op::Ne => op,
    }
}

// The graph of a condition whose truth no row decides: all keys, or none.
fn known(alloc: Global, arena: &mut Arena, sign: bool, cond: &Cond) -> Result<Handle, GraphFault>
    ensures ok { IfOk result (λ h. GivesTreeOf (λ ps. is_so sign (truth_at (tree_of cond.now) [])) arena.old arena.new h) }
    ensures only { IfErr result (λ fault. fault ≡ GraphFault.NoMemory) }
    ensures err { OnErr result (Steps arena.old arena.new [] []) }
{
    all_or_none(arena, is_so(sign, truth(cond, &Row::new(alloc))))
}

/// The graph of the keys at which a single test can have this truth.
pub(crate) fn single(
    alloc: Global,
    arena: &mut Arena,
    parts: &[Part],
    sign: bool,
    cond: &Cond,
) -> Result<Handle, GraphFault>
    requires single { is_single (tree_of cond.now) ≡ true }
    requires parts { length parts.now ≡ length arena.old.nullable }
    ensures ok { IfOk result (λ h. GivesTreeOf (can_be sign (tree_of cond.now) parts.now) arena.old arena.new h) }
    ensures only { IfErr result (λ fault. fault ≡ GraphFault.NoMemory) }
    ensures err { OnErr result (Steps arena.old arena.new [] []) }
{
    match cond {
        Cond::Compare { op, left, right } => match (left, right) {
            (Operand::Column(column), Operand::Constant(value)) => compared(
                alloc, arena, parts, sign, *op, *column, value,
            ),
            (Operand::Constant(value), Operand::Column(column)) => compared(
                alloc,
                arena,
                parts,
                sign,
                turned(*op),
                *column,
                value,
            ),
            (Operand::Column(_), Operand::Column(_)) => all_or_none(arena, true),
            (Operand::Constant(_), Operand::Constant(_)) => known(alloc, arena, sign, cond),
        },
        Cond::IsNull(Operand::Column(column)) => compared(
            alloc,
            arena,
            parts,
            sign,
            Op::SafeEq,
            *column,
            &Value::Null,
        ),
        Cond::Member {
            left: Operand::Column(column),
            list,
        } => listed(alloc, arena, parts, sign, *column, list.as_slice()),
        Cond::RowMember { columns, list } if sign => rows(
            alloc,
            arena,
            parts,
            columns.as_slice(),
            list.as_slice(),
        ),
        Cond::Like { column, pattern } if sign => patterned(
            alloc,
            arena,
            parts,
            *column,
            pattern.as_slice(),
        ),
        Cond::RowMember { .. } | Cond::Like { .. } => all_or_none(arena, true),
        _ => known(alloc, arena, sign, cond),
    }
}
