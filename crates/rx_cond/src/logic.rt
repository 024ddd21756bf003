ghost use Rattle.std.specs.Prelude.{◌≡◌};
ghost use Rattle.rx_cond.specs.Tri.{three_not, three_and, three_or, tri_of};

use crate::conds::Tri;

pub(crate) fn tri(holds: bool) -> Tri
    ensures { result ≡ tri_of holds }
{
    if holds { Tri::T } else { Tri::F }
}

pub(crate) fn negated(a: Tri) -> Tri
    ensures { result ≡ three_not a }
{
    match a {
        Tri::T => Tri::F,
        Tri::F => Tri::T,
        Tri::N => Tri::N,
    }
}

pub(crate) fn both(a: Tri, b: Tri) -> Tri
    ensures { result ≡ three_and a b }
{
    match (a, b) {
        (Tri::F, _) | (_, Tri::F) => Tri::F,
        (Tri::T, Tri::T) => Tri::T,
        _ => Tri::N,
    }
}

pub(crate) fn either(a: Tri, b: Tri) -> Tri
    ensures { result ≡ three_or a b }
{
    match (a, b) {
        (Tri::T, _) | (_, Tri::T) => Tri::T,
        (Tri::F, Tri::F) => Tri::F,
        _ => Tri::N,
    }
}
