//! What the answers of all questions keep, as laws over the definitions that `finish` names: nothing to run.

ghost use Rattle.std.specs.Prelude.{◌≡◌, true, List, IsPermutation};
ghost use Rattle.std.specs.List.Sorted.{IsSortedBy};
ghost use Rattle.rx_value.specs.declared.values.Value.{Value as value};
ghost use Rattle.rx_query.specs.Grouping.{grouped};
ghost use Rattle.rx_query.specs.Steps.{Question};
ghost use Rattle.rx_order.specs.Order.{is_before, in_order};
ghost use Rattle.rx_rows.specs.Finish.{outputs_of, answered};

/// Rows in another order have the same answer but for its order, whatever groups, DISTINCT and ORDER BY a question has, where
/// no column of it stands for many rows at once.
#[tactic(auto, using(crate::proofs::Bags::answers_are_bags))]
pub fn answers_are_bags()
    ensures { (q : Question) → grouped q ≡ true → (xs ys : List (List value)) → IsPermutation xs ys → IsPermutation (answered q xs) (answered q ys) }
{}

/// The output rows of an answer rise by ORDER BY: none is to stand before the one in front of it.
#[tactic(auto, using(crate::proofs::Bags::answers_are_in_order))]
pub fn answers_are_in_order()
    ensures { (q : Question) (rows : List (List value)) → IsSortedBy (is_before q.order) (in_order q.order (outputs_of q rows)) }
{}
