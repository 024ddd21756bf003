//! The one answer of a condition on an index: nothing to run, each law is the contract of an empty function.

ghost use Rattle.std.specs.Prelude.{◌≡◌, ℕ, List};
ghost use Rattle.rx_value.specs.declared.shapes.Column.{Column as column_record};
ghost use Rattle.rx_value.specs.declared.shapes.Part.{Part as part_record};
ghost use Rattle.rx_cond.specs.Tree.{Tree};
ghost use Rattle.rx_ranges.specs.Answers.{Answer as answer_data, IsAnswer};
ghost use Rattle.rx_build.specs.Given.{answer_for};

/// The answer that is given as a function is an answer of the condition on the index, and the only one.
#[tactic(auto, using(crate::proofs::Given::given_is_answer, crate::proofs::Given::answer_is_given))]
pub fn answers_are_given()
    ensures is { (columns : List column_record) (parts : List part_record) (limit : ℕ) (t : Tree) → IsAnswer columns parts limit t (answer_for columns parts limit t) }
    ensures only { (columns : List column_record) (parts : List part_record) (limit : ℕ) (t : Tree) (a : answer_data) → IsAnswer columns parts limit t a → a ≡ answer_for columns parts limit t }
{}
