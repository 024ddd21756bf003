//! Answers see only the columns that a question names, and only the rows at which its WHERE is true. There is
//! nothing to run here; each law is the contract of an empty function.
#![tactic(auto)]

mod laws;

pub use laws::{
    answers_see_named_columns, answers_see_true_rows, seen_rows_keep_columns,
    truth_sees_named_columns, visits_answer,
};
