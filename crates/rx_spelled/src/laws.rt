ghost use Rattle.std.specs.Prelude.{◌≡◌, ◌==◌, ◌||◌, ◌∷◌, ℕ, true, List, Option, None, Result, Ok, All, IfOk};
ghost use Rattle.rx_value.specs.declared.shapes.Column.{Column};
ghost use Rattle.rx_value.specs.declared.shapes.Schema.{Schema};
ghost use Rattle.rx_token.specs.declared.kinds.Token.{Token};
ghost use Rattle.std.specs.Str.{IsUtf8};
ghost use Rattle.rx_token.specs.Lexeme.{lexeme_at};
ghost use Rattle.rx_token.specs.Quotes.{IsTextIn};
ghost use Rattle.rx_token.specs.Scan.{Scans, token_list};
ghost use Rattle.rx_where.specs.Grammar.{Test, SpellsTest, test_tree, IsCond};
ghost use Rattle.rx_where.specs.Raw.{RawTree};
ghost use Rattle.rx_where.specs.Resolution.{resolved};
ghost use Rattle.rx_query.specs.declared.statements.Numbered.{Numbered};
ghost use Rattle.rx_query.specs.Steps.{Step, step_of};
ghost use Rattle.rx_statement.specs.declared.faults.ScriptFault.{ScriptFault};
ghost use Rattle.rx_statement.specs.Outcomes.{Answers};
ghost use Rattle.rx_statement.specs.Script.{read_of};
ghost use Rattle.rx_regions.specs.Texts.{ComparesUtf8};
ghost use Rattle.rx_spelled.specs.Utf8.{HaveUtf8, RawComparesUtf8, StepAsksUtf8};

/// Of the tokens of any bytes, each text between quotes is UTF-8. Where the text that is spelled between quotes isn't, no
/// token fits; that is judged by the text, and not by the bytes with backslashes and doubled quotes that spell it.
///
/// [MySQL 8.0, "String Literals"](https://dev.mysql.com/doc/refman/8.0/en/string-literals.html)
pub fn tokens_have_utf8()
    ensures all { (text : List ℕ) → HaveUtf8 (token_list text) }
    ensures scanned { (at : ℕ) (bytes : List ℕ) (ts : List Token) (bad : Option ℕ) → Scans at bytes ts bad → HaveUtf8 ts }
    ensures refused { (quote : ℕ) (bytes : List ℕ) (x : List ℕ × ℕ) → (quote == 39 || quote == 34) ≡ true → IsTextIn quote bytes x → (IsUtf8 x.0 → ⊥) → lexeme_at (quote ∷ bytes) ≡ None }
{}

/// A test or a condition that tokens with texts in UTF-8 begin with compares texts in UTF-8 alone by an operator, and so
/// it does with numbers of columns in place of names.
pub fn conditions_compare_utf8()
    ensures tests { (t : Test) (ts rest : List Token) → HaveUtf8 ts → SpellsTest t ts rest → RawComparesUtf8 (test_tree t) }
    ensures spelled { (ts rest : List Token) (tree : RawTree) → HaveUtf8 ts → IsCond ts tree rest → RawComparesUtf8 tree }
    ensures resolved { (columns : List Column) (tree : RawTree) → RawComparesUtf8 tree → ComparesUtf8 (resolved columns tree) }
{}

/// The condition of each SELECT of a script that is read compares texts in UTF-8 alone by an operator: of the steps that
/// a text asks for, and of what `read_script` answers.
pub fn scripts_compare_utf8()
    ensures steps { (schema : Schema) (text : List ℕ) (steps : List Step) → read_of schema text ≡ Ok steps → All StepAsksUtf8 steps }
    ensures answers { (schema : Schema) (text : List ℕ) (result : Result (List Numbered) ScriptFault) → Answers (read_of schema text) result → IfOk result (All (λ numbered. StepAsksUtf8 (step_of numbered))) }
{}
