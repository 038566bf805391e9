//! Theorems on the text of statements, stated as contracts of empty functions.

ghost use Rattle.std.specs.Prelude.{◌≡◌, ◌↔◌, ℕ, List, [], Some, IsTrue, true};
ghost use Rattle.std.specs.List.{list_all};
ghost use Rattle.lab_table.specs.TableName.{is_table_name};
ghost use Rattle.lab_table.specs.Words.{is_reserved};
ghost use Rattle.lab_table.specs.declared.statement.Statement.{Statement};
ghost use Rattle.lab_statement.specs.Text.{SpellsStatement};
ghost use Rattle.lab_statement.specs.Token.{is_blank, is_known, tokens, word_token};
ghost use Rattle.lab_statement.specs.TokensOf.{AreTokens};
ghost use Rattle.lab_statement.specs.declared.token.Token.{Token};
ghost use Rattle.lab_statement.specs.declared.token.Token.TheVariants as token;
ghost use Rattle.lab_table.specs.declared.word.Word.{Word};
ghost use Rattle.lab_statement.specs.StatementText.{statement_in};

/// The parser reads from a text exactly the statement that the text spells by the grammar, and none if it spells none.
pub fn statement_is_read_from_its_text()
    ensures { (text : List ℕ) (s : Statement) → (statement_in text ≡ Some s) ↔ SpellsStatement text s }
{}

/// A text in lower case is a keyword of the grammar exactly if it is reserved, and a name exactly if it can name a
/// table.
#[tactic(auto, using(crate::proofs::ReservedWords::spells_word, crate::proofs::ReservedWords::spells_name))]
pub fn words_are_reserved()
    ensures word { (text : List ℕ) → IsTrue (is_reserved text) ↔ ((word : Word) × (word_token text ≡ token.Word word)) }
    ensures name { (text name : List ℕ) → (word_token text ≡ token.Name name) ↔ ((name ≡ text) × (is_table_name text ≡ true)) }
{}

/// Tokens are those of a text by the rule of the longest match exactly if the reader returns them and none of them is
/// unknown.
#[tactic(auto, using(crate::proofs::FirstTokens::tokens_are))]
pub fn tokens_are_those_of_the_text()
    ensures { (text : List ℕ) (ts : List Token) → AreTokens text ts ↔ ((tokens text ≡ ts) × (list_all is_known ts ≡ true)) }
{}

/// A text has no tokens exactly if it consists of spaces and tabs.
#[tactic(auto, using(crate::proofs::BlankTexts::blank_text))]
pub fn blank_texts_have_no_token()
    ensures { (text : List ℕ) → (tokens text ≡ []) ↔ (list_all is_blank text ≡ true) }
{}
