//! Theorems on the text of scripts, stated as contracts of empty functions.

ghost use Rattle.std.specs.Prelude.{◌≡◌, ◌≤◌, ◌<◌, ◌↔◌, ℕ, List, length, take, None};
ghost use Rattle.lab_table.specs.Table.{Table};
ghost use Rattle.lab_table.specs.declared.statement.Command.{Command};
ghost use Rattle.lab_table.specs.declared.statement.Statement.{Statement};
ghost use Rattle.lab_statement.specs.declared.fault.ScriptFault.{ScriptFault};
ghost use Rattle.lab_statement.specs.declared.fault.ScriptFaultKind.{ScriptFaultKind};
ghost use Rattle.lab_script.specs.declared.script.Script.{Script};
ghost use Rattle.lab_statement.specs.declared.token.Token.{Token};
ghost use Rattle.lab_script.specs.Fault.{IsFaultOf};
ghost use Rattle.lab_statement.specs.Fault.{IsFirstInText, IsStatementFault};
ghost use Rattle.lab_script.specs.FirstFaults.{commands_fault, setup_fault};
ghost use Rattle.lab_statement.specs.FirstFaults.{statement_fault};
ghost use Rattle.lab_script.specs.Grammar.{IsCommands, IsSetup};
ghost use Rattle.lab_statement.specs.Grammar.{IsWholeStatement};
ghost use Rattle.lab_script.specs.Limits.{max_script_bytes};
ghost use Rattle.lab_script.specs.Script.{Spells};
ghost use Rattle.lab_table.specs.TableSet.{max_tables};
ghost use Rattle.lab_script.specs.Tables.{with_commands, setup_tables};

/// The first bytes of a text, if there are more than 8,388,608 of them, decide which script the text spells, and its
/// fault. A script has at most 2,000 lines of at most 4,000 bytes, so a longer text has its first fault there.
pub fn first_bytes_tell_a_script()
    ensures short { (text : List ℕ) (script : Script) → Spells text script → length text ≤ max_script_bytes }
    ensures spelled { (text : List ℕ) (n : ℕ) (script : Script) → max_script_bytes < n → Spells (take n text) script → Spells text script }
    ensures fault { (text : List ℕ) (n : ℕ) (fault : ScriptFault) → max_script_bytes < n → IsFaultOf (take n text) fault → IsFaultOf text fault }
{}

/// A text has at most one fault: if two faults are true of it, in the sense of the contract of `parse_script`, they
/// have the same line and kind. The same holds for the text of one statement and the contract of `parse_statement`.
pub fn fault_unique()
    ensures line { (text : List ℕ) (n m : ℕ) (kind other : ScriptFaultKind) → IsFaultOf text (ScriptFault.At n kind) → IsFaultOf text (ScriptFault.At m other) → n ≡ m }
    ensures kind { (text : List ℕ) (n m : ℕ) (kind other : ScriptFaultKind) → IsFaultOf text (ScriptFault.At n kind) → IsFaultOf text (ScriptFault.At m other) → kind ≡ other }
    ensures statement_line { (text : List ℕ) (n m : ℕ) (kind other : ScriptFaultKind) → IsStatementFault text (ScriptFault.At n kind) → IsFirstInText text (ScriptFault.At n kind)
        → IsStatementFault text (ScriptFault.At m other) → IsFirstInText text (ScriptFault.At m other) → n ≡ m }
    ensures statement_kind { (text : List ℕ) (n m : ℕ) (kind other : ScriptFaultKind) → IsStatementFault text (ScriptFault.At n kind) → IsFirstInText text (ScriptFault.At n kind)
        → IsStatementFault text (ScriptFault.At m other) → IsFirstInText text (ScriptFault.At m other) → kind ≡ other }
{}

/// The tokens have no first fault exactly if the grammar derives them: as a line of commands that fits the remaining
/// room and, with the lines before, names few tables; as a setup that names few tables; or as one statement.
pub fn first_faults_are_of_the_grammar()
    ensures commands { (names : List (List ℕ)) (room : ℕ) (ts : List Token) → (commands_fault names room ts ≡ None) ↔ ((cs : List Command) × IsCommands ts cs × (length cs ≤ room) × (length (with_commands names cs) ≤ max_tables)) }
    ensures setup { (ts : List Token) → (setup_fault ts ≡ None) ↔ ((table : Table) × IsSetup ts table × (length (setup_tables table) ≤ max_tables)) }
    ensures statement { (ts : List Token) → (statement_fault ts ≡ None) ↔ ((s : Statement) × IsWholeStatement ts s) }
{}
