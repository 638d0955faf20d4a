//! Laws of the definitions: functions that do nothing, each with a law as its contract.

ghost use Rattle.std.specs.Prelude.{◌≡◌, ◌<◌, ℕ, List, Ok, Err, length};
ghost use Rattle.ddl_reader.specs.Grammar.{IsStatement};
ghost use Rattle.ddl_reader.specs.Lexemes.{lexemes};
ghost use Rattle.ddl_reader.specs.Script.{IsScript, IsScriptFault, statements, begins, read};
ghost use Rattle.ddl_reader.specs.Scripts.{AreStatements, HaveFault};
ghost use Rattle.ddl_reader.specs.Sentences.{StopsAt};
ghost use Rattle.ddl_reader.specs.Statements.{statement_with};
ghost use Rattle.ddl_reader.specs.declared.fault.ScriptFault.{ScriptFault};
ghost use Rattle.ddl_reader.specs.declared.fault.ScriptFault.TheVariants as fault;
ghost use Rattle.ddl_reader.specs.declared.lexeme.Lexeme.{Lexeme};
ghost use Rattle.ddl_reader.specs.declared.reading.Progress.{Progress};
ghost use Rattle.ddl_reader.specs.declared.script.Script.{Script};
ghost use Rattle.ddl_reader.specs.declared.statement.Row.{Row};
ghost use Rattle.ddl_reader.specs.declared.statement.Statement.{Statement};
ghost use Rattle.pg_base.specs.declared.enum_def.EnumDef.{EnumDef};

/// The reader of statements reads exactly the grammar's statements over the enums so far, up to `;` or
/// the end, and stops at the first token that no statement has after the tokens before it.
pub fn statement_is_by_the_grammar()
    ensures spelled { (enums : List EnumDef) (number : ℕ) (found : List Row) (ts rest : List Lexeme)
        (s : Statement × List Row) → statement_with enums number found ts ≡ Ok (s, rest)
        → IsStatement enums number found ts rest s }
    ensures read { (enums : List EnumDef) (number : ℕ) (found : List Row) (ts rest : List Lexeme)
        (s : Statement × List Row) → IsStatement enums number found ts rest s
        → statement_with enums number found ts ≡ Ok (s, rest) }
    ensures stops { (enums : List EnumDef) (number : ℕ) (found : List Row) (ts rest : List Lexeme)
        → statement_with enums number found ts ≡ Err rest → StopsAt enums number found ts rest }
    ensures stopped { (enums : List EnumDef) (number : ℕ) (found : List Row) (ts rest : List Lexeme)
        → StopsAt enums number found ts rest → statement_with enums number found ts ≡ Err rest }
{}

/// What the statements of a text give by the grammar's rules is what is read of them, and so is their
/// first fault: that of the first statement that stops, or whose parts can't be added.
pub fn script_is_by_the_grammar()
    ensures spelled { (bytes : List ℕ) (p : Progress) → read bytes ≡ Ok p
        → AreStatements begins (lexemes bytes) p }
    ensures read { (bytes : List ℕ) (p : Progress) → AreStatements begins (lexemes bytes) p
        → read bytes ≡ Ok p }
    ensures fault { (bytes : List ℕ) (f : ScriptFault) → read bytes ≡ Err f
        → HaveFault begins (lexemes bytes) f }
    ensures told { (bytes : List ℕ) (f : ScriptFault) → HaveFault begins (lexemes bytes) f
        → read bytes ≡ Err f }
{}

/// A text gives at most one script.
pub fn text_has_one_script()
    ensures { (bytes : List ℕ) (s t : Script) → IsScript bytes s → IsScript bytes t → s ≡ t }
{}

/// A text has at most one first fault.
pub fn text_has_one_fault()
    ensures { (bytes : List ℕ) (f g : ScriptFault) → IsScriptFault bytes f
        → IsScriptFault bytes g → f ≡ g }
{}

/// What gives a script has no fault.
pub fn script_has_no_fault()
    ensures { (bytes : List ℕ) (s : Script) (f : ScriptFault) → IsScript bytes s
        → IsScriptFault bytes f → ⊥ }
{}

/// The fault of a text is never that memory ran out.
pub fn fault_is_of_the_text()
    ensures { (bytes : List ℕ) → IsScriptFault bytes fault.Memory → ⊥ }
{}

/// Reading more statements than there are lexemes changes nothing.
pub fn turns_suffice()
    ensures { (bytes : List ℕ) (n : ℕ) → length (lexemes bytes) < n
        → statements n begins (lexemes bytes) ≡ read bytes }
{}
