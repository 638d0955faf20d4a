//! The laws of reading, each as the contract of a function that does nothing.

ghost use Rattle.std.specs.Prelude.{◌≡◌, ℕ, List};
ghost use Rattle.gql_reader.specs.Document as spec;
ghost use Rattle.gql_reader.specs.Document.{EndsOrIsForeign};
ghost use Rattle.gql_reader.specs.Grammar.{AreDefinitions};
ghost use Rattle.gql_reader.specs.Productions.{Definitions, SpellTheSame};
ghost use Rattle.gql_reader.specs.declared.fault.ReadFault.{ReadFault};
ghost use Rattle.gql_reader.specs.declared.tree.Document.{Document};

/// A text has one document at most.
pub fn text_has_one_document()
    ensures { (bytes : List ℕ) (d e : Document)
        → spec.ReadsDocument bytes d → spec.ReadsDocument bytes e → d ≡ e }
{}

/// A text has one first fault at most.
pub fn text_has_one_fault()
    ensures { (bytes : List ℕ) (f g : ReadFault)
        → spec.IsReadFault bytes f → spec.IsReadFault bytes g → f ≡ g }
{}

/// No text has a document and a fault.
pub fn document_has_no_fault()
    ensures { (bytes : List ℕ) (d : Document) (f : ReadFault)
        → spec.ReadsDocument bytes d → spec.IsReadFault bytes f → ⊥ }
{}

/// The look-ahead in the grammar's rules takes no document away: the specification's productions, in
/// which no token after a part is looked at, spell the same definitions.
pub fn look_ahead_takes_nothing_away()
    ensures { SpellTheSame EndsOrIsForeign Definitions AreDefinitions }
{}
