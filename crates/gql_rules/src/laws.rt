//! One answer: a document is valid or has one first fault. The bodies are empty; the contracts are the laws.

ghost use Rattle.std.specs.Prelude.{◌≡◌};
ghost use Rattle.pg_base.specs.Schema.{SchemaParts};
ghost use Rattle.gql_reader.specs.declared.tree.Document.{Document};
ghost use Rattle.gql_nodes.specs.declared.fault.RuleFault.{RuleFault};
ghost use Rattle.gql_rules.specs.Rules.{IsValidDocument, FirstRuleFault};

/// A valid document has no fault.
pub fn valid_document_has_no_fault()
    ensures { (schema : SchemaParts) (document : Document) (fault : RuleFault)
        → IsValidDocument schema document
        → FirstRuleFault schema document fault
        → ⊥ }
{}

/// A document has one first fault.
pub fn document_has_one_fault()
    ensures { (schema : SchemaParts) (document : Document) (fault other : RuleFault)
        → FirstRuleFault schema document fault
        → FirstRuleFault schema document other
        → fault ≡ other }
{}
