//! Examples of needed statements. The call does nothing: its contract is the examples.

ghost use Rattle.needs_examples.specs.Worked as law;

/// Small trees need so many statements.
pub fn worked_trees_need_their_statements()
    ensures { law.AreNeeded }
{}
