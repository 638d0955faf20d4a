//! Examples of changed tables. The call does nothing: its contract is the examples.

ghost use Rattle.set_examples.specs.Sets as law;

/// Small tables change so, and rows are found so.
pub fn worked_tables_change_so()
    ensures { law.AreWorked }
{}
