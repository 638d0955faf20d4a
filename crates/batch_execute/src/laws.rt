//! Laws of plans that are run. The calls do nothing: their contracts are the laws.

ghost use Rattle.batch_execute.specs.Ready as law;

/// A plan that is well formed, and whose fetches are those of the row fields of its tree, is ready to be run.
pub fn fetches_are_ready()
    ensures { law.FetchesAreReady }
{}
