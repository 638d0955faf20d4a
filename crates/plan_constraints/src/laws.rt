//! Laws of what is noted. The calls do nothing: their contracts are the laws.

ghost use Rattle.plan_constraints.specs.Laws as law;

/// Variables that meet the whole of a value have that value at the path.
pub fn wholes_keep_values()
    ensures { law.WholesKeepValues }
{}

/// Variables that meet the shape of a value have a value of that shape at the path.
pub fn shapes_keep_shapes()
    ensures { law.ShapesKeepShapes }
{}

/// What is noted for a tree and variables holds of these variables.
pub fn noted_hold_at_home()
    ensures { law.NotedHoldAtHome }
{}

/// A constraint that is left out as a repeat is lost by nobody.
pub fn repeats_add_nothing()
    ensures { law.RepeatsAddNothing }
{}

/// Variables that meet what is noted agree on what collection asked.
pub fn noted_keep_asked()
    ensures { law.NotedKeepAsked }
{}

/// Variables that meet what is noted give the same parts of windows, the same orders and the same fields of conditions.
pub fn noted_keep_lists()
    ensures { law.NotedKeepLists }
{}

/// Variables that meet what is noted need the same number of statements.
pub fn noted_keep_needs()
    ensures { law.NotedKeepNeeds }
{}
