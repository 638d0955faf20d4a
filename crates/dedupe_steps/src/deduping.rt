//! Steps of one key become one.

ghost use Rattle.std.specs.Prelude.{◌≡◌, IfOk, IsTrue, length};
ghost use Rattle.plan_steps.specs.Check.{is_checked};
ghost use Rattle.plan_steps.specs.Fetches.{IsTreeOver, IsPlain, IsMerged};
ghost use Rattle.dedupe_steps.specs.Keys.{key_at};
ghost use Rattle.dedupe_steps.specs.Made as made;
ghost use Rattle.dedupe_steps.specs.Numbered.{IsNumbered};
ghost use Rattle.dedupe_steps.specs.Numbering as spec;
ghost use Rattle.dedupe_steps.specs.Quotient as quotients;

use crate::keys::{key_of, layer_key};
use crate::laws::{quotients_are_merged, quotients_are_sound};
use crate::numbering::Numbering;
use crate::quotient::{lists_of, new_layers, new_out, new_steps};
use crate::sights::{layers_of, look};
use pg_base::{Base, Memory};
use place_tree::Tree;
use plan_constraints::Constraint;
use plan_steps::{Draft, Plan};
use std::alloc::Global;

/// The numbers of steps: those of one key are one.
fn number_steps(
    alloc: Global,
    base: &Base,
    tree: &Tree,
    constraints: &[Constraint],
    plan: &Plan,
) -> Result<Numbering, Memory>
    requires checked { IsTrue (is_checked base.now tree.now plan.now) }
    requires flat { made.AreFlat plan.now.steps }
    ensures { IfOk result (λ n. IsNumbered (length plan.now.steps)
        (key_at base.now tree.now constraints.now plan.now n.to) (spec.renaming n)) }
{
    let sights = look(alloc, base, tree, plan)?;
    let steps = plan.steps.as_slice();
    let mut numbers = Numbering::new(alloc);
    for k in 0..steps.len() {
        let step = &steps[k];
        let key = key_of(
            alloc,
            tree,
            constraints,
            plan,
            &sights,
            numbers.to(),
            k,
            step,
        )?;
        numbers.add(key)?;
    }
    Ok(numbers)
}

/// The numbers of layers: those over one new step are one.
fn number_layers(alloc: Global, to: &[u32], plan: &Plan) -> Result<Numbering, Memory>
    ensures { IfOk result (λ n. IsNumbered (length plan.now.layers)
        (quotients.ground_at to.now plan.now.layers) (spec.renaming n)) }
{
    let layers = plan.layers.as_slice();
    let mut numbers = Numbering::new(alloc);
    for y in 0..layers.len() {
        let layer = &layers[y];
        let key = layer_key(alloc, to, layer)?;
        numbers.add(key)?;
    }
    Ok(numbers)
}

/// The plan whose steps and layers are renamed.
fn renamed(
    alloc: Global,
    plan: &Plan,
    to: &[u32],
    firsts: &[usize],
    to_layer: &[u32],
    layer_firsts: &[usize],
) -> Result<Plan, Memory>
    requires within { made.AreWithin to.now (length firsts.now) firsts.now }
    requires firsts { made.AreBelow (length plan.now.steps) firsts.now }
    requires numbers { made.AreInOrder to_layer.now layer_firsts.now }
    ensures { IfOk result (λ new. new ≡ quotients.quotient plan.now
        (record { to = to.now; firsts = firsts.now })
        (record { to = to_layer.now; firsts = layer_firsts.now })) }
{
    let laid = layers_of(alloc, plan.layers.as_slice(), plan.steps.len())?;
    let lists = lists_of(alloc, &laid, to_layer, firsts, layer_firsts.len())?;
    let new = new_steps(alloc, to, firsts, plan.steps.as_slice())?;
    let over = plan.layers.as_slice();
    let below = new_layers(alloc, to, layer_firsts, over, lists.as_slice())?;
    let out = new_out(alloc, to, to_layer, plan.out.as_slice())?;
    Ok(Plan {
        steps: new,
        layers: below,
        out,
    })
}

/// The plan in which steps of one key are one.
fn merge(
    alloc: Global,
    base: &Base,
    tree: &Tree,
    constraints: &[Constraint],
    plan: &Plan,
) -> Result<Plan, Memory>
    requires checked { IsTrue (is_checked base.now tree.now plan.now) }
    requires flat { made.AreFlat plan.now.steps }
    ensures { IfOk result (λ merged.
        quotients.IsQuotient base.now tree.now constraints.now plan.now merged) }
{
    let steps = number_steps(alloc, base, tree, constraints, plan)?;
    let to = steps.to();
    let firsts = steps.firsts();
    let layers = number_layers(alloc, to, plan)?;
    let to_layer = layers.to();
    let merged = renamed(alloc, plan, to, firsts, to_layer, layers.firsts())?;
    Ok(merged)
}

/// The plan of a draft, in which steps of one key are one.
fn merged_plan(alloc: Global, draft: &Draft) -> Result<Plan, Memory>
    requires flat { made.AreFlat draft.now.plan.steps }
    ensures { IfOk result (λ merged. quotients.IsQuotient draft.now.base draft.now.tree
        draft.now.constraints draft.now.plan merged) }
{
    draft.know();
    let merged = merge(
        alloc,
        draft.base(),
        draft.tree(),
        draft.constraints(),
        draft.plan(),
    )?;
    Ok(merged)
}

/// Merges equal steps of a plain plan.
///
/// Steps of one layer that are equal in every part but `rows` become one, which asks for rows where one of them did.
/// Layers over one step become one first, so that the same fields below equal lists are merged too. In a mutation only
/// steps under one mutation field become one. Fetches whose orders may differ in whether they hold a null stay apart.
///
/// # Errors
/// Out of memory.
pub fn dedupe(alloc: Global, draft: Draft) -> Result<Draft, Memory>
    requires tree { IsTreeOver draft.base draft.tree }
    requires plain { IsPlain draft.base draft.tree draft.constraints draft.plan }
    ensures base { IfOk result (λ d. d.base ≡ draft.base) }
    ensures tree_ { IfOk result (λ d. d.tree ≡ draft.tree) }
    ensures constraints { IfOk result (λ d. d.constraints ≡ draft.constraints) }
    ensures quotient { IfOk result (λ d. quotients.IsQuotient draft.base draft.tree
        draft.constraints draft.plan d.plan) }
    ensures merged { IfOk result (λ d. IsMerged d.base d.tree d.constraints d.plan) }
{
    let merged = merged_plan(alloc, &draft)?;
    draft.know();
    quotients_are_merged();
    quotients_are_sound();
    Ok(draft.renew(merged))
}
