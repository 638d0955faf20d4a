//! A plan in the making.

use plan_steps::{FetchStep, Layer, OutPlace, Step};

/// What the places below a place stand on, by the steps of the plan: the list of a fetch, the page of a list, a row or
/// an edge by its fetch and its Item, what a mutation gave, or its row.
#[derive(Clone, Copy, Drop)]
pub enum Footing {
    Nothing,
    List(u32),
    Page(u32),
    Row(u32, u32),
    Edge(u32, u32),
    Payload(u32),
    Given(u32),
}

/// With the layer in which the steps of these places stand.
#[derive(Clone, Copy, Drop)]
pub struct Below {
    pub footing: Footing,
    pub layer: u32,
}

/// What a place adds to the plan.
#[derive(Drop)]
pub enum Added {
    /// A step of its own, with nothing below.
    Leaf(Step),
    /// A fetch of a list.
    List(FetchStep),
    /// A fetch of one row, and its Item in a new layer.
    Row(FetchStep),
    /// An Item of a fetch in a new layer: of its edges, or of its rows.
    Item(bool, u32),
    /// No step: the place shows this one, and the places below it stand on the footing.
    Shows(u32, Footing),
    /// The row that a mutation gives.
    Given,
}

/// A plan in the making, with what the places below each place so far stand on.
#[derive(Drop)]
pub struct Making {
    pub steps: Vec<Step>,
    pub layers: Vec<Layer>,
    pub out: Vec<OutPlace>,
    pub belows: Vec<Below>,
}
