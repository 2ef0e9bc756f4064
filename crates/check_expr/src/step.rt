// What the machine does next.

use check_model::{BodyJob, BodyQuestion, PartEnd, Site};
use tl_base::{Place, Step, TermId};

/// What the machine does next.
pub type BodyStep = Step<BodyJob, PartEnd, BodyQuestion>;

/// A node that is typed: its term, its place, and where in a body it is.
#[derive(Clone, Copy)]
pub struct Node {
    pub source: TermId,
    pub at: Place,
    pub site: Site,
}
