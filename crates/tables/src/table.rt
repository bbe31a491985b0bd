// An accepted table.
ghost use Rattle.tables.specs.Accepting.{Accepted};

use crate::content::Content;
use schedule::plan::Plan;

/// A table that the check accepted: its bytes, the plan of its values, and what a tick needs of it beside.
#[derive(Drop)]
pub struct Table {
    pub(crate) bytes: Vec<u8>,
    pub(crate) plan: Plan,
    pub(crate) content: Content,
    pub ghost accepted: { ∥ Accepted bytes.items plan content ∥₁ },
}
