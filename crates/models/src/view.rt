// A validated view of an interpretation.
ghost use Rattle.models.specs.Tables.{by_tables};
ghost use Rattle.models.specs.Fields.{Valid};

use crate::fields::Tables;

// Tables in which every field is good.
#[derive(Clone, Copy)]
pub struct View {
    pub(crate) tables: Tables,
    ghost valid: { ∥ Valid (by_tables tables) ∥₁ },
}
