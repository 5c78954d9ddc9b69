// Reading bytes into a view.
ghost use Rattle.std.specs.Prelude.{◌↔◌, IsOk};
ghost use Rattle.models.specs.Interpretations.{interpretation_of};
ghost use Rattle.models.specs.Fields.{Valid};
ghost use Rattle.models.specs.Answers.{HasModelLength, ReadAnswer};

use crate::faults::ViewFault;
use crate::fields::Tables;
use crate::layout::LENGTH;
use crate::view::View;

impl View {
    // A view of the interpretation that the bytes encode. It is granted exactly when there are `LENGTH` bytes
    // and every field is good.
    pub fn read(bytes: &[u8]) -> Result<View, ViewFault>
        ensures answer { ReadAnswer bytes.now result }
        ensures exact { IsOk result
            ↔ (HasModelLength bytes.now × Valid (interpretation_of bytes.now)) }
    {
        if bytes.len() != LENGTH {
            return Err(ViewFault::BadLength(bytes.len()));
        }
        let tables = Tables::from_bytes(bytes);
        match tables.first_bad() {
            Some(at) => Err(ViewFault::BadField(at)),
            None => Ok(View { tables }),
        }
    }
}
