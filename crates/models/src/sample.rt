// The sample model, for the sample book: two elements, of which 0 is yanked and 1 is paired; both are
// releases.
ghost use Rattle.std.specs.Prelude.{◌≡◌};
ghost use Rattle.models.specs.Samples.{sample_bytes};

use crate::layout::LENGTH;

// Its bytes. In the order that belongs to it, 1 is better than 0.
pub fn model_bytes() -> [u8; LENGTH]
    ensures { result ≡ sample_bytes }
{
    let mut bytes = [0; LENGTH];
    bytes[0] = 2;
    bytes[1] = 3;
    bytes[5] = 1;
    bytes[9] = 2;
    bytes
}
