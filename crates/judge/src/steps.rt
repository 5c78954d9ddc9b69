// Steps in bytes: five for each, the op and then the operands, low byte first.
ghost use Rattle.std.specs.Prelude.{◌≡◌, length};
ghost use Rattle.judge.specs.Steps.{step_at};

use logic::bytes::u16_at;
use logic::limits::STEPS;
use logic::tableau::Step;

// The length of a step, in bytes.
pub(crate) const STEP: usize = 5;

// The length of the longest tableau, in bytes.
pub(crate) const LONGEST: usize = STEPS * STEP;

// The step in five bytes.
pub(crate) fn step_of(bytes: &[u8]) -> Step
    requires { length bytes.now ≡ 5 }
    ensures { result ≡ step_at bytes.now 0 }
{
    Step {
        op: bytes[0],
        a: u16_at(bytes, 1),
        b: u16_at(bytes, 3),
    }
}
