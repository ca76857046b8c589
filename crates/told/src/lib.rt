// Number and value of what an entry point says, for the C interface.
#![tactic(auto)]

ghost use Rattle.std.specs.Prelude.{◌<◌, ◌≡◌, [], ◌∷◌};
ghost use Rattle.told.specs.promise.Told.{value_of};
ghost use Rattle.told.specs.parts.Handing.{Gave};

use refusal::Refusal;

// A refusal's number, with its place as the value.
pub fn refused(r: Refusal, value: &mut u64) -> u64
    ensures { Gave r result value.new }
{
    *value = r.place as u64;
    u64::from(r.kind)
}

// The two sizes of a file in one value.
pub fn sizes(vertices: usize, edges: usize) -> u64
    requires { (vertices < 65536) × (edges < 65536) }
    ensures { result ≡ value_of (vertices ∷ edges ∷ []) }
{
    (edges as u64) * 65536 + (vertices as u64)
}
