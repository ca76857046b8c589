// A block's check. The whole file and a place, not a part of it: the rows that judge a file speak of its bytes.
ghost use Rattle.std.specs.Prelude.{◌≡◌, ◌+◌, ◌≤◌, length};
ghost use Rattle.format.specs.promise.Format.{check_of};
ghost use Rattle.format.specs.promise.Filed.{byte_at};
ghost use Rattle.format.specs.parts.Tests.{Weighed};

// A block's bytes 0 to 509, weighted by their places from 1 on.
fn weigh(file: &[u8], from: usize) -> usize
    requires { from + 512 ≤ length file.now }
    ensures { Weighed file.now from result }
{
    let mut sum: usize = 0;
    for i in 0..510 {
        sum += (i + 1) * usize::from(file[from + i]);
    }
    sum
}

// The check that these bytes give, whatever is stored behind them.
pub fn check_of(file: &[u8], from: usize) -> u16
    requires { from + 512 ≤ length file.now }
    ensures { result ≡ check_of (λ i. byte_at file.now (from + i)) }
{
    (weigh(file, from) % 65521) as u16
}
