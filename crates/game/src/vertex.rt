// One vertex's successors, which the tests of the tables also read once 4 has passed.
ghost use Rattle.std.specs.Prelude.{◌≡◌};
ghost use Rattle.game.specs.promise.Tables.{next_of};
ghost use Rattle.game.specs.parts.Stretch.{Stretch};

// v's stretch of the lent targets, handed out as it stands.
pub fn successors<'a>(starts: &[u16], targets: &'a [u16], v: usize) -> &'a [u16]
    requires { Stretch starts.now targets.now v }
    ensures { result.now ≡ next_of starts.now targets.now v }
{
    let from = usize::from(starts[v]);
    let upto = usize::from(starts[v + 1]);
    &targets[from..upto]
}
