// The lengths of what is lent.
ghost use Rattle.game.specs.parts.Lengths.{Compared};

// Row 8 with one length more: place 0 if it is not as it should be.
pub fn compare(found: Option<usize>, long: usize, due: usize) -> Option<usize>
    ensures { Compared found long due result }
{
    found.or((long != due).then_some(0))
}
