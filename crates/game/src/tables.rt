// A game's tables, as they are lent. That they are well formed is a fact beside them and no invariant: they are judged as they come, and the functions that ask it
// promise for any tables of which it is known.
ghost use Rattle.std.specs.Prelude.{◌≡◌, ◌<◌, length};
ghost use Rattle.player.specs.promise.Player.{IsPlayer};
ghost use Rattle.player.specs.promise.Named.{bit_of};
ghost use Rattle.game.specs.promise.Tables.{game_of, vertices};
ghost use Rattle.game.specs.promise.Lent.{asked, lent};
ghost use Rattle.game.specs.parts.Stretch.{Stretch};

use crate::vertex::successors;
use player::Player;

// An owner and a priority for each vertex; where each vertex's stretch of the targets starts, and where the last ends; all targets.
#[derive(Clone, Copy)]
pub struct Tables<'a> {
    pub owners: &'a [u8],
    pub priorities: &'a [u8],
    pub starts: &'a [u16],
    pub targets: &'a [u16],
}

impl<'a> Tables<'a> {
    // How many vertices there are.
    pub fn vertices(self) -> usize
        ensures { result ≡ vertices (lent self) }
    {
        self.owners.len()
    }

    // v's owner, who is a player: `try_from` would answer for a third case too, which there is not.
    pub fn owner(self, v: usize) -> Player
        requires { (v < vertices (asked self)) × IsPlayer ((game_of (asked self)).owner v) }
        ensures { bit_of result ≡ (game_of (lent self)).owner v }
    {
        if self.owners[v] == 0 {
            Player::Even
        } else {
            Player::Odd
        }
    }

    // v's stretch of the targets, handed out as it stands.
    pub fn successors(self, v: usize) -> &'a [u16]
        requires { Stretch (asked self).starts (asked self).targets v }
        ensures { result.now ≡ (game_of (lent self)).next v }
    {
        successors(self.starts, self.targets, v)
    }
}
