// The two players, and the bytes that name them: 0 for Even, 1 for Odd.
#![tactic(auto)]

ghost use Rattle.std.specs.Prelude.{◌≡◌};
ghost use Rattle.player.specs.promise.Player.{opponent_of, parity_of};
ghost use Rattle.player.specs.promise.Named.{bit_of, Names};

#[derive(Clone, Copy, Debug, PartialEq, Eq)]
pub enum Player {
    Even,
    Odd,
}

// A byte that names no player.
#[derive(Clone, Copy, Debug, PartialEq, Eq)]
pub struct Nobody(pub u8);

impl Player {
    // The two by the names that the rules give them.
    pub const EVEN: Player = Player::Even;

    pub const ODD: Player = Player::Odd;

    // The other player.
    pub fn opponent(self) -> Player
        ensures { bit_of result ≡ opponent_of (bit_of self) }
    {
        match self {
            Player::Even => Player::Odd,
            Player::Odd => Player::Even,
        }
    }

    // The player whose parity a priority has.
    pub fn of_priority(priority: u8) -> Player
        ensures { bit_of result ≡ parity_of priority }
    {
        if priority % 2 == 0 {
            Player::Even
        } else {
            Player::Odd
        }
    }
}

impl TryFrom<u8> for Player {
    type Error = Nobody;

    ghost try_from_gives = { Names };

    fn try_from(byte: u8) -> Result<Player, Nobody> {
        match byte {
            0 => Ok(Player::Even),
            1 => Ok(Player::Odd),
            _ => Err(Nobody(byte)),
        }
    }
}

impl From<Player> for u8 {
    ghost from_gives = { λ player byte. byte ≡ bit_of player };

    fn from(player: Player) -> u8 {
        player as u8
    }
}
