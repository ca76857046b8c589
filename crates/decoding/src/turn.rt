// The rule: under rule 1 the lowest priority counts, so each is turned, the highest becoming 0.
ghost use Rattle.std.specs.Prelude.{◌≡◌};
ghost use Rattle.format.specs.promise.Format.{highest_of, turned_of};
ghost use Rattle.format.specs.promise.Filed.{rule_filed, priorities_filed};
ghost use Rattle.format.specs.parts.Tests.{FileSized};
ghost use Rattle.decoding.specs.promise.Holding.{Padded};

use format::bytes::{rule, vertices};

fn highest(priorities: &[u8]) -> u8
    ensures { result ≡ highest_of priorities.now }
{
    priorities.iter().fold(0, |top, &p| top.max(p))
}

// The table holds the priorities as filed, and then those of the game.
pub fn turn(file: &[u8], table: &mut [u8])
    requires { FileSized file.now × Padded 2048 (priorities_filed file.now) table.old }
    ensures { Padded 2048 (turned_of (rule_filed file.now) (priorities_filed file.now)) table.new }
{
    if rule(file) == 0 {
        return;
    }
    let n = vertices(file);
    let top = highest(&table[..n]);
    for p in &mut table[..n] {
        *p = top - *p;
    }
}
