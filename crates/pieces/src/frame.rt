// What stands around a block's payload.
ghost use Rattle.std.specs.Prelude.{◌≡◌, ◌≤◌, length};
ghost use Rattle.format.specs.promise.Format.{check_of};
ghost use Rattle.format.specs.promise.Filed.{byte_at};
ghost use Rattle.format.specs.parts.Put.{Put, word_byte};
ghost use Rattle.pieces.specs.parts.Pieces.{Words, name_byte, zero_byte};

use format::bytes::set_word;
use format::weight::check_of;

// Number, kind, zero, used count. The kind is any byte, as the promise is for any.
pub fn name(part: &mut [u8], b: usize, kind: u8, used: usize)
    requires { Words b used part.old }
    ensures { Put 0 6 (name_byte b kind used) part.old part.new }
{
    set_word(part, 0, b as u16);
    part[2] = kind;
    part[3] = 0;
    set_word(part, 4, used as u16);
}

// Zeros from here up to the check.
pub fn clear(part: &mut [u8], from: usize)
    requires { (length part.old ≡ 512) × (from ≤ 510) }
    ensures { Put from 510 zero_byte part.old part.new }
{
    part[from..510].fill(0);
}

// The check of what stands there.
pub fn seal(part: &mut [u8])
    requires { length part.old ≡ 512 }
    ensures { Put 510 512 (word_byte (check_of (byte_at part.old)) 510) part.old part.new }
{
    let check = check_of(part, 0);
    set_word(part, 510, check);
}
