// Two-byte numbers, and what block 0 says of the whole file.
ghost use Rattle.std.specs.Prelude.{◌≡◌, ◌+◌, ◌<◌, ◌≤◌, length};
ghost use Rattle.format.specs.promise.Filed.{word_at, vertices_filed, edges_filed, rule_filed};
ghost use Rattle.format.specs.parts.Tests.{Small};
ghost use Rattle.format.specs.parts.Put.{Put, word_byte};

// The low byte comes first.
pub fn word(file: &[u8], at: usize) -> u16
    requires { at + 1 < length file.now }
    ensures { result ≡ word_at file.now at }
{
    u16::from_le_bytes([file[at], file[at + 1]])
}

pub fn set_word(part: &mut [u8], at: usize, x: u16)
    requires { at + 1 < length part.old }
    ensures { Put at (at + 2) (word_byte x at) part.old part.new }
{
    let [low, high] = x.to_le_bytes();
    part[at] = low;
    part[at + 1] = high;
}

// `word` is the one function over the place; these two name what stands at two of them. Each asks for block 0: they promise for any file that has one.
pub fn vertices(file: &[u8]) -> usize
    requires { 512 ≤ length file.now }
    ensures { Small (vertices_filed file.now) result }
{
    usize::from(word(file, 6))
}

pub fn edges(file: &[u8]) -> usize
    requires { 512 ≤ length file.now }
    ensures { Small (edges_filed file.now) result }
{
    usize::from(word(file, 8))
}

// A number and no enum: the file may hold any byte.
pub fn rule(file: &[u8]) -> u8
    requires { 512 ≤ length file.now }
    ensures { result ≡ rule_filed file.now }
{
    file[10]
}
