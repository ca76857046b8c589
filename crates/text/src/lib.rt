// Appending to a text in a lent slice: each function takes the place at which it begins and returns the place after it. No struct of the two: it would
// hold a `&mut`, and every contract would have to say that the reference stays. No `write!` either: what it writes is known of a `String`, which is on the heap,
// and here every byte of a lent slice is promised.
#![tactic(auto)]

ghost use Rattle.std.specs.Prelude.{[], ◌∷◌, ◌++◌};
ghost use Rattle.text.specs.parts.Append.{Room, Appended};
ghost use Rattle.text.specs.promise.Text.{decimal_of, line_of};

pub fn byte(text: &mut [u8], at: usize, b: u8) -> usize
    requires { Room text.old at (b ∷ []) }
    ensures { Appended text.old text.new at (b ∷ []) result }
{
    text[at] = b;
    at + 1
}

pub fn word(text: &mut [u8], at: usize, word: &[u8]) -> usize
    requires { Room text.old at word.now }
    ensures { Appended text.old text.new at word.now result }
{
    let next = at + word.len();
    text[at..next].copy_from_slice(word);
    next
}

// A number in decimal.
pub fn number(text: &mut [u8], at: usize, n: u64) -> usize
    requires { Room text.old at (decimal_of n) }
    ensures { Appended text.old text.new at (decimal_of n) result }
{
    let mut digits = [0u8; 20];
    let k = io::decimal(n, &mut digits);
    word(text, at, &digits[..k])
}

// A number, and the byte that parts it from what follows.
pub fn field(text: &mut [u8], at: usize, n: u64, after: u8) -> usize
    requires { Room text.old at (decimal_of n ++ (after ∷ [])) }
    ensures { Appended text.old text.new at (decimal_of n ++ (after ∷ [])) result }
{
    let next = number(text, at, n);
    byte(text, next, after)
}

// A line of a word and two numbers.
pub fn pair(text: &mut [u8], at: usize, first: &[u8], n: u64, m: u64) -> usize
    requires { Room text.old at (line_of (first.now ∷ decimal_of n ∷ decimal_of m ∷ [])) }
    ensures { Appended text.old text.new at (line_of (first.now ∷ decimal_of n ∷ decimal_of m ∷ [])) result }
{
    let a = word(text, at, first);
    let b = byte(text, a, b' ');
    let c = field(text, b, n, b' ');
    field(text, c, m, b'\n')
}
