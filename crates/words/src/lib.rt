// Words of a line of text, put at a place of a lent text: numbers in decimal, and links. `Display` and `write!` stay out of it:
// `fmt` ensures nothing of the bytes that it writes, and `Put` says each of them.
#![tactic(auto)]

ghost use Rattle.std.specs.Prelude.{◌≡◌, [], ◌∷◌, ◌+◌, ◌≤◌};
ghost use Rattle.words.specs.Words.{space, decimal, link_text};
ghost use Rattle.words.specs.Putting.{Room, Put};

use rules::NO_LINK;

pub fn put_byte(text: &mut [u8], at: usize, byte: u8) -> usize
    requires { Room text.old at (byte ∷ []) }
    ensures { Put text.old at (byte ∷ []) text.new result }
{
    text[at] = byte;
    at + 1
}

fn digit(n: u64) -> u8
    requires { n ≤ 9 }
    ensures { result ≡ 48 + n }
{
    b'0' + n as u8
}

// A number's digits, the first one first.
fn put_number(text: &mut [u8], at: usize, n: u64) -> usize
    requires { Room text.old at (decimal n) }
    ensures { Put text.old at (decimal n) text.new result }
{
    if n < 10 {
        return put_byte(text, at, digit(n));
    }
    let last = put_number(text, at, n / 10);
    put_byte(text, last, digit(n % 10))
}

// A number as a word of a line, after its space.
pub fn put_word(text: &mut [u8], at: usize, n: u64) -> usize
    requires { Room text.old at (space ∷ decimal n) }
    ensures { Put text.old at (space ∷ decimal n) text.new result }
{
    let word = put_byte(text, at, b' ');
    put_number(text, word, n)
}

// A link as a word of a line, after its space: `-` where there is none.
pub fn put_link(text: &mut [u8], at: usize, link: u16) -> usize
    requires { Room text.old at (space ∷ link_text link) }
    ensures { Put text.old at (space ∷ link_text link) text.new result }
{
    let name = put_byte(text, at, b' ');
    if link == NO_LINK {
        return put_byte(text, name, b'-');
    }
    put_number(text, name, link as u64)
}
