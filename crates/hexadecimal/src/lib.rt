// A line of text and the octets that it stands for.
#![tactic(auto)]

ghost use Rattle.std.specs.Prelude.{◌≡◌, true, [], ◌∷◌, ◌*◌, ◌/◌, ◌%◌, ◌≤◌, ◌<◌, length};
ghost use Rattle.octets.specs.Test.{mapped};
ghost use Rattle.octets.specs.Octets.{put, left};
ghost use Rattle.octets.specs.Refusal.{told};
ghost use Rattle.hexadecimal.specs.Line.{digit, is_digit, value, hex, unhex, all, length_ok, read_into};

use octets::Refusal;

// Two numbers in one: the first in its low octet, the second in its high one. The same number twice is its product by TWICE.
const TWICE: u16 = 0x0101;

// The character of 0, and what a letter's character is more than that of a figure of its number would be: a stands for ten.
const FIGURES: u16 = b'0' as u16;

const LETTERS: u16 = (b'a' - 10 - b'0') as u16;

// The two digits of an octet, by arithmetic on their values, without a branch: six more than a figure's value is below 16, six more than a
// letter's is not. Both are made at once, so that they are stored at once.
fn to_digits(b: u8) -> [u8; 2]
    ensures { result ≡ digit (b / 16) ∷ digit (b % 16) ∷ [] }
{
    let octet = u16::from(b);
    let values = octet / 16 + octet % 16 * 256;
    let more = values + 6 * TWICE;
    let letters = more / 16 % 2 + more / 4096 * 256;
    let digits = values + FIGURES * TWICE + LETTERS * letters;
    digits.to_le_bytes()
}

// Writes the digits of s to the start of out. The places come from `enumerate`, here and in `decode`, since no law tells what the elements are after an
// adapter of `iter_mut`.
pub fn write(s: &[u8], out: &mut [u8])
    requires { 2 * length s.now ≤ length out.old }
    ensures { out.new ≡ put out.old 0 (hex s.now) }
{
    for (i, b) in s.iter().enumerate() {
        let [high, low] = to_digits(*b);
        out[2 * i] = high;
        out[2 * i + 1] = low;
    }
}

// Question 2 of one character: a digit, with letters of either case. The library's test costs no more than the three ranges written out: a line of 78
// octets is read in 816 instructions with either.
fn is_digit(c: u8) -> bool
    ensures { result ≡ is_digit c }
{
    c.is_ascii_hexdigit()
}

// Question 2. The fold has no branch, so that it takes many characters at once.
fn all_digits(line: &[u8]) -> bool
    ensures { result ≡ all is_digit line.now }
{
    line.iter().fold(true, |yes, c| yes & is_digit(*c))
}

// The number that a digit stands for: the low four bits of its character, and nine more for a letter, since those of A and of a are 1. All letters, and no
// figure, are 64 or above.
fn to_value(c: u8) -> u8
    requires { is_digit c ≡ true }
    ensures { (result ≡ value c) × (result < 16) }
{
    c % 16 + 9 * (c / 64)
}

// Writes the octets that the digits of line stand for to the start of out.
fn decode(line: &[u8], out: &mut [u8])
    requires { (all is_digit line.now ≡ true) × ((length line.now % 2 ≡ 0) × (length line.now / 2 ≤ length out.old)) }
    ensures { out.new ≡ put out.old 0 (unhex line.now) }
{
    let (pairs, _) = line.as_chunks::<2>();
    for (i, pair) in pairs.iter().enumerate() {
        out[i] = to_value(pair[0]) * 16 + to_value(pair[1]);
    }
}

// Question 1.
fn length_ok(n: usize) -> bool
    ensures { result ≡ length_ok n }
{
    (2 <= n) & (n <= 2 * octets::LONGEST_FRAME) & (n % 2 == 0)
}

// Reads a line into out, which has room for the longest frame: so many octets at its start. A refusal leaves every octet of out.
pub fn read(line: &[u8], out: &mut [u8]) -> Result<usize, Refusal>
    ensures { (told result ≡ mapped length (read_into line.now out.old)) × (out.new ≡ left (read_into line.now out.old) out.old) }
{
    if out.len() < octets::LONGEST_FRAME {
        return Err(Refusal::ShortBuffer);
    }
    if !length_ok(line.len()) {
        return Err(Refusal::BadLength);
    }
    if !all_digits(line) {
        return Err(Refusal::BadDigit);
    }
    decode(line, out);
    Ok(line.len() / 2)
}
