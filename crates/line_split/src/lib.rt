// Lines in a stream of text: where one ends, and one that comes in pieces.
#![tactic(auto)]

ghost use Rattle.std.specs.Prelude.{◌≡◌, ◌≤◌, length};
ghost use Rattle.line_split.specs.Lines.{line_length, Kept};

const LINE_FEED: u8 = 10;

// How many characters of s stand before its first line feed; all where there is none.
pub fn line_length(s: &[u8]) -> usize
    ensures { (result ≡ line_length s.now) × (result ≤ length s.now) }
{
    s.iter().position(|c| *c == LINE_FEED).unwrap_or(s.len())
}

// Adds a piece to a line of which the first n characters are held already, as far as there is room; how many are held now.
pub fn keep(line: &mut [u8], n: usize, piece: &[u8]) -> usize
    requires { n ≤ length line.old }
    ensures { (Kept line.old n piece.now line.new result) × (result ≤ length line.old) }
{
    let fits = piece.len().min(line.len() - n);
    line[n..n + fits].copy_from_slice(&piece[..fits]);
    n + fits
}
