// Places in a text.
ghost use Rattle.std.specs.Prelude.{◌≡◌, ◌+◌, ◌≤◌, length, drop};
ghost use Rattle.words.specs.Place.{index_of, slice, run, trimmed_of, content_of};

use memchr::memchr;

// Where b first stands, from a place on; the text's length where it does not.
pub fn find(s: &[u8], from: usize, b: u8) -> usize
    requires { from ≤ length s.now }
    ensures value { result ≡ from + index_of b (slice from (length s.now) s.now) }
    ensures lower_bound { (from ≤ result) × (result ≤ length s.now) }
{
    memchr(b, &s[from..]).map_or(s.len(), |k| from + k)
}

// Where something else than b first stands.
pub fn skip(s: &[u8], from: usize, b: u8) -> usize
    requires { from ≤ length s.now }
    ensures value { result ≡ from + run b (drop from s.now) }
    ensures lower_bound { (from ≤ result) × (result ≤ length s.now) }
{
    from + s[from..].iter().take_while(|c| **c == b).count()
}

// The length without the spaces at the end.
fn trimmed(s: &[u8]) -> usize
    ensures { result ≡ trimmed_of s.now }
{
    s.len() - s.iter().rev().take_while(|c| **c == b' ').count()
}

// A line without its comment and the spaces around it.
pub fn content(s: &[u8]) -> &[u8]
    ensures { result.now ≡ content_of s.now }
{
    let text = &s[..find(s, 0, b'#')];
    let led = &text[skip(text, 0, b' ')..];
    &led[..trimmed(led)]
}
