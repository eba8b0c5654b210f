// The fields of a line, parted by tabs.
ghost use Rattle.std.specs.Prelude.{◌≡◌, ◌≤◌, length, drop};
ghost use Rattle.octets.specs.Parts.{seen, part_at};
ghost use Rattle.text.specs.Fields.{until, behind, field_at, field_from, fields, which};

// How many fields the line has.
pub fn count(line: &[u8]) -> usize
    ensures { result ≡ fields line.now }
{
    line.iter().filter(|c| **c == b'\t').count() + 1
}

// Field k of the line, counted from 0, as that part of it. It is empty where the line has no such field: a request
// counts its fields before it reads them.
pub fn field(line: &[u8], k: usize) -> &[u8]
    ensures { seen result ≡ part_at line.entry (field_from line.now k) (field_at line.now k) }
{
    let rest = &line[behind(line, k)..];
    &rest[..tab(rest)]
}

// The number of the first field of words that is w, or how many fields there are.
pub fn which(words: &[u8], w: &[u8]) -> usize
    ensures { result ≡ which words.now w.now }
{
    let n = count(words);
    (0..n)
        .find(|k| octets::same(field(words, *k), w))
        .unwrap_or(n)
}

// Where the rest of the line behind k tabs begins. A k beyond the line's tabs ends at its end, in
// as many turns as it has tabs. A turn passes a tab, and its number indexes nothing.
fn behind(line: &[u8], k: usize) -> usize
    ensures { (result ≤ length line.now) × (drop result line.now ≡ behind k line.now) }
{
    let mut at = 0;
    for _ in 0..k {
        let end = at + tab(&line[at..]);
        if end == line.len() {
            return end;
        }
        at = end + 1;
    }
    at
}

// How many octets stand before the next tab, or before the end.
fn tab(s: &[u8]) -> usize
    ensures place { result ≡ length (until s.now) }
    ensures within { result ≤ length s.now }
{
    s.iter().position(|c| *c == b'\t').unwrap_or(s.len())
}
