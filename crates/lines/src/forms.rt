// The fields of a line, judged and read by its form: a letter for each field, a dot for the line's word.
ghost use Rattle.std.specs.Prelude.{◌≡◌, ◌+◌, ◌*◌, ◌^◌, ◌<◌, ◌≤◌, length, position};
ghost use Rattle.std.specs.List.{find, list_all, range_with_len};
ghost use Rattle.octets.specs.Lists.{tab};
ghost use Rattle.text.specs.Fields.{field_at};
ghost use Rattle.text.specs.Hex.{read_into, unhexed};
ghost use Rattle.lines.specs.Kinds.{field_kind, between, value_of, good, protection_of};
ghost use Rattle.lines.specs.Forms.{value_at, has_form, is_row, row_of, worth_at, numbers, among, place_of};
ghost use Rattle.lines.specs.declared.forms.Kind.TheVariants as kinds;

use std::array;

// What a field may be: a word that is not judged here, an address, a decimal up to that, a
// protection; hex of octets, or octets as they stand, so many at least and at most.
#[derive(Clone, Copy)]
pub enum Kind {
    Word,
    Address,
    Decimal(u32),
    Protection,
    Hex(usize, usize),
    Text(usize, usize),
}

// The kind that a letter stands for; any other letter is a word's.
#[tactic(auto, using(octets::proofs::Choices::tests), unfolding(crate::specs::Kinds::field_kind))]
pub fn kind_of(letter: u8) -> Kind
    ensures { result ≡ field_kind letter }
{
    match letter {
        b'A' => Kind::Address,
        b'B' => Kind::Decimal(255),
        b'S' => Kind::Decimal(65535),
        b'C' => Kind::Decimal(4294967295),
        b'T' => Kind::Protection,
        b'K' => Kind::Hex(16, 16),
        b'F' | b'k' | b'h' | b'i' | b't' => Kind::Hex(0, 256),
        b'G' => Kind::Hex(0, 1024),
        b'X' => Kind::Text(0, 256),
        _ => Kind::Word,
    }
}

// What a field is worth by its kind, nothing where it is malformed or beyond its range: an address or a decimal is
// worth that number, the protection `none` 256, since a line's fields are one array of numbers; octets are worth how
// many they are, and a word 0.
#[tactic(auto, using(octets::proofs::Choices::tests), unfolding(crate::specs::Kinds::value_of))]
pub fn value_of(kind: Kind, s: &[u8]) -> Option<u64>
    ensures { result ≡ value_of kind s.now }
{
    match kind {
        Kind::Word => Some(0),
        Kind::Address => text::address_of(s),
        Kind::Decimal(most) => decimal_value(s, most),
        Kind::Protection => protection_value(s),
        Kind::Hex(least, most) => hex_value(s, least, most),
        Kind::Text(least, most) => count_value(s.len(), least, most),
    }
}

#[tactic(auto, unfolding(crate::specs::Kinds::value_of))]
fn decimal_value(s: &[u8], most: u32) -> Option<u64>
    ensures { result ≡ value_of (kinds.Decimal most) s.now }
{
    text::number_of(s, most).map(u64::from)
}

#[tactic(auto, unfolding(crate::specs::Kinds::value_of))]
fn protection_value(s: &[u8]) -> Option<u64>
    ensures { result ≡ value_of kinds.Protection s.now }
{
    if octets::same(s, b"none") {
        return Some(256);
    }
    decimal_value(s, 255)
}

// The protection that a field of that kind is worth: 256 stands for none, and so does any number above it.
pub fn protection_of(worth: u64) -> Option<u8>
    ensures { result ≡ protection_of worth }
{
    u8::try_from(worth).ok()
}

#[tactic(auto, using(octets::proofs::Choices::tests), unfolding(crate::specs::Kinds::value_of))]
fn hex_value(s: &[u8], least: usize, most: usize) -> Option<u64>
    ensures { result ≡ value_of (kinds.Hex least most) s.now }
{
    if s.len() % 2 != 0 || !text::all_digits(16, s) {
        return None;
    }
    count_value(s.len() / 2, least, most)
}

#[tactic(auto, using(octets::proofs::Choices::tests), unfolding(crate::specs::Kinds::between))]
fn count_value(n: usize, least: usize, most: usize) -> Option<u64>
    ensures { result ≡ between least most n }
{
    if n < least || most < n {
        return None;
    }
    Some(n as u64)
}

// Whether the line has that form: as many fields as the form has letters, each of them good.
#[tactic(auto, unfolding(crate::specs::Forms::has_form))]
pub fn has_form(line: &[u8], form: &[u8]) -> bool
    ensures { result ≡ has_form line.now form.now }
{
    text::count(line) == form.len() && are_good(line, form)
}

// Whether each field that the form has a letter for is good.
fn are_good(line: &[u8], form: &[u8]) -> bool
    ensures { result ≡ list_all (λ i. good (value_at line.now form.now i)) (range_with_len 0 (length form.now)) }
{
    (0..form.len()).all(|i| value_at(line, form, i).is_some())
}

// The numbers of a line that has that form, each at its field's place; nothing for any other line.
pub fn numbers(line: &[u8], form: &[u8]) -> Option<[u64; 8]>
    ensures { result ≡ numbers line.now form.now }
{
    if !has_form(line, form) {
        return None;
    }
    Some(numbers_of(line, form))
}

// The row of a table that the line is, by its number. A row is two fields of the table: a word, which
// the line has in field k, and the form that it then has. How many rows there are where it is none.
pub fn row_of(table: &[u8], line: &[u8], k: usize) -> usize
    ensures value { result ≡ row_of table.now line.now k }
    ensures upper_bound { result ≤ length table.now }
{
    let n = text::count(table) / 2;
    first_row(table, n, line, k).unwrap_or(n)
}

// The first of the n rows that the line is.
fn first_row(table: &[u8], n: usize, line: &[u8], k: usize) -> Option<usize>
    requires { n * 2 < 2 ^ 64 }
    ensures { result ≡ find (λ r. is_row table.now line.now k r) (range_with_len 0 n) }
{
    (0..n).find(|r| is_row(table, *r, line, k))
}

#[tactic(auto, unfolding(crate::specs::Forms::is_row))]
fn is_row(table: &[u8], r: usize, line: &[u8], k: usize) -> bool
    requires { r * 2 + 1 < 2 ^ 64 }
    ensures { result ≡ is_row table.now line.now k r }
{
    octets::same(text::field(table, r * 2), text::field(line, k))
        && has_form(line, text::field(table, r * 2 + 1))
}

// The numbers of the first eight fields, each at its field's place; 0 for a bad field, and for one
// that the form does not have.
#[tactic(auto, using(octets::proofs::Filled::all), unfolding(crate::specs::Forms::worth_at, crate::specs::Forms::value_at))]
pub fn numbers_of(line: &[u8], form: &[u8]) -> [u64; 8]
    ensures { result ≡ tab 8 (worth_at line.now form.now) }
{
    array::from_fn(|i| value_at(line, form, i).unwrap_or(0))
}

#[tactic(auto, unfolding(crate::specs::Forms::value_at))]
fn value_at(line: &[u8], form: &[u8], i: usize) -> Option<u64>
    ensures { result ≡ value_at line.now form.now i }
{
    value_of(kind_of(octets::octet(form, i)), text::field(line, i))
}

// Lays the octets of the line's first field whose letter in its form is one of these at the front of out, and
// tells how many. Nothing where the line has no such field, or it spells none; out is then as it stood.
pub fn octets_by(line: &[u8], form: &[u8], letters: &[u8], out: &mut [u8]) -> Option<usize>
    ensures { read_into result out.new ≡ unhexed (field_at line.now (place_of form.now letters.now)) out.old }
{
    text::octets_of(text::field(line, place_of(form, letters)), out)
}

// The first place of the form that has one of those letters, or the place behind it.
#[tactic(auto, using(crate::proofs::Formed::place_is))]
pub(crate) fn place_of(form: &[u8], letters: &[u8]) -> usize
    ensures { result ≡ place_of form.now letters.now }
{
    first_among(form, letters).unwrap_or(form.len())
}

fn first_among(form: &[u8], letters: &[u8]) -> Option<usize>
    ensures { result ≡ position (λ x. among x letters.now) form.now }
{
    form.iter().position(|letter| letters.contains(letter))
}
