// A table of cases that a program has in its standard input: a line for each case, its fields parted by bars, the items of a field by blanks. Every
// table has a meaning: what is missing is empty, and a byte that is no digit is a 0.
#![tactic(auto)]

ghost use Rattle.std.specs.Prelude.{◌≡◌, ◌≤◌, ◌+◌, ◌*◌, ◌%◌, ◌^◌, ◌<◌, ◌==◌, ◌∷◌, [], if◌then◌else◌, length, map, take, ℕ};
ghost use Rattle.lines.specs.Numbers.{digit as digit_of, longer as longer_of, byte_of, number_of, IsNumber};
ghost use Rattle.lines.specs.Pieces.{piece_of, items_of};

use std::io::Read;

// Reads until the table is full or the input ends; what came before a failure counts. A loop by hand: std's read_to_end has its buffer on the heap,
// and read_exact does not tell how many bytes came.
pub fn read_table(input: &mut impl Read, table: &mut [u8]) -> usize
    ensures { result ≤ length table.new }
{
    let mut len = 0;
    while len < table.len() {
        let more = input.read(&mut table[len..]).unwrap_or(0);
        if more == 0 {
            break;
        }
        len += more;
    }
    len
}

// Piece i of a text that a byte parts, from 0; nothing, where there are fewer.
pub fn piece(text: &[u8], by: u8, i: usize) -> &[u8]
    ensures piece { result.now ≡ piece_of text.now by i }
    ensures length { length result.now ≤ length text.now }
{
    text.split(|b| *b == by).nth(i).unwrap_or(&[])
}

// A digit's value, to the base 16; 0 for any other byte. By hand, as std has no digit for such a byte: the programs take every table as they did.
fn digit(b: u8) -> u8
    ensures value { result ≡ digit_of b }
    ensures bound { result < 16 }
{
    match b {
        b'0'..=b'9' => b - b'0',
        b'A'..=b'F' => b - b'A' + 10,
        _ => 0,
    }
}

// A number with one more digit to the base 10; the largest one, where the number is above 1844674407370955160.
// By hand, as std's saturating calls have more numbers below the largest one: the programs take every table as they did.
fn longer(v: usize, d: u8) -> usize
    requires { d < 16 }
    ensures { result ≡ longer_of v d }
{
    if v <= 1844674407370955160 {
        v * 10 + d as usize
    } else {
        usize::MAX
    }
}

// The number that decimal digits say.
pub fn number(s: &[u8]) -> usize
    ensures { result ≡ number_of s.now }
{
    s.iter().fold(0, |v, b| longer(v, digit(*b)))
}

// The byte that two digits to the base 16 say; 0, where there are fewer.
pub fn hex_byte(s: &[u8]) -> u8
    ensures { result ≡ byte_of s.now }
{
    match s {
        [high, low, ..] => digit(*high) * 16 + digit(*low),
        _ => 0,
    }
}

// What an item can be: its number, cut to the type's width.
pub trait Item: Copy {
    ghost cut: { ℕ → Self };

    fn of(number: usize) -> Self
        ensures { result ≡ cut number };
}

impl Item for usize {
    ghost cut = { λ n. n };

    fn of(number: usize) -> usize {
        number
    }
}

impl Item for u32 {
    ghost cut = { λ n. n % 2 ^ 32 };

    fn of(number: usize) -> u32 {
        (number % 4294967296) as u32
    }
}

impl Item for u16 {
    ghost cut = { λ n. n % 2 ^ 16 };

    fn of(number: usize) -> u16 {
        (number % 65536) as u16
    }
}

impl Item for u8 {
    ghost cut = { λ n. n % 2 ^ 8 };

    fn of(number: usize) -> u8 {
        (number % 256) as u8
    }
}

// The first item of a field, and what is behind the blank after it.
fn parted(field: &[u8]) -> (&[u8], &[u8])
    ensures { items_of field.now ≡ (if length result.0.now == 0 then [] else result.0.now ∷ items_of result.1.now) }
{
    match field.iter().position(|b| *b == b' ') {
        Some(at) => (&field[..at], &field[at + 1..]),
        None => (field, &[]),
    }
}

// Lays a field's items at the front of a room, at most as many as there is room for: how many they are. What is left of the field is kept by hand:
// beside a type parameter a `for` over the parts that `split` gives gets no proof.
fn lay_items<T: Item>(field: &[u8], room: &mut [T]) -> usize
    ensures many { result ≤ length room.new }
    ensures laid { take result room.new ≡ take (length room.new) (map (λ s. T.cut (number_of s)) (items_of field.now)) }
{
    let mut left = field;
    let mut len = 0;
    for slot in room.iter_mut() {
        let (item, behind) = parted(left);
        if item.is_empty() {
            break;
        }
        *slot = T::of(number(item));
        len += 1;
        left = behind;
    }
    len
}

// A line of the table.
#[derive(Clone, Copy, Debug, PartialEq, Eq)]
pub struct Case<'a> {
    pub line: &'a [u8],
}

impl<'a> Case<'a> {
    // Field i, from 0; nothing, where there are fewer.
    pub fn field(&self, i: usize) -> &'a [u8]
        ensures field { result.now ≡ piece_of self.now.line.now 124 i }
        ensures length { length result.now ≤ length self.now.line.now }
    {
        piece(self.line, b'|', i)
    }

    // The items of a field up to an empty one, at most as many as there is room for, laid at the front of the room: that front.
    pub fn items<'b, T: Item>(&self, field: usize, room: &'b mut [T]) -> &'b mut [T]
        ensures { result.now ≡ take (length room.old) (map (λ s. T.cut (number_of s)) (items_of (piece_of self.now.line.now 124 field))) }
    {
        let len = lay_items(self.field(field), room);
        &mut room[..len]
    }

    // Item i of a field, from 0; the number 0, where there are fewer.
    pub fn item<T: Item>(&self, field: usize, i: usize) -> T
        ensures { IsNumber T.cut (length self.now.line.now) result }
    {
        let item = piece(self.field(field), b' ', i);
        T::of(number(item))
    }
}

#[cfg(test)]
mod tests {
    use super::*;
    use std::test::Fail;

    #[test]
    fn fields_and_items(rt: HostRuntime) -> Result<(), Fail> {
        let case = Case {
            line: b"a label|5 10 300||7",
        };
        assert_eq!(rt; case.field(0), b"a label".as_slice());
        assert!(rt; case.field(4).is_empty());
        assert_eq!(rt;
            &*case.items::<u16>(1, &mut [7; 10]),
            [5, 10, 300].as_slice()
        );
        assert_eq!(rt; &*case.items::<u8>(1, &mut [7; 10]), [5, 10, 44].as_slice());
        assert_eq!(rt; case.items::<u8>(1, &mut [7; 2]).len(), 2);
        assert!(rt; case.items::<u16>(2, &mut [7; 10]).is_empty());
        assert_eq!(rt; case.item::<usize>(3, 0), 7);
        assert_eq!(rt; case.item::<usize>(3, 1), 0);
        Ok(())
    }

    #[test]
    fn an_empty_item_ends_the_list(rt: HostRuntime) -> Result<(), Fail> {
        let case = Case { line: b"1 2  3" };
        assert_eq!(rt; case.items::<u32>(0, &mut [7; 10]).len(), 2);
        assert_eq!(rt; case.item::<u32>(0, 3), 3);
        Ok(())
    }

    #[test]
    fn every_text_is_a_number(rt: HostRuntime) -> Result<(), Fail> {
        assert_eq!(rt; number(b"1A"), 20);
        assert_eq!(rt; number(b"-1"), 1);
        assert_eq!(rt; number(b"18446744073709551609"), 18446744073709551609);
        assert_eq!(rt; number(b"18446744073709551610"), usize::MAX);
        assert_eq!(rt; number(b"99999999999999999999999"), usize::MAX);
        assert_eq!(rt; hex_byte(b"0A7"), 10);
        assert_eq!(rt; hex_byte(b"7"), 0);
        Ok(())
    }
}
