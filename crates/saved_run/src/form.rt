// K2 laid down by hand, a field to a line, and a form printed in the same way.
ghost use Rattle.std.specs.Prelude.{length};
ghost use Rattle.std.specs.Iterator.{at_most};

use std::fmt;

pub const K2: [u8; 63] = [
    0x01, 0x00, 0x08, 0x00, 0x05, 0x00, 0x05, 0x00, 0x0A, 0x00, 0x02, // the header
    0x02, 0x00, 0x06, 0x00, 0x03, 0x00, 0x03, 0x00, 0x04, // clause 3
    0x02, 0x00, 0x06, 0x00, 0x04, 0x00, 0x05, 0x00, 0x06, // clause 4
    0x02, 0x00, 0x06, 0x00, 0x05, 0x00, 0x07, 0x00, 0x02, // clause 5
    0x03, 0x00, 0x08, 0x00, 0x02, 0x00, 0x0A, 0x00, 0x09, 0x00, 0x0A, // clause 2, removed
    0x03, 0x00, 0x08, 0x00, 0x01, 0x00, 0x08, 0x00, 0x02, 0x00, 0x08, // clause 1, removed
    0x7F, 0x00, 0x00, // the end
];

// The fields of a form: a tag, a length of two bytes and so many bytes; what makes no whole field is the last.
#[derive(Clone, Copy, Debug)]
struct Fields<'a>(&'a [u8]);

impl<'a> Iterator for Fields<'a> {
    type Item = &'a [u8];

    ghost remaining = { λ s. at_most (length s.0.now) };

    fn next(&mut self) -> Option<&'a [u8]> {
        let end = match self.0 {
            [] => return None,
            [_, high, low, ..] => 3 + usize::from(u16::from_be_bytes([*high, *low])),
            _ => self.0.len(),
        };
        let (field, rest) = self.0.split_at(end.min(self.0.len()));
        self.0 = rest;
        Some(field)
    }
}

// A form as document 01 writes it, a field to a line: each byte as two digits to the base 16.
#[derive(Clone, Copy, Debug)]
pub struct Written<'a>(pub &'a [u8]);

impl fmt::Display for Written<'_> {
    fn fmt<W: fmt::Write>(&self, f: &mut fmt::Formatter<W>) -> fmt::Result {
        for field in Fields(self.0) {
            f.write_str("\n ")?;
            for byte in field {
                write!(f, " {byte:02X}")?;
            }
        }
        Ok(())
    }
}
