// Forms with long clauses laid down by hand, field by field.
use say::lay::{self, Laid};

// What a clause's field says of it.
#[derive(Clone, Copy, Debug, PartialEq, Eq)]
pub enum Kind {
    Live,
    Removed,
}

// A form so far, at the front of a lent buffer.
#[derive(Drop)]
pub struct Form<'a> {
    laid: Laid<'a>,
}

impl<'a> Form<'a> {
    // A form with a header's field.
    pub fn new(
        room: &'a mut [u8],
        variables: u16,
        clauses: u16,
        literals: u16,
        removals: u16,
    ) -> Self {
        let mut form = Form {
            laid: Laid::new(room),
        };
        form.laid.put_all(b"\x01\x00\x08");
        for number in [variables, clauses, literals, removals] {
            form.put(number);
        }
        form
    }

    // Puts a number behind it, high byte first.
    fn put(&mut self, number: u16) {
        self.laid.put_all(&number.to_be_bytes());
    }

    // Puts the field of clause k with so many literals behind it: live, or removed by its first literal.
    pub fn put_clause(&mut self, kind: Kind, k: u16, many: u16) {
        let len = many.saturating_mul(2);
        match kind {
            Kind::Live => {
                self.laid.put(2);
                self.put(len.saturating_add(2));
                self.put(k);
            }
            Kind::Removed => {
                self.laid.put(3);
                self.put(len.saturating_add(4));
                self.put(k);
                self.put(lay::code(0));
            }
        }
        for i in 0..many {
            self.put(lay::code(usize::from(i)));
        }
    }

    // Puts the end's field behind it.
    pub fn put_end(&mut self) {
        self.laid.put_all(b"\x7F\x00\x00");
    }

    // Its bytes.
    pub fn bytes(&self) -> &[u8] {
        self.laid.bytes()
    }
}
