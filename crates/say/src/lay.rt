// Bytes, long clauses and their offsets laid into lent buffers.
ghost use Rattle.std.specs.Prelude.{◌≡◌, ◌*◌, ◌<◌, ◌≤◌, ℕ, EachIndex, IsOk, length, slice_index, ◌++◌, ◌∷◌, []};
ghost use Rattle.say.specs.Lay.{behind as behind_of, offset_at, laid, fitting};

use crate::lent::cut;
use std::fmt;

// Literal number i of a long clause, from 0: no literal comes again among the first 2,000, no negation comes of any, and the order is not a rising one.
pub fn code(i: usize) -> u16
    ensures low { 2 ≤ result }
    ensures high { result ≤ 4001 }
{
    (i % 2000 * 619 % 2000 * 2 + 2 + i % 2) as u16
}

// Lays codes over a whole buffer, starting anew after each `width` of them.
pub fn codes(lits: &mut [u16], width: usize)
    ensures low { EachIndex lits.new (λ k. 2 ≤ slice_index lits.new k) }
    ensures high { EachIndex lits.new (λ k. slice_index lits.new k ≤ 4001) }
{
    for (i, lit) in lits.iter_mut().enumerate() {
        *lit = code(i.checked_rem(width).unwrap_or(0));
    }
}

// The offset behind a clause of `step` literals; no step begins above 16,000, or is more than 1,001.
fn behind(offset: u32, step: u32) -> u32
    ensures { result ≡ behind_of step offset }
{
    if offset <= 16000 && step <= 1001 {
        offset + step
    } else {
        offset
    }
}

// Lays the offsets of clauses of `step` literals over a whole buffer.
pub fn offsets(offs: &mut [u32], step: u32)
    ensures { EachIndex offs.new (λ k. slice_index offs.new k ≡ offset_at step k) }
{
    let mut next = 0;
    for offset in offs.iter_mut() {
        *offset = next;
        next = behind(next, step);
    }
}

// Lays as many literals as there may be, 16 clauses of 1,000, and a clause of one literal behind them.
pub fn all_literals(lits: &mut [u16], offs: &mut [u32])
    ensures low { EachIndex lits.new (λ k. 2 ≤ slice_index lits.new k) }
    ensures high { EachIndex lits.new (λ k. slice_index lits.new k ≤ 4001) }
    ensures long { (k : ℕ) → k < 17 → k < length offs.new → slice_index offs.new k ≡ 1000 * k }
    ensures last { 17 < length offs.new → slice_index offs.new 17 ≡ 16001 }
{
    codes(lits, 1000);
    offsets(offs, 1000);
    if offs.len() > 17 {
        offs[17] = 16001;
    }
}

// Bytes laid down one behind the other at the front of a lent buffer; a full buffer takes no more.
#[derive(Debug, Drop)]
pub struct Laid<'a> {
    room: &'a mut [u8],
    len: usize,
}

impl<'a> Laid<'a> {
    // A buffer with no bytes laid down yet.
    pub fn new(room: &'a mut [u8]) -> Laid<'a>
        ensures same_room { result.room.ghost_name ≡ room.entry.ghost_name }
        ensures room { result.room.now ≡ room.old }
        ensures bytes { laid result ≡ [] }
    {
        Laid { room, len: 0 }
    }

    // Lays a byte behind the others.
    pub fn put(&mut self, byte: u8)
        ensures same_room { self.new.room.ghost_name ≡ self.old.room.ghost_name }
        ensures room { length self.new.room.now ≡ length self.old.room.now }
        ensures bytes { laid self.new ≡ fitting self.old (laid self.old ++ (byte ∷ [])) }
    {
        if self.len < self.room.len() {
            self.room[self.len] = byte;
            self.len += 1;
        }
    }

    // Lays bytes behind the others.
    pub fn put_all(&mut self, bytes: &[u8])
        ensures same_room { self.new.room.ghost_name ≡ self.old.room.ghost_name }
        ensures room { length self.new.room.now ≡ length self.old.room.now }
        ensures bytes { laid self.new ≡ fitting self.old (laid self.old ++ bytes.now) }
    {
        for byte in bytes {
            self.put(*byte);
        }
    }

    // The bytes laid down.
    pub fn bytes(&self) -> &[u8]
        ensures { result.now ≡ laid self.now }
    {
        cut(self.room, self.len).0
    }
}

impl fmt::Write for Laid<'_> {
    ghost write_str_gives = { λ before text after. laid after ≡ fitting before (laid before ++ text) };

    fn write_str(&mut self, s: &str) -> fmt::Result
        ensures ok { IsOk result → (laid self.new ≡ fitting self.old (laid self.old ++ s.now)) }
        ensures never_fails { IsOk result }
        ensures same_room { self.new.room.ghost_name ≡ self.old.room.ghost_name }
    {
        self.put_all(s.as_bytes());
        Ok(())
    }
}

#[cfg(test)]
mod tests {
    use super::*;
    use std::fmt::Write as _;
    use std::test::Fail;

    #[test]
    fn codes_start_anew(rt: HostRuntime) -> Result<(), Fail> {
        let mut lits = [0; 3];
        codes(&mut lits, 2);
        assert_eq!(rt; lits, [2, 1241, 2]);
        Ok(())
    }

    #[test]
    fn offsets_step(rt: HostRuntime) -> Result<(), Fail> {
        let mut offs = [7; 3];
        offsets(&mut offs, 1000);
        assert_eq!(rt; offs, [0, 1000, 2000]);
        Ok(())
    }

    #[test]
    fn a_full_buffer_takes_no_more(rt: HostRuntime) -> Result<(), Fail> {
        let mut room = [7; 4];
        let mut laid = Laid::new(&mut room);
        laid.put(b'a');
        laid.put_all(b"bc");
        write!(laid, "{}", 10)?;
        assert_eq!(rt; laid.bytes(), b"abc1".as_slice());
        Ok(())
    }
}
