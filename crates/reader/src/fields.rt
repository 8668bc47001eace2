//! Fields and values: from a place to what stands there and the place after it.
ghost use Rattle.std.specs.Prelude.{◌≡◌, ℕ, length};
ghost use Rattle.reader.specs.Fields.{Read, read_in, bytes_at, byte_at, half_at, word_at, value_at, type_at, range_at, count_at, list_at, Onward, listed, ReadsAs, skipped};
ghost use Rattle.reader.specs.Faults.{fault};

use crate::faults::Fault;
use crate::questions::Question;
use crate::types::Ty;
use crate::values::{Value, Values};
use crate::windows::Window;

impl<'a> Window<'a> {
    /// The fault of a question at a place of this window.
    pub fn fault(&self, question: Question, place: usize) -> Fault
        ensures { result ≡ fault question self.now.function place }
    {
        Fault::new(question, self.function, place)
    }

    /// The `N` bytes at a place.
    #[inline(always)]
    fn field<const N: usize>(&self, place: usize) -> Result<([u8; N], usize), Fault>
        ensures { result ≡ read_in self.now (bytes_at N) place }
    {
        match self.bytes.get(place..).and_then(<[u8]>::first_chunk::<N>) {
            Some(bytes) => Ok((*bytes, place + N)),
            None => Err(self.fault(Question::Inside, place)),
        }
    }

    // The pair of what was read and the next place is the stated form of each reader, so `onward` is a clause and no type.
    /// One byte.
    #[inline(always)]
    pub fn byte(&self, place: usize) -> Result<(u8, usize), Fault>
        ensures reads { result ≡ read_in self.now byte_at place }
        ensures onward { Onward place (length self.now.bytes.now) result }
    {
        let ([byte], next) = self.field::<1>(place)?;
        Ok((byte, next))
    }

    /// Two bytes, the larger part first.
    #[inline(always)]
    pub fn half(&self, place: usize) -> Result<(u16, usize), Fault>
        ensures reads { result ≡ read_in self.now half_at place }
        ensures onward { Onward place (length self.now.bytes.now) result }
    {
        let (bytes, next) = self.field::<2>(place)?;
        Ok((u16::from_be_bytes(bytes), next))
    }

    /// Four bytes, the larger part first.
    #[inline(always)]
    #[tactic(auto, using(crate::proofs::Spans::word_of))]
    pub fn word(&self, place: usize) -> Result<(u32, usize), Fault>
        ensures reads { result ≡ read_in self.now word_at place }
        ensures onward { Onward place (length self.now.bytes.now) result }
    {
        let (bytes, next) = self.field::<4>(place)?;
        Ok((u32::from_be_bytes(bytes), next))
    }

    /// A value, and the place after it.
    #[inline(always)]
    pub fn value(&self, place: usize) -> Result<(Value, usize), Fault>
        ensures reads { result ≡ read_in self.now value_at place }
        ensures onward { Onward place (length self.now.bytes.now) result }
    {
        let (tag, next) = self.byte(place)?;
        match tag {
            0x10 => {
                let (integer, next) = self.word(next)?;
                Ok((Value::Integer(integer), next))
            }
            0x11 => {
                let (truth, next) = self.byte(next)?;
                match truth {
                    0 => Ok((Value::Truth(false), next)),
                    1 => Ok((Value::Truth(true), next)),
                    _ => Err(self.fault(Question::KnownValue, place)),
                }
            }
            0x12 => {
                let (variable, next) = self.byte(next)?;
                Ok((Value::Variable(variable), next))
            }
            _ => Err(self.fault(Question::KnownValue, place)),
        }
    }

    /// A type.
    #[tactic(auto, using(crate::proofs::NoType::no_type))]
    pub fn ty(&self, place: usize) -> Result<(Ty, usize), Fault>
        ensures reads { result ≡ read_in self.now type_at place }
        ensures onward { Onward place (length self.now.bytes.now) result }
    {
        let (code, next) = self.byte(place)?;
        // Made whether or not it is needed: of a closure that reads `self` the check knows no answer.
        let unknown = self.fault(Question::KnownType, place);
        let ty = Ty::try_from(code).map_err(|_| unknown)?;
        Ok((ty, next))
    }

    /// A byte from `low` to `high`, or the question that it answers no.
    #[inline(always)]
    pub(crate) fn range(
        &self,
        question: Question,
        low: u8,
        high: u8,
        place: usize,
    ) -> Result<(u8, usize), Fault>
        ensures reads { result ≡ read_in self.now (range_at question low high) place }
        ensures onward { Onward place (length self.now.bytes.now) result }
    {
        let (value, next) = self.byte(place)?;
        if !(low..=high).contains(&value) {
            return Err(self.fault(question, place));
        }
        Ok((value, next))
    }

    /// A count of at most 8.
    #[inline(always)]
    pub fn count(&self, place: usize) -> Result<(u8, usize), Fault>
        ensures reads { result ≡ read_in self.now count_at place }
        ensures onward { Onward place (length self.now.bytes.now) result }
    {
        self.range(Question::ListLength, 0, 8, place)
    }

    /// The place after `count` items, each read by `item`.
    #[inline(always)]
    #[tactic(auto, using(crate::proofs::Skips::skipped_more))]
    pub(crate) fn skip<T: Drop, F: Fn(&Window<'a>, usize) -> Result<(T, usize), Fault>>(
        &self,
        count: u8,
        place: usize,
        item: F,
    ) -> Result<usize, Fault>
        requires { F.IsAlwaysCallable item }
        ensures { (one : ℕ → Read T) → ReadsAs (F.post item) self.now one → result ≡ skipped one count place }
    {
        let mut next = place;
        // A number of steps: items have no one width, so that no slice has them.
        for _ in 0..count {
            (_, next) = item(self, next)?;
        }
        Ok(next)
    }

    /// A count and that many values: where they stand.
    #[inline(always)]
    pub(crate) fn list(&self, place: usize) -> Result<(Values, usize), Fault>
        ensures reads { result ≡ listed place (read_in self.now list_at place) }
        ensures onward { Onward place (length self.now.bytes.now) result }
    {
        let (count, first) = self.count(place)?;
        let next = self.skip(count, first, Self::value)?;
        Ok((
            Values {
                count,
                place: first,
            },
            next,
        ))
    }
}
