//! What a copied program says.
ghost use Rattle.std.specs.Prelude.{◌≡◌, ◌↔◌, IsTrue};
ghost use Rattle.reader.specs.Programs.{header};
ghost use Rattle.typing.specs.Typing.{Tail};
ghost use Rattle.code.specs.Copies.{bytes_of, program_of, Listed};
ghost use Rattle.code.specs.Sights.{sees, valued, count_there, Argued};

use super::Code;
use crate::functions::Function;
use crate::sights::Sight;
use checker::variables::consecutive;
use reader::headers::Header;
use reader::values::{Value, Values};
use reader::windows::{OUTSIDE, Window};

impl Code {
    /// The bytes of the whole program.
    #[inline(always)]
    pub(crate) fn window(&self) -> Window<'_>
        ensures bytes { result.bytes.now ≡ bytes_of self.now }
        ensures function { result.function ≡ 255 }
    {
        Window {
            bytes: self.bytes.as_slice(),
            function: OUTSIDE,
        }
    }

    /// How many threads the program has, how many queues of its own, and how many functions.
    pub fn header(&self) -> Header
        ensures { result ≡ header (program_of self.now) }
    {
        Header {
            threads: self.threads,
            queues: self.queues,
            functions: self.functions.len() as u8,
        }
    }

    /// A function by its number.
    pub fn function(&self, function: u8) -> Option<Function>
        ensures { Listed (bytes_of self.now) (program_of self.now) function result }
    {
        self.functions.get(usize::from(function))
    }

    /// The value at a place, and the place after it.
    #[inline(always)]
    pub fn value(&self, place: usize) -> Option<(Value, usize)>
        ensures { result ≡ valued (bytes_of self.now) place }
    {
        self.window().value(place).ok()
    }

    /// The count of results at a place, and the place after it.
    #[inline(always)]
    pub fn results(&self, place: usize) -> Option<(u8, usize)>
        ensures { result ≡ count_there (bytes_of self.now) place }
    {
        self.window().count(place).ok()
    }

    /// The arguments of a call, if it has `N`, and the place of the node after it.
    #[inline(always)]
    pub fn arguments<const N: usize>(&self, values: Values) -> Option<([Value; N], usize)>
        ensures { Argued (bytes_of self.now) values N result }
    {
        if usize::from(values.count) != N {
            return None;
        }
        let mut arguments = [Value::Truth(false); N];
        // The place goes along by hand: an iterator over the values would owe a relation of what it yields.
        let mut place = values.place;
        for i in 0..N {
            let (value, next) = self.value(place)?;
            arguments[i] = value;
            place = next;
        }
        let (_, next) = self.results(place)?;
        Some((arguments, next))
    }

    /// Whether the node at a place returns just the `results` variables from `first` on: then the call before it is a tail call.
    pub fn is_tail(&self, first: u8, results: u8, place: usize) -> bool
        ensures { IsTrue result ↔ Tail first results (sees (bytes_of self.now) place) }
    {
        match self.sight(place) {
            Sight::Return { values } => {
                values.count == results && consecutive(&self.window(), first, values)
            }
            _ => false,
        }
    }
}
