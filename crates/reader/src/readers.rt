//! A reader with a place of its own.
ghost use Rattle.std.specs.Prelude.{◌≡◌};
ghost use Rattle.reader.specs.Fields.{read_in, byte_at, half_at, word_at, value_at};
ghost use Rattle.reader.specs.Nodes.{node_at, sight};
ghost use Rattle.reader.specs.Readers.{answer, moved, Steps};

use crate::faults::Fault;
use crate::nodes::Node;
use crate::values::Value;
use crate::windows::Window;

/// A place in the caller's bytes. Each call reads what stands there and moves behind it, or reports a fault and stays.
#[derive(Clone, Copy, Debug, PartialEq, Eq)]
pub struct Reader<'a> {
    pub window: Window<'a>,
    pub place: usize,
}

impl<'a> Reader<'a> {
    /// Reads what stands at the place and moves behind it, or stays at a fault.
    fn step<T, F: FnOnce(&Window<'a>, usize) -> Result<(T, usize), Fault>>(
        &mut self,
        read: F,
    ) -> Result<T, Fault>
        requires { F.IsAlwaysCallable read }
        ensures { Steps (F.post read) self.old result self.new }
    {
        let (value, next) = read(&self.window, self.place)?;
        self.place = next;
        Ok(value)
    }

    /// One byte.
    pub fn byte(&mut self) -> Result<u8, Fault>
        ensures answer { result ≡ answer (read_in self.old.window byte_at self.old.place) }
        ensures after { self.new ≡ moved self.old (read_in self.old.window byte_at self.old.place) }
    {
        self.step(Window::byte)
    }

    /// Two bytes, the larger part first.
    pub fn half(&mut self) -> Result<u16, Fault>
        ensures answer { result ≡ answer (read_in self.old.window half_at self.old.place) }
        ensures after { self.new ≡ moved self.old (read_in self.old.window half_at self.old.place) }
    {
        self.step(Window::half)
    }

    /// Four bytes, the larger part first.
    pub fn word(&mut self) -> Result<u32, Fault>
        ensures answer { result ≡ answer (read_in self.old.window word_at self.old.place) }
        ensures after { self.new ≡ moved self.old (read_in self.old.window word_at self.old.place) }
    {
        self.step(Window::word)
    }

    /// A value.
    pub fn value(&mut self) -> Result<Value, Fault>
        ensures answer { result ≡ answer (read_in self.old.window value_at self.old.place) }
        ensures after { self.new ≡ moved self.old (read_in self.old.window value_at self.old.place) }
    {
        self.step(Window::value)
    }

    /// A node under `ifs` ifs, without what follows it.
    pub fn node(&mut self, ifs: u8) -> Result<Node, Fault>
        ensures answer { result ≡ answer (sight self.old.place (read_in self.old.window node_at ifs self.old.place)) }
        ensures after { self.new ≡ moved self.old (read_in self.old.window node_at ifs self.old.place) }
    {
        self.step(|window, place| window.node(ifs, place))
    }
}
