//! The lines of a script on one store.
ghost use Rattle.std.specs.Prelude.{◌≡◌, ◌≤◌, length, IfOk};
ghost use Rattle.commands.specs.Calls.{call_answer, call_after};

use crate::answers::Answer;
use crate::calls::Call;
use crate::lending::Visitor;
use crate::lines::{Line, without_answer};
use crate::packets::write_packets;
use crate::refusals::Refusal;
use crate::states::write_state;
use machine::machine::Machine;
use std::alloc::{AllocError, Global};
use store::{Name, Store};

/// The lines up to the next store, to be played on one.
#[derive(Drop)]
pub(crate) struct Session<'a> {
    pub(crate) heap: Global,
    pub(crate) lines: &'a [String],
}

impl Session<'_> {
    /// The lines without a store to play them on.
    pub(crate) fn refuse(self) -> Result<String, AllocError> {
        let mut text = String::new(self.heap);
        for line in self.lines {
            let asked = without_answer(line.as_str());
            match Line::read(asked) {
                Ok(Line::Plain | Line::Store(_) | Line::Prior { .. }) => writeln!(text, "{asked}")?,
                Ok(Line::Have { .. } | Line::Call(_) | Line::Request(_) | Line::State) => {
                    writeln!(text, "{asked} -> {}", Refusal::NoStore)?
                }
                Err(refusal) => writeln!(text, "{asked} -> {refusal}")?,
            }
        }
        Ok(text)
    }
}

impl Visitor for Session<'_> {
    type Output = String;

    fn visit<S: Store + Drop>(self, store: S) -> Result<String, AllocError> {
        let Session { heap, lines } = self;
        let mut text = String::new(heap);
        let (on_store, on_machine) = lines.split_at(requested(lines));
        let mut desk = Desk {
            store,
            names: Vec::new(heap),
        };
        for line in on_store {
            let asked = without_answer(line.as_str());
            text.push_str(asked)?;
            desk.answer(&mut text, asked)?;
            text.push('\n')?;
        }
        let mut bench = Bench::over(heap, desk);
        for line in on_machine {
            let asked = without_answer(line.as_str());
            text.push_str(asked)?;
            bench.answer(&mut text, asked)?;
            text.push('\n')?;
        }
        Ok(text)
    }
}

/// How many lines stand before the first call on a machine.
fn requested(lines: &[String]) -> usize
    ensures { result ≤ length lines.now }
{
    lines
        .iter()
        .position(|line| {
            matches!(
                Line::read(without_answer(line.as_str())),
                Ok(Line::Request(_))
            )
        })
        .unwrap_or(lines.len())
}

/// A store with the names that were made in it and not dropped, in their order: a store itself does not list them.
#[derive(Drop)]
struct Desk<S> {
    store: S,
    names: Vec<Name>,
}

impl<S: Store> Desk<S> {
    /// Does what a line asks for, and writes the answer if it has one.
    fn answer(&mut self, text: &mut String, asked: &str) -> Result<(), AllocError> {
        match Line::read(asked) {
            Ok(Line::Plain | Line::Store(_) | Line::Prior { .. } | Line::Request(_)) => Ok(()),
            Ok(Line::Have { name, size }) => {
                self.call(Call::Make { name, size })?;
                Ok(())
            }
            Ok(Line::Call(call)) => {
                let answer = self.call(call)?;
                write!(text, " -> {answer}")
            }
            Ok(Line::State) => {
                write!(text, " P=")?;
                write_packets(text, &self.store, &self.names)
            }
            Err(refusal) => write!(text, " -> {refusal}"),
        }
    }

    /// Makes a call, and keeps the list of names up to date.
    fn call(&mut self, call: Call) -> Result<Answer, AllocError>
        ensures answer { IfOk result (λ answer. answer ≡ call_answer S.Kind.KIND (S.meaning self.old.store) call) }
        ensures after { S.meaning self.new.store ≡ call_after (S.meaning self.old.store) call }
    {
        let answer = call.run_on(&mut self.store);
        match (call, answer) {
            (Call::Make { name, .. }, Answer::Granted) => {
                if let Err(place) = self.names.binary_search(&name) {
                    self.names.insert(place, name)?;
                }
            }
            (Call::Discard(name), Answer::Granted) => {
                if let Ok(place) = self.names.binary_search(&name) {
                    self.names.remove(place);
                }
            }
            _ => {}
        }
        Ok(answer)
    }
}

/// A machine that has the store, with the names that the store had before.
#[derive(Drop)]
struct Bench<S: Store> {
    heap: Global,
    machine: Machine<S>,
    names: Vec<Name>,
}

impl<S: Store> Bench<S> {
    /// A machine takes the store.
    fn over(heap: Global, desk: Desk<S>) -> Bench<S> {
        let Desk { store, names } = desk;
        Bench {
            heap,
            machine: Machine::new(store),
            names,
        }
    }

    /// Does what a line asks for, and writes the answer if it has one.
    fn answer(&mut self, text: &mut String, asked: &str) -> Result<(), AllocError> {
        match Line::read(asked) {
            Ok(Line::Plain | Line::Store(_) | Line::Prior { .. }) => Ok(()),
            Ok(Line::Have { .. } | Line::Call(_)) => write!(text, " -> {}", Refusal::Taken),
            Ok(Line::Request(request)) => request.answer(self.heap, text, &mut self.machine),
            Ok(Line::State) => {
                write!(text, " ")?;
                write_state(self.heap, text, &self.machine, &self.names)
            }
            Err(refusal) => write!(text, " -> {refusal}"),
        }
    }
}
