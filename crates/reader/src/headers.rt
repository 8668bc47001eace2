//! The head of a program.
ghost use Rattle.std.specs.Prelude.{Some};
ghost use Rattle.reader.specs.Texts.{header_text};

use std::fmt;

/// How many threads, queues of its own and functions a program has.
#[derive(Debug, Clone, Copy, PartialEq, Eq)]
pub struct Header {
    pub threads: u8,
    pub queues: u8,
    pub functions: u8,
}

impl fmt::Display for Header {
    ghost output = { λ header. Some (header_text header) };

    fn fmt<W: fmt::Write>(&self, f: &mut fmt::Formatter<W>) -> fmt::Result {
        let threads = self.threads;
        let queues = self.queues;
        let functions = self.functions;
        write!(
            f,
            "threads {threads}, own queues {queues}, functions {functions}"
        )
    }
}
