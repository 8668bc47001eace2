//! Packets alive, as text.
ghost use Rattle.std.specs.Prelude.{Some};
ghost use Rattle.commands.specs.States.{name_text};

use std::alloc::AllocError;
use std::fmt;
use store::{Name, Store};

/// A name as text: its maker and its count, with a dot between them.
#[derive(Debug, Clone, Copy, PartialEq, Eq)]
pub(crate) struct Dotted(pub(crate) Name);

impl fmt::Display for Dotted {
    ghost output = { λ dotted. Some (name_text dotted.0) };

    fn fmt<W: fmt::Write>(&self, f: &mut fmt::Formatter<W>) -> fmt::Result {
        let maker = self.0.maker;
        let count = self.0.count;
        write!(f, "{maker}.{count}")
    }
}

/// Writes the packets of these names that are alive, each with its holder and its bytes; a dash where there are none.
pub(crate) fn write_packets<S: Store>(
    text: &mut String,
    store: &S,
    names: &[Name],
) -> Result<(), AllocError> {
    let mut mark = "";
    for name in names {
        let Ok(holder) = store.holder(*name) else {
            continue;
        };
        write!(text, "{mark}{}:{holder}:", Dotted(*name))?;
        write_bytes(text, store, *name)?;
        mark = ";";
    }
    if mark.is_empty() {
        text.push('-')?;
    }
    Ok(())
}

/// Writes bytes in hexadecimal; a dash where there are none.
pub(crate) fn write_hex(text: &mut String, bytes: &[u8]) -> Result<(), AllocError> {
    if bytes.is_empty() {
        text.push('-')?;
    }
    for byte in bytes {
        write!(text, "{byte:02X}")?;
    }
    Ok(())
}

fn write_bytes<S: Store>(text: &mut String, store: &S, name: Name) -> Result<(), AllocError> {
    for offset in 0..store.size(name).unwrap_or(0) {
        let byte = store.read(name, offset).unwrap_or(0);
        write!(text, "{byte:02X}")?;
    }
    Ok(())
}
