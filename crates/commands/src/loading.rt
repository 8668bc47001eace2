//! Programs in files: raw bytes in `.bin`, hexadecimal text in any other.
use hex_text::text::{Misprint, decode, lines_before};
use std::{fs, io};

/// The bytes of the program in a file; none where there are none, after a line on standard error that says why.
pub(crate) fn load(rt: &HostRuntime, path: &str) -> io::Result<Option<Vec<u8>>> {
    let bytes = match fs::read(rt, path) {
        Ok(bytes) => bytes,
        Err(error) => {
            eprintln!(rt; "paclang: {path}: {error}")?;
            return Ok(None);
        }
    };
    if path.ends_with(".bin") {
        return Ok(Some(bytes));
    }
    match decode(rt.alloc(), &bytes) {
        Ok(program) => Ok(Some(program)),
        Err(misprint) => {
            print_misprint(rt, path, &bytes, misprint)?;
            Ok(None)
        }
    }
}

fn print_misprint(rt: &HostRuntime, path: &str, text: &[u8], misprint: Misprint) -> io::Result<()> {
    if let Misprint::Unknown { place } = misprint {
        let line = lines_before(text, place).saturating_add(1);
        eprintln!(rt; "paclang: {path}: line {line}: {misprint}")
    } else {
        eprintln!(rt; "paclang: {path}: {misprint}")
    }
}
