//! `paclang disassemble`: the tree of a program, each node and record with its byte place.
ghost use Rattle.std.specs.Iterator.{IsFinite};

use crate::denial::deny;
use crate::loading::load;
use reader::headers::Header;
use reader::nodes::Node;
use reader::readers::Reader;
use reader::values::Values;
use reader::windows::Window;
use std::fmt::Display;
use std::io;
use std::iter::from_fn;
use std::process::ExitCode;

/// How deep a node stands under ifs, and how many variables are bound before it.
#[derive(Debug, Clone, Copy, PartialEq, Eq)]
struct Level {
    ifs: u8,
    bound: usize,
}

/// Lists the program in a file: success where it reads.
pub(crate) fn list_file(rt: &HostRuntime, path: &str) -> io::Result<ExitCode> {
    let Some(program) = load(rt, path)? else {
        return Ok(ExitCode::FAILURE);
    };
    match reader::programs::read(&program) {
        Ok(header) => list_program(rt, &program, header)?,
        Err(fault) => return deny(rt, fault),
    }
    Ok(ExitCode::SUCCESS)
}

fn list_program(rt: &HostRuntime, program: &[u8], header: Header) -> io::Result<()> {
    println!(rt; "{:>5}  program: {header}", 0)?;
    let mut place = 6;
    // By number, which the listing names.
    for function in 0..header.functions {
        let Ok((window, start)) = Window::record(program, function, place) else {
            return Ok(());
        };
        print!(rt; "{place:>5}  function{function}")?;
        if function < header.threads {
            let thread = function.saturating_add(1);
            print!(rt; " (thread {thread})")?;
        }
        list_record(
            rt,
            Reader {
                window,
                place: start,
            },
        )?;
        place = window.bytes.len();
    }
    Ok(())
}

/// Lists a record from its depth on; one that does not read is left off where it fails.
fn list_record(rt: &HostRuntime, mut reader: Reader) -> io::Result<()> {
    let Ok(depth) = reader.byte() else {
        return Ok(());
    };
    print!(rt; ", depth {depth}, ")?;
    let bound = list_types(rt, &mut reader)?;
    print!(rt; " -> ")?;
    list_types(rt, &mut reader)?;
    println!(rt; "")?;
    list_nodes(rt, reader, Level { ifs: 0, bound })
}

/// Lists a count and that many types; how many there are.
fn list_types(rt: &HostRuntime, reader: &mut Reader) -> io::Result<usize> {
    let count = usize::from(reader.byte().unwrap_or(0));
    let types = from_fn(|| {
        let (ty, next) = reader.window.ty(reader.place).ok()?;
        reader.place = next;
        Some(ty)
    });
    print_list(rt, types.take(count))?;
    Ok(count)
}

/// Lists the nodes of a body in byte order. Behind a return stands the second branch of the last open if.
fn list_nodes(rt: &HostRuntime, mut reader: Reader, first: Level) -> io::Result<()> {
    let mut open = Vec::new(rt.alloc());
    let mut level = first;
    // No more nodes than bytes: a bound, so that the loop ends.
    for _ in 0..reader.window.bytes.len() {
        let place = reader.place;
        let Ok(node) = reader.node(0) else {
            return Ok(());
        };
        print_margin(rt, place, level)?;
        match node {
            Node::Return { values } => {
                print!(rt; "return ")?;
                print_values(rt, reader.window, values)?;
                println!(rt; "")?;
                let Some(second) = open.pop() else {
                    return Ok(());
                };
                level = second;
                print_else(rt, level)?;
            }
            Node::Branch { value, .. } => {
                println!(rt; "if {}", value.value)?;
                level.ifs = level.ifs.saturating_add(1);
                open.push(level)?;
            }
            Node::Call {
                operation,
                arguments,
                results,
            } => {
                print_results(rt, level.bound, results)?;
                print!(rt; "{operation}")?;
                print_values(rt, reader.window, arguments)?;
                println!(rt; "")?;
                level.bound = level.bound.saturating_add(usize::from(results));
            }
        }
    }
    Ok(())
}

fn print_margin(rt: &HostRuntime, place: usize, level: Level) -> io::Result<()> {
    let width = 2 * usize::from(level.ifs);
    print!(rt; "{place:>5}    {:width$}", "")
}

fn print_else(rt: &HostRuntime, level: Level) -> io::Result<()> {
    let width = 2 * usize::from(level.ifs);
    println!(rt; "       {:width$}else", "")
}

/// The variables that a call binds.
// Not by `print_list`: these are numbers of variables, without brackets.
fn print_results(rt: &HostRuntime, bound: usize, results: u8) -> io::Result<()> {
    for variable in bound..bound.saturating_add(usize::from(results)) {
        let comma = if variable > bound { ", " } else { "" };
        print!(rt; "{comma}v{variable}")?;
    }
    if results > 0 {
        print!(rt; " := ")?;
    }
    Ok(())
}

fn print_values(rt: &HostRuntime, window: Window, values: Values) -> io::Result<()> {
    let mut reader = Reader {
        window,
        place: values.place,
    };
    let read = from_fn(|| reader.value().ok());
    print_list(rt, read.take(usize::from(values.count)))
}

/// Writes items in brackets, with commas between them.
fn print_list<T: Display + Drop, I: Iterator<Item = T>>(
    rt: &HostRuntime,
    items: I,
) -> io::Result<()>
    requires can { I.can_next items }
    requires finite { IsFinite (I.remaining items) }
{
    print!(rt; "(")?;
    let mut first = true;
    for item in items {
        let comma = if first { "" } else { ", " };
        print!(rt; "{comma}{item}")?;
        first = false;
    }
    print!(rt; ")")
}
