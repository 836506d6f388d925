//! certify: cuts and judges the bench lines of an upload.
#![tactic(auto)]

use certificates::kinds::Kind;
use certificates::reading::{condition, line_kind};
use certificates::tally::{Outcome, Tally};
use fault::Fault;
use layout::Layout;
use lists::{Lists, Unheld};
use offsets::OffsetLists;
use source::Source;
use std::fmt::Display;
use std::io::Read;
use std::process::ExitCode;
use std::{env, fs, io};
use values::Values;
use view_lists::ViewLists;

mod layout;
mod lists;
mod offsets;
#[cfg(test)]
mod tests;
mod validity;
mod values;
mod view_lists;

const HELP: &str = "\
certify [--layout offset|view] [UPLOAD]

Reads an upload of roller brake test bench lines, from the file UPLOAD or from standard
input, and tells for each line what became of it.

A line ends with a line feed, before which a carriage return is passed over. The lines are
opened as a column of UTF-8 text, a row a line, and cut at `;`; spaces around a field are
trimmed:
  C;215;dry;25      a condition line: temperature in tenths of a degree, surface, warm-up
                    in minutes. The certificate holds at 150 to 300 tenths, a surface `dry`
                    and a warm-up of at least 20. Numbers have one to three digits, no sign
                    and no leading zero. A line with fewer or more fields holds none.
  A;1;4520;4480     an axle line, counted
  E;1               an end line, counted
A line with any other first field is counted as unknown. A line that is no text is damaged:
its fault is told with number, layer and row, and the run goes on. The last line has the
counts, which add up to the lines read.

  --layout offset   holds the lines in a column with 64-bit offsets (the default)
  --layout view     holds them in a column of string views; it answers the same
  --help            prints this text";

fn main(rt: HostRuntime) -> anyhow::Result<ExitCode> {
    run(&rt)
}

/// Says what is wrong with the command line, and ends with status 1.
fn usage<D: Display + Drop>(rt: &HostRuntime, what: D) -> anyhow::Result<ExitCode> {
    eprintln!(rt; "certify: {what}; see certify --help")?;
    Ok(ExitCode::FAILURE)
}

fn run(rt: &HostRuntime) -> anyhow::Result<ExitCode> {
    let mut words = env::args(rt)?;
    let _program = words.next();
    let mut layout = Layout::Offset;
    let mut word = words.next();
    if let Some(option) = &word {
        if option.as_str() == "--help" {
            println!(rt; "{HELP}")?;
            return Ok(ExitCode::SUCCESS);
        }
        if option.as_str() == "--layout" {
            let named = words.next().map(|name| name.as_str().parse::<Layout>());
            let Some(Ok(named)) = named else {
                return usage(rt, "--layout takes offset or view");
            };
            layout = named;
            word = words.next();
        }
    }
    if words.next().is_some() {
        return usage(rt, "one upload at a time");
    }
    match word {
        None => {
            let mut upload = Vec::new(rt.alloc());
            rt.stdin().read_to_end(&mut upload)?;
            lay_out(rt, layout, upload.as_slice())
        }
        Some(word) => read_file(rt, layout, word.as_str()),
    }
}

fn read_file(rt: &HostRuntime, layout: Layout, path: &str) -> anyhow::Result<ExitCode> {
    match fs::read(rt, path) {
        Ok(upload) => lay_out(rt, layout, upload.as_slice()),
        Err(error) => {
            eprintln!(rt; "certify: cannot read {path}: {error}")?;
            Ok(ExitCode::FAILURE)
        }
    }
}

/// Says that an upload is not held, and ends with status 1.
fn refused(rt: &HostRuntime, unheld: Unheld) -> anyhow::Result<ExitCode> {
    match unheld {
        Unheld::TooLarge(layout) => {
            usage(rt, format_args!("the upload is too large for {layout}s"))
        }
        Unheld::Fault(fault) => {
            eprintln!(rt; "certify: {fault}")?;
            Ok(ExitCode::FAILURE)
        }
        Unheld::Memory(error) => Err(error.into()),
    }
}

fn lay_out(rt: &HostRuntime, layout: Layout, upload: &[u8]) -> anyhow::Result<ExitCode> {
    let lines = Values::new(rt.alloc(), upload)?;
    // An arm for each: a trait cannot name the column that borrows its lists (tried: its associated type takes no lifetime).
    match layout {
        Layout::Offset => match OffsetLists::hold(rt.alloc(), lines) {
            Ok(lists) => certify_opened(rt, lists.open()),
            Err(unheld) => refused(rt, unheld),
        },
        Layout::View => match ViewLists::hold(rt.alloc(), lines) {
            Ok(lists) => certify_opened(rt, lists.open()),
            Err(unheld) => refused(rt, unheld),
        },
    }
}

fn certify_opened<'a, S: Source<'a> + Drop>(
    rt: &HostRuntime,
    opened: Result<S, Fault>,
) -> anyhow::Result<ExitCode> {
    match opened {
        Ok(column) => certify(rt, &column),
        Err(fault) => refused(rt, fault.into()),
    }
}

/// Tells of every row of a column, and then the counts.
fn certify<'a, S: Source<'a>>(rt: &HostRuntime, column: &S) -> anyhow::Result<ExitCode> {
    let mut tally = Tally::new();
    // By numbers, which rows and lines go by.
    for row in 0..column.rows() {
        let outcome = certify_row(rt, row, column.text(row))?;
        tally.count(outcome)?;
    }
    println!(rt; "{tally}")?;
    Ok(ExitCode::SUCCESS)
}

/// Tells of one line. A null row is one that opening refused.
fn certify_row(rt: &HostRuntime, row: usize, text: Option<&str>) -> io::Result<Outcome> {
    let number = row.saturating_add(1);
    let Some(text) = text else {
        return damaged(rt, number, Fault::Malformed { row });
    };
    match line_kind(text) {
        Ok(Kind::ConditionLine) => certify_condition(rt, number, text),
        Ok(Kind::AxleLine) => {
            println!(rt; "line {number}: axle line")?;
            Ok(Outcome::Axle)
        }
        Ok(Kind::EndLine) => {
            println!(rt; "line {number}: end line")?;
            Ok(Outcome::End)
        }
        Ok(Kind::UnknownLine) => {
            println!(rt; "line {number}: unknown line {text:?}")?;
            Ok(Outcome::Unknown)
        }
        Err(fault) => damaged(rt, number, fault),
    }
}

fn damaged(rt: &HostRuntime, number: usize, fault: Fault) -> io::Result<Outcome> {
    println!(rt; "line {number}: damaged: {fault}")?;
    Ok(Outcome::Damaged)
}

/// Tells of a condition line.
fn certify_condition(rt: &HostRuntime, number: usize, line: &str) -> io::Result<Outcome> {
    let fields = match condition(line) {
        Ok(fields) => fields,
        Err(fault) => return damaged(rt, number, fault),
    };
    let temperature = fields.temperature;
    let surface = fields.surface;
    let warm_up = fields.warm_up;
    print!(rt;
        "line {number}: temperature {temperature:?}, surface {surface:?}, warm-up {warm_up:?}: "
    )?;
    match fields.judge() {
        Ok(()) => {
            println!(rt; "certificate")?;
            Ok(Outcome::Certified)
        }
        Err(refusal) => {
            println!(rt; "no certificate, {refusal}")?;
            Ok(Outcome::Refused)
        }
    }
}
