//! The rows of whole command lines: each case of the tables that the words name is run by the tool's top call over a desk in memory. A
//! case whose status or bytes aren't those of its table has a line, and the last line says how many cases are right and wrong.
#![tactic(auto)]

use occ_rows::Table;
use occ_tool_run::{Memory, MemoryDesk, run};
use std::alloc::Global;
use std::{env, fs, io};

/// How many cases are right and wrong, and a line for each that is wrong.
#[derive(Drop)]
struct Report {
    right: u64,
    wrong: u64,
    lines: String,
}

/// Runs the cases of a table's text.
fn run_table(
    alloc: Global,
    table: &mut Table,
    text: &str,
    report: &mut Report,
) -> Result<(), Memory> {
    for block in text.split("\n\n") {
        if table.read(block)? {
            run_case(alloc, table, report)?;
        }
    }
    Ok(())
}

/// Runs the case that was read last.
fn run_case(alloc: Global, table: &mut Table, report: &mut Report) -> Result<(), Memory> {
    let words = table.words()?;
    let mut desk: MemoryDesk = table.desk()?;
    let status = run(alloc, words.as_slice(), &mut desk);
    let written = desk.written();
    if table.is_right(status, written) {
        report.right = report.right.saturating_add(1);
    } else {
        report.wrong = report.wrong.saturating_add(1);
        let text = String::from_utf8_lossy(alloc, written)?;
        let line = format!(in alloc; "{}: status {status}, {text:?}\n", table.name())?;
        report.lines.push_str(line.as_str())?;
    }
    table.keep(written)
}

fn main(rt: HostRuntime) -> io::Result<()> {
    let alloc = rt.alloc();
    let names: Vec<String> = env::args(&rt)?.collect(alloc)?;
    let mut table = Table::new(alloc);
    let mut report = Report {
        right: 0,
        wrong: 0,
        lines: String::new(alloc),
    };
    for name in names.iter().skip(1) {
        let text = fs::read_to_string(&rt, name.as_str())?;
        if run_table(alloc, &mut table, text.as_str(), &mut report).is_err() {
            println!(rt; "{name}: out of memory")?;
        }
    }
    let Report {
        right,
        wrong,
        lines,
    } = report;
    println!(rt; "{lines}{right} cases are right, {wrong} are wrong")?;
    Ok(())
}
