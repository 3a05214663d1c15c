//! Reads reports in hex, one on a line of standard input, and prints what each record says and the mirror after it.
//! Its argument is the number of rows of the mirror, which starts as doors are at making.
#![tactic(auto)]

use anyhow::anyhow;
use decoding::line::read_report;
use decoding::said::{record_text, row_text};
use door::row::Row;
use door::shown::ReportRow;
use line_words::fault::ReadFault;
use mirror::apply::apply;
use mirror::reader::Reader;
use mirror::record::Record;
use numeral::decimal::decimal;
use std::env;
use std::io::Read;
use text::lines::Lines;

/// How many rows the mirror has: the argument, 1 to 64.
fn rows_wanted(rt: &HostRuntime) -> anyhow::Result<usize> {
    let mut args = env::args(rt)?;
    let _program = args.next();
    let word = args
        .next()
        .ok_or_else(|| anyhow!("usage: decoder ROWS < REPORTS"))?;
    match decimal(word.as_bytes()) {
        Ok(n @ 1..=64) => Ok(n as usize),
        _ => Err(anyhow!("the number of rows is 1 to 64")),
    }
}

/// Prints each faulty line with its reason, and fails if there is one. No report is kept: a list of any length takes the memory of
/// its text and of one report.
fn check_lines(rt: &HostRuntime, text: &[u8]) -> anyhow::Result<()> {
    let mut found = false;
    // A line has a byte at least.
    for (line, content) in (1..=text.len()).zip(Lines::of(text)) {
        match read_report(rt.alloc(), content) {
            Ok(_) => {}
            Err(ReadFault::Word(fault)) => {
                eprintln!(rt; "line {line}: {fault}")?;
                found = true;
            }
            // Want of memory is no fault of the line.
            Err(error) => return Err(error.into()),
        }
    }
    if found {
        return Err(anyhow!("nothing was decoded"));
    }
    Ok(())
}

/// Prints what a record says, applies it, and prints a refusal, if it is refused.
fn tell(rt: &HostRuntime, record: &Record, mirror: &mut [ReportRow]) -> anyhow::Result<()> {
    rt.println(record_text(rt.alloc(), record)?)?;
    if let Err(refusal) = apply(mirror, record) {
        println!(rt; "{refusal}")?;
    }
    Ok(())
}

/// Reads the records of a report and applies each, up to the end or the first refusal.
fn decode(rt: &HostRuntime, bytes: &[u8], mirror: &mut [ReportRow]) -> anyhow::Result<()> {
    let mut reader = Reader::new(bytes, 0, mirror.len());
    // A record has three bytes at least, so the end comes within as many turns as there are bytes and one.
    // Counted, since a `while let` would need a proof that it ends.
    for _turn in 0..=bytes.len() {
        match reader.next() {
            Ok(None) => break,
            Ok(Some(record)) => tell(rt, &record, mirror)?,
            Err(refusal) => {
                println!(rt; "{refusal}")?;
                break;
            }
        }
    }
    Ok(())
}

fn print_mirror(rt: &HostRuntime, mirror: &[ReportRow]) -> anyhow::Result<()> {
    for (door, row) in mirror.iter().enumerate() {
        rt.println(row_text(rt.alloc(), door, row)?)?;
    }
    Ok(())
}

/// Decodes the report of each line. The lines are read again, one at a time, so that no more than one report is held.
fn decode_all(rt: &HostRuntime, text: &[u8], mirror: &mut [ReportRow]) -> anyhow::Result<()> {
    for (line, content) in (1..=text.len()).zip(Lines::of(text)) {
        let Some(bytes) = read_report(rt.alloc(), content)? else {
            continue;
        };
        println!(rt; "line {line} bytes={}", bytes.len())?;
        decode(rt, bytes.as_slice(), mirror)?;
        print_mirror(rt, mirror)?;
    }
    Ok(())
}

fn run(rt: &HostRuntime) -> anyhow::Result<()> {
    let rows = rows_wanted(rt)?;
    let mut text = Vec::new(rt.alloc());
    rt.stdin().read_to_end(&mut text)?;
    check_lines(rt, text.as_slice())?;
    let mut mirror = vec![in rt.alloc(); Row::at_making().report_row(); rows]?;
    decode_all(rt, text.as_slice(), mirror.as_mut_slice())
}

fn main(rt: HostRuntime) -> anyhow::Result<()> {
    run(&rt)
}
