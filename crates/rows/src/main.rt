//! Carries out the rows of tables through the top call, over files and a sink in memory, and says which differ.
//!
//! The arguments name the tables. A table is text; `README.md` says of each of its lines what it means. For example:
//!
//! ```text
//! bytes EMPTY
//! | int main(void)
//! | {
//! | }
//!
//! scene
//! room 94
//! file P all EMPTY
//! file S > 0
//!
//! row where the schedule can't be read
//! fails fetch 2 0
//! call run P 1 S
//! ends ReadFault
//! prints | read fault: S
//! leaves P all EMPTY
//! lacks T
//! ```
//!
//! `bytes` names bytes. `scene` begins what each row below begins with, and `row` a row: a title, calls, and what is
//! wanted of each call. The bytes of a `file`, and those that a call `prints` or `leaves`, are made of pieces, in the
//! same line or the next ones: `| TEXT` with a line break, `> TEXT` without one, `hex DIGITS`, `all NAME`,
//! `copies COUNT NAME`, `front COUNT NAME`, `digest NAME`, and `closing`, the digest of all before it. `room COUNT` is
//! for a file that a call writes, `sink COUNT` for what it prints, and `fails KIND NTH KEPT` has the nth `fetch`,
//! `begin`, `append`, `close` or `put` fail and keep so many bytes.
#![tactic(auto)]

mod fault;
mod line;
mod row;
mod setup;
mod shown;
mod table;

use fault::Fault;
use row::Row;
use std::alloc::Global;
use std::process::ExitCode;
use std::rt::{Env, Files};
use std::{env, fs};
use table::read_table;

// Carries out the rows, prints a line for each that differs, and counts these.
fn differing(
    rt: &(impl Print + AllocGlobal),
    alloc: Global,
    name: &str,
    rows: &[Row],
) -> Result<usize, Fault> {
    let mut count = 0usize;
    for row in rows {
        let told = row.differences(alloc)?;
        if !told.is_empty() {
            count = count.saturating_add(1);
            let line = row.line;
            let title = row.title.as_str();
            println!(rt; "{name}, line {line}, {title}{told}")?;
        }
    }
    Ok(count)
}

// Carries out the rows of a table, prints how many there are, and says whether none differs.
fn holds<R: Print + Files + AllocGlobal>(rt: &R, name: &str) -> Result<bool, Fault> {
    let text = fs::read_to_string(rt, name)?;
    let rows = match read_table(rt.alloc(), text.as_str()) {
        Ok(rows) => rows,
        Err(unreadable) => {
            let line = unreadable.line;
            let fault = unreadable.fault;
            println!(rt; "{name}, line {line}: {fault}")?;
            return Ok(false);
        }
    };
    let count = rows.len();
    let differ = differing(rt, rt.alloc(), name, &rows)?;
    println!(rt; "{name}: {count} rows, {differ} differ")?;
    Ok(differ == 0)
}

// Carries out each table that an argument names, and says whether no row differs.
fn all_hold<R: Print + Files + Env + AllocGlobal>(rt: &R) -> Result<bool, Fault> {
    let names: Vec<String> = env::args(rt)?.skip(1).collect(rt.alloc())?;
    let mut hold = true;
    for name in names.as_slice() {
        hold = holds(rt, name.as_str())? && hold;
    }
    Ok(hold)
}

fn main(rt: HostRuntime) -> ExitCode {
    match all_hold(&rt) {
        Ok(true) => ExitCode::SUCCESS,
        Ok(false) => ExitCode::FAILURE,
        Err(fault) => {
            let _ = println!(rt; "{fault}");
            ExitCode::FAILURE
        }
    }
}
