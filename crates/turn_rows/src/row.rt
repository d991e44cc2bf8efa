//! Rows: scripts whose pages are driven step by step, and the lines that they write.

ghost use Rattle.std.specs.Prelude.{◌≡◌, ◌≤◌, ◌<◌, ◌^◌, length, IsTrue, IfOk};
ghost use Rattle.std.specs.List.{list_all};
ghost use Rattle.host_jobs.specs.ToldTable.{closures_of};
ghost use Rattle.lang_ast.specs.SeenProgram.{seen_program};
ghost use Rattle.arrivals_text.specs.Seen.{settings_of};
ghost use Rattle.page_hosts.specs.Hosts.{is_unqueued};
ghost use Rattle.page_host.specs.Starts.{Starts};

use crate::driving::{Step, walk};
use arrivals_text::{PageSetup, read_page};
use cell_room::Steps;
use host_jobs::{HostPort, HostTable};
use lang_ast::Program;
use lang_names::resolve;
use lang_parse::parse;
use lang_tokens::tokens;
use page_host::{Did, Page, PageStop};
use page_interp::Machine;
use page_io::MemSink;
use std::alloc::{AllocError, Global};
use std::marker::Brand;
use std::process::Abort;
use std::sync::ledger::{Blank, Ledger};
use std::test::Fail;
use trace_text::{LineSink, Lines};

/// Room for more bytes than a row writes.
const ROOM: usize = 4_096;

/// A script and its arrivals, what its page does, and the lines that are wanted.
#[derive(Clone, Copy)]
pub(crate) struct Row {
    pub(crate) script: &'static str,
    pub(crate) arrivals: &'static str,
    pub(crate) steps: &'static [Step],
    pub(crate) lines: &'static str,
}

/// How the last step of a row ended, and what its page handed back.
#[derive(Drop)]
pub(crate) struct Driven<P: HostPort, L: Lines> {
    pub(crate) did: Result<Did, PageStop>,
    pub(crate) port: P,
    pub(crate) lines: L,
}

/// The same, with the text that was written.
#[derive(Drop)]
pub(crate) struct Written<P: HostPort> {
    pub(crate) did: Result<Did, PageStop>,
    pub(crate) port: P,
    pub(crate) text: String,
}

/// Drives the pages of rows, which ask no host closure: each takes all its steps, and writes the lines that are wanted.
pub(crate) fn expect_rows(rt: &impl Abort, alloc: Global, rows: &[Row]) -> Result<(), Fail> {
    for row in rows {
        let driven = drive(rt, alloc, row, HostTable::new(alloc), sink(alloc, &[])?)?;
        assert_eq!(rt; driven.did, Ok(Did::Finished), "{}", row.script);
        assert_eq!(rt; driven.text.as_str(), row.lines, "{}", row.script);
    }
    Ok(())
}

/// A sink with room for what a row writes. Of its pieces, by their numbers from 1, some fail, and so many bytes of each are kept.
pub(crate) fn sink(alloc: Global, fails: &[(u64, usize)]) -> Result<MemSink, AllocError> {
    MemSink::new(alloc, ROOM, fails.to_vec(alloc)?)
}

/// Drives the page of a row, with these closures and over this sink.
pub(crate) fn drive(
    rt: &impl Abort,
    alloc: Global,
    row: &Row,
    hosts: HostTable,
    out: MemSink,
) -> Result<Written<HostTable>, Fail>
    requires count { length (closures_of hosts) ≤ 2 ^ 32 }
    requires unqueued { IsTrue (list_all is_unqueued (closures_of hosts)) }
{
    let lines = LineSink::new(alloc, out);
    let driven = drive_over::<HostTable, LineSink<MemSink>, Brand>(
        rt,
        alloc,
        row,
        hosts,
        lines,
        Blank::new(1),
    )?;
    with_text(alloc, driven)
}

/// The same with any host port and over any lines. The accesses to the room of the page's tasks are counted in a new ledger.
pub(crate) fn drive_over<P: HostPort + Drop, L: Lines + Drop, M: Ledger>(
    rt: &impl Abort,
    alloc: Global,
    row: &Row,
    port: P,
    lines: L,
    blank: Blank,
) -> Result<Driven<P, L>, Fail>
    requires count { length (P.closures port) ≤ 2 ^ 32 }
    requires unqueued { IsTrue (list_all is_unqueued (P.closures port)) }
    requires name { blank.name ≡ M.name }
    requires parts { blank.parts ≡ M.parts }
    requires some { 0 < blank.parts }
{
    let program = read_script(alloc, row.script)?;
    let setup = read_page(alloc, row.arrivals.as_bytes())?;
    let mut machine = Machine::new(alloc, &program)?;
    let mut page = begun::<P, L, M>(alloc, &program, &setup, port, lines, blank)?;
    let did = walk(rt, alloc, &mut page, &mut machine, row.steps);
    let (port, lines) = page.into_parts();
    Ok(Driven { did, port, lines })
}

/// The same with the text that was written to its sink.
pub(crate) fn with_text<P: HostPort + Drop>(
    alloc: Global,
    driven: Driven<P, LineSink<MemSink>>,
) -> Result<Written<P>, Fail> {
    let Driven { did, port, lines } = driven;
    let out = lines.into_sink();
    let text = std::str::from_utf8(out.bytes())?;
    Ok(Written {
        did,
        port,
        text: String::from_str(alloc, text)?,
    })
}

// The program of a script.
pub(crate) fn read_script(alloc: Global, script: &str) -> Result<Program, Fail> {
    let tokens = tokens(alloc, script.as_bytes())?;
    Ok(resolve(alloc, parse(alloc, &tokens)?)?)
}

// A page before its first turn, behind the head of its trace.
fn begun<P: HostPort + Drop, L: Lines + Drop, M: Ledger>(
    alloc: Global,
    program: &Program,
    setup: &PageSetup,
    port: P,
    mut lines: L,
    blank: Blank,
) -> Result<Page<P, L, M>, Fail>
    requires count { length (P.closures port) ≤ 2 ^ 32 }
    requires unqueued { IsTrue (list_all is_unqueued (P.closures port)) }
    requires name { blank.name ≡ M.name }
    requires parts { blank.parts ≡ M.parts }
    requires some { 0 < blank.parts }
    ensures { IfOk result (Starts (seen_program program.now) (settings_of setup.now).setup (P.closures port)) }
{
    lines.head(setup.trace)?;
    let (book, share) = blank.open::<M>();
    let accesses = Steps::new(book, share);
    match Page::new(alloc, program, setup, port, lines, accesses) {
        Ok(page) => Ok(page),
        Err(_) => Err(Fail::new("out of memory")),
    }
}
