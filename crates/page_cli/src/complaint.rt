//! The one line that goes to the error output.

ghost use Rattle.std.specs.Prelude.{◌≡◌, ◌+◌, ◌<◌, ◌^◌, ◌++◌, ℕ, codes};
ghost use Rattle.page_parts.specs.Words.{digits, decimal_of};
ghost use Rattle.page_cli.specs.Forms.{name_of};
ghost use Rattle.page_cli.specs.Names.{names_seen};
ghost use Rattle.page_cli.specs.Complaints.{complaint, name_complaint, name_in, PutsTo, PutsOrFailsTo};

use crate::answer::{Answer, WhichFile};
use crate::names::Asked;
use crate::pieces::put;
use lang_names::NameFault;
use page_io::{Failed, Sink};

/// Puts the decimal of a number, digit by digit. Takes no memory.
fn put_decimal<E: Sink>(err: &mut E, n: usize) -> Result<(), Failed>
    ensures { PutsTo E.bytes E.faults err.old (decimal_of n) result err.new }
{
    put_digits(err, n)
}

fn put_digits<E: Sink>(err: &mut E, n: usize) -> Result<(), Failed>
    ensures { (most : ℕ) → n < 10 ^ (most + 1) → PutsTo E.bytes E.faults err.old (digits most n) result err.new }
{
    if n < 10 {
        return put(err, &[b'0' + n as u8]);
    }
    put_digits(err, n / 10)?;
    put(err, &[b'0' + (n % 10) as u8])
}

/// Puts the line of an answer.
fn put_complaint<E: Sink>(err: &mut E, answer: Answer, asked: Option<Asked>) -> Result<(), Failed>
    ensures { PutsTo E.bytes E.faults err.old (complaint (names_seen asked.entry) answer) result err.new }
{
    match answer {
        Answer::Ended { .. } | Answer::Written => Ok(()),
        Answer::Usage => put(
            err,
            b"usage: pageloop run S A | check S A T | storm N | stat T | migrate S A T | expand S | export T | blame T\n",
        ),
        Answer::NoParse { at } => { put_numbered(err, b"pageloop: script: no parse at byte ", at) }
        Answer::NotAsync => put(err, b"pageloop: script: not an async script\n"),
        Answer::BadName { fault } => put_bad_name(err, fault),
        Answer::BadArrivals { line } => put_numbered(err, b"pageloop: arrivals: line ", line),
        Answer::BadTrace { line } => put_numbered(err, b"pageloop: trace: line ", line),
        Answer::Differs { line } => put_numbered(err, b"pageloop: trace differs at line ", line),
        Answer::Illegal { line } => put_numbered(err, b"pageloop: choice not legal at line ", line),
        Answer::TooLong { file } => put_named(
            err,
            b"pageloop: too long: ",
            name_of(file, asked).as_bytes(),
        ),
        Answer::ReadFault { file } => put_named(
            err,
            b"pageloop: read fault: ",
            name_of(file, asked).as_bytes(),
        ),
        Answer::WriteFault => put(err, b"pageloop: write fault\n"),
        Answer::OutOfMemory => put(err, b"pageloop: out of memory\n"),
    }
}

/// Puts what is wrong with a name, and at which byte.
fn put_bad_name<E: Sink>(err: &mut E, fault: NameFault) -> Result<(), Failed>
    ensures { PutsTo E.bytes E.faults err.old (name_complaint fault) result err.new }
{
    match fault {
        NameFault::Unknown { at } => put_numbered(err, b"pageloop: unknown name at byte ", at),
        NameFault::Twice { at } => put_numbered(err, b"pageloop: name defined twice at byte ", at),
        NameFault::Arity { at } => {
            put_numbered(err, b"pageloop: wrong argument count at byte ", at)
        }
    }
}

/// Puts a line that ends with a number.
fn put_numbered<E: Sink>(err: &mut E, words: &[u8], n: usize) -> Result<(), Failed>
    ensures { PutsTo E.bytes E.faults err.old (words.now ++ (decimal_of n ++ codes "\n")) result err.new }
{
    put(err, words)?;
    put_decimal(err, n)?;
    put(err, b"\n")
}

/// Puts a line that ends with a name.
fn put_named<E: Sink>(err: &mut E, words: &[u8], name: &[u8]) -> Result<(), Failed>
    ensures { PutsTo E.bytes E.faults err.old (words.now ++ (name.now ++ codes "\n")) result err.new }
{
    put(err, words)?;
    put(err, name)?;
    put(err, b"\n")
}

/// The name that the words give to a file, and nothing where they name no such file.
fn name_of<'a>(file: WhichFile, asked: Option<Asked<'a>>) -> &'a str
    ensures { result.now ≡ name_in (names_seen asked.entry) (name_of file) }
{
    match (asked, file) {
        (Some(Asked::Run(names)), WhichFile::Script) => names.script,
        (Some(Asked::Run(names)), WhichFile::Arrivals) => names.arrivals,
        (Some(Asked::Check(names)), WhichFile::Script) => names.script,
        (Some(Asked::Check(names)), WhichFile::Arrivals) => names.arrivals,
        (Some(Asked::Check(names)), WhichFile::Trace) => names.trace,
        (Some(Asked::Migrate(names)), WhichFile::Script) => names.script,
        (Some(Asked::Migrate(names)), WhichFile::Arrivals) => names.arrivals,
        (Some(Asked::Migrate(names)), WhichFile::Trace) => names.trace,
        (Some(Asked::Picture { trace, .. }), WhichFile::Trace) => trace,
        (Some(Asked::Expand { script }), WhichFile::Script) => script,
        _ => "",
    }
}

/// Gives the line of an answer to the error output, and has it handed on. A fault of that changes no answer.
pub(crate) fn complain<E: Sink>(err: &mut E, answer: Answer, asked: Option<Asked>)
    ensures { PutsOrFailsTo E.bytes E.faults err.old (complaint (names_seen asked.entry) answer) err.new }
{
    let _ = put_complaint(err, answer, asked);
    let _ = err.finish();
}
