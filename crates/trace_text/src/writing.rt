//! The lines of events.

ghost use Rattle.std.specs.Prelude.{◌≡◌, ◌++◌, [], ◌∷◌, OnOk, OnErr, IfOk};
ghost use Rattle.page_types.specs.Events.{Turn, Throw, Reg, Arm, Job, Settle, Enq, Prio, Host, Send, EndLine};
ghost use Rattle.page_parts.specs.Spelling.{priority_text};
ghost use Rattle.page_parts.specs.TraceText.{source_text, end_text, kind_text, field, number_field, int_field, by_field, queued_text, queue_text, how_text, answer_text, event_text, line_text};
ghost use Rattle.trace_text.specs.EventSeen.{queued_seen, queue_seen, event_seen, stamped_seen};
ghost use Rattle.trace_text.specs.Line.{form_text};

use crate::words::{end_word, kind_word, priority_word, source_word};
use crate::{Event, Printed, PrioName, QueueName, Queued, RegKind, Stamped};
use page_base::{End, Source};
use page_values::{print_int, print_number};
use std::alloc::{AllocError, Global};

/// Appends the line of an event, with its line feed. On an error nothing is appended.
pub fn write_event(alloc: Global, e: &Stamped, into: &mut Vec<u8>) -> Result<(), AllocError>
    ensures ok { OnOk result (into.new.items ≡ into.old.items ++ line_text (stamped_seen e.now)) }
    ensures err { OnErr result (into.new.items ≡ into.old.items) }
{
    let mut line = Vec::new(alloc);
    write_line(e, &mut line)?;
    into.extend_from_slice(&line)?;
    Ok(())
}

// On an error of what follows, some of the text may have been appended.

pub(crate) fn write_line(e: &Stamped, into: &mut Vec<u8>) -> Result<(), AllocError>
    ensures { IfOk result (λ _. into.new.items ≡ into.old.items ++ line_text (stamped_seen e.now)) }
{
    print_number(e.time.0, into)?;
    into.push(b' ')?;
    write_text(&e.event, into)?;
    into.push(b'\n')?;
    Ok(())
}

fn write_text(event: &Event, into: &mut Vec<u8>) -> Result<(), AllocError>
    ensures { IfOk result (λ _. into.new.items ≡ into.old.items ++ event_text (event_seen event.now)) }
{
    match event {
        Event::Turn { n, source } => write_turn(*n, *source, into),
        Event::Call { r } => write_numbered(b"call", *r, into),
        Event::Ret => into.extend_from_slice(b"ret"),
        Event::Throw { v } => write_value(b"throw", v, into),
        Event::Report { v } => write_value(b"report", v, into),
        Event::Log { v } => write_value(b"log", v, into),
        Event::Reg { r, kind, by } => write_reg(*r, *kind, *by, into),
        Event::Arm { r, due, level } => write_arm(*r, due.0, *level, into),
        Event::Due { r } => write_numbered(b"due", *r, into),
        Event::Drop { r } => write_numbered(b"drop", *r, into),
        Event::Job { j, what } => write_job(*j, *what, into),
        Event::Run { j } => write_numbered(b"run", *j, into),
        Event::Settle { p, ok, v } => write_settle(*p, *ok, v, into),
        Event::Period { d } => write_numbered(b"period", d.0, into),
        Event::Idle { d } => write_numbered(b"idle", d.0, into),
        Event::Frame { t } => write_numbered(b"frame", t.0, into),
        Event::Enq { r, queue, cont, n } => write_enq(*r, *queue, *cont, *n, into),
        Event::Prio { s, p } => write_prio(*s, *p, into),
        Event::Abort { s } => write_numbered(b"abort", *s, into),
        Event::Wait { t } => write_numbered(b"wait", t.0, into),
        Event::Host { k, x, answer } => write_host(*k, *x, *answer, into),
        Event::Unhandled { p } => write_numbered(b"unhandled", *p, into),
        Event::Handled { p } => write_numbered(b"handled", *p, into),
        Event::Send { n, v } => write_send(*n, v, into),
        Event::End(end) => write_end(*end, into),
    }
}

fn write_numbered(word: &[u8], n: u64, into: &mut Vec<u8>) -> Result<(), AllocError>
    ensures { IfOk result (λ _. into.new.items ≡ into.old.items ++ (word.now ++ number_field n)) }
{
    into.extend_from_slice(word)?;
    write_number(n, into)
}

fn write_value(word: &[u8], v: &Printed, into: &mut Vec<u8>) -> Result<(), AllocError>
    ensures { IfOk result (λ _. into.new.items ≡ into.old.items ++ (word.now ++ field v.now)) }
{
    into.extend_from_slice(word)?;
    write_printed(v, into)
}

fn write_printed(v: &Printed, into: &mut Vec<u8>) -> Result<(), AllocError>
    ensures { IfOk result (λ _. into.new.items ≡ into.old.items ++ field v.now) }
{
    write_field(v.bytes(), into)
}

fn write_turn(n: u64, source: Option<Source>, into: &mut Vec<u8>) -> Result<(), AllocError>
    ensures { IfOk result (λ _. into.new.items ≡ into.old.items ++ event_text (Turn n source)) }
{
    write_numbered(b"turn", n, into)?;
    write_source(source, into)
}

fn write_source(source: Option<Source>, into: &mut Vec<u8>) -> Result<(), AllocError>
    ensures { IfOk result (λ _. into.new.items ≡ into.old.items ++ field (source_text source)) }
{
    write_field(source_word(source), into)
}

fn write_reg(r: u64, kind: RegKind, by: Option<u64>, into: &mut Vec<u8>) -> Result<(), AllocError>
    ensures { IfOk result (λ _. into.new.items ≡ into.old.items ++ event_text (Reg r kind by)) }
{
    write_numbered(b"reg", r, into)?;
    write_kind(kind, into)?;
    write_by(by, into)
}

fn write_by(by: Option<u64>, into: &mut Vec<u8>) -> Result<(), AllocError>
    ensures { IfOk result (λ _. into.new.items ≡ into.old.items ++ by_field by) }
{
    match by {
        None => Ok(()),
        Some(r) => write_number(r, into),
    }
}

fn write_kind(kind: RegKind, into: &mut Vec<u8>) -> Result<(), AllocError>
    ensures { IfOk result (λ _. into.new.items ≡ into.old.items ++ field (kind_text kind)) }
{
    write_field(kind_word(kind), into)
}

fn write_arm(r: u64, due: u64, level: u64, into: &mut Vec<u8>) -> Result<(), AllocError>
    ensures { IfOk result (λ _. into.new.items ≡ into.old.items ++ event_text (Arm r due level)) }
{
    write_numbered(b"arm", r, into)?;
    write_number(due, into)?;
    write_number(level, into)
}

fn write_job(j: u64, what: Queued, into: &mut Vec<u8>) -> Result<(), AllocError>
    ensures { IfOk result (λ _. into.new.items ≡ into.old.items ++ event_text (Job j (queued_seen what))) }
{
    write_numbered(b"job", j, into)?;
    write_queued(what, into)
}

fn write_queued(what: Queued, into: &mut Vec<u8>) -> Result<(), AllocError>
    ensures { IfOk result (λ _. into.new.items ≡ into.old.items ++ queued_text (queued_seen what)) }
{
    match what {
        Queued::Micro(r) => write_numbered(b" micro", r, into),
        Queued::React(p) => write_numbered(b" react", p, into),
        Queued::Adopt(p) => write_numbered(b" adopt", p, into),
    }
}

fn write_settle(p: u64, ok: bool, v: &Printed, into: &mut Vec<u8>) -> Result<(), AllocError>
    ensures { IfOk result (λ _. into.new.items ≡ into.old.items ++ event_text (Settle p ok v.now)) }
{
    write_numbered(b"settle", p, into)?;
    write_how(ok, into)?;
    write_printed(v, into)
}

fn write_how(ok: bool, into: &mut Vec<u8>) -> Result<(), AllocError>
    ensures { IfOk result (λ _. into.new.items ≡ into.old.items ++ how_text ok) }
{
    into.extend_from_slice(if ok { b" ok" } else { b" err" })
}

fn write_enq(
    r: u64,
    queue: QueueName,
    cont: bool,
    n: u64,
    into: &mut Vec<u8>,
) -> Result<(), AllocError>
    ensures { IfOk result (λ _. into.new.items ≡ into.old.items ++ event_text (Enq r (queue_seen queue) cont n)) }
{
    write_numbered(b"enq", r, into)?;
    write_queue(queue, into)?;
    write_form(cont, into)?;
    write_number(n, into)
}

fn write_queue(queue: QueueName, into: &mut Vec<u8>) -> Result<(), AllocError>
    ensures { IfOk result (λ _. into.new.items ≡ into.old.items ++ queue_text (queue_seen queue)) }
{
    match queue {
        QueueName::Fixed(priority) => write_priority(priority, into),
        QueueName::Signal(s) => {
            into.extend_from_slice(b" s")?;
            print_number(s, into)
        }
    }
}

fn write_form(cont: bool, into: &mut Vec<u8>) -> Result<(), AllocError>
    ensures { IfOk result (λ _. into.new.items ≡ into.old.items ++ form_text cont) }
{
    into.extend_from_slice(if cont { b" cont" } else { b" task" })
}

fn write_prio(s: u64, p: PrioName, into: &mut Vec<u8>) -> Result<(), AllocError>
    ensures { IfOk result (λ _. into.new.items ≡ into.old.items ++ event_text (Prio s p)) }
{
    write_numbered(b"prio", s, into)?;
    write_priority(p, into)
}

fn write_priority(priority: PrioName, into: &mut Vec<u8>) -> Result<(), AllocError>
    ensures { IfOk result (λ _. into.new.items ≡ into.old.items ++ field (priority_text priority)) }
{
    write_field(priority_word(priority), into)
}

fn write_host(
    k: u64,
    x: i64,
    answer: Result<i64, i64>,
    into: &mut Vec<u8>,
) -> Result<(), AllocError>
    ensures { IfOk result (λ _. into.new.items ≡ into.old.items ++ event_text (Host k x answer)) }
{
    write_numbered(b"host", k, into)?;
    write_integer(x, into)?;
    write_answer(answer, into)
}

fn write_answer(answer: Result<i64, i64>, into: &mut Vec<u8>) -> Result<(), AllocError>
    ensures { IfOk result (λ _. into.new.items ≡ into.old.items ++ answer_text answer) }
{
    write_how(answer.is_ok(), into)?;
    match answer {
        Ok(value) => write_integer(value, into),
        Err(value) => write_integer(value, into),
    }
}

fn write_send(n: u64, v: &Printed, into: &mut Vec<u8>) -> Result<(), AllocError>
    ensures { IfOk result (λ _. into.new.items ≡ into.old.items ++ event_text (Send n v.now)) }
{
    write_numbered(b"send", n, into)?;
    write_printed(v, into)
}

fn write_end(end: End, into: &mut Vec<u8>) -> Result<(), AllocError>
    ensures { IfOk result (λ _. into.new.items ≡ into.old.items ++ event_text (EndLine end)) }
{
    into.extend_from_slice(b"end")?;
    write_field(end_word(end), into)
}

fn write_field(text: &[u8], into: &mut Vec<u8>) -> Result<(), AllocError>
    ensures { IfOk result (λ _. into.new.items ≡ into.old.items ++ field text.now) }
{
    into.push(b' ')?;
    into.extend_from_slice(text)
}

fn write_number(n: u64, into: &mut Vec<u8>) -> Result<(), AllocError>
    ensures { IfOk result (λ _. into.new.items ≡ into.old.items ++ number_field n) }
{
    into.push(b' ')?;
    print_number(n, into)
}

fn write_integer(n: i64, into: &mut Vec<u8>) -> Result<(), AllocError>
    ensures { IfOk result (λ _. into.new.items ≡ into.old.items ++ int_field n) }
{
    into.push(b' ')?;
    print_int(n, into)
}
