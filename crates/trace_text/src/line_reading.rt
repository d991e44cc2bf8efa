//! One line of a trace.

ghost use Rattle.std.specs.Prelude.{◌≡◌, IfOk, IfSome};
ghost use Rattle.std.specs.Option.{option_map};
ghost use Rattle.page_base.specs.Found.{IsFound};
ghost use Rattle.trace_text.specs.LineReading.{three_at, four_at, turn_at, reg_at, reg_by_at, prio_at, arm_at, job_at, enq_at, host_at, settle_at, send_at, count_behind, registered_at, timed_at, identified_at, numbered_at, running_at, arranged_at, worded_at, valued_at, IsTested, IsEventRead, IsRead};
ghost use Rattle.trace_text.specs.EventSeen.{event_seen, stamped_seen};
ghost use Rattle.trace_text.specs.Trace.{IsForm};

use crate::fields::{
    read_count, read_end, read_form, read_how, read_int, read_kind, read_priority, read_queue,
    read_queued, read_source, read_value,
};
use crate::{Event, Stamped};
use page_base::{Micros, behind, cut_at, is_word};
use std::alloc::{AllocError, Global};

/// The time and the event of a line without its line feed, in a trace of this form. None where it is not the line of an
/// event; whether it may stand in its place is not asked. Want of memory is the one error. It takes the time of the line,
/// and the memory of the value in it.
pub fn read_line(alloc: Global, form: u32, line: &[u8]) -> Result<Option<Stamped>, AllocError>
    requires { IsForm form }
    ensures { IfOk result (λ read. IsRead form line.now (option_map stamped_seen read)) }
{
    let Some((time, text)) = cut_at(line, b' ') else {
        return Ok(None);
    };
    let Some(time) = read_count(time) else {
        return Ok(None);
    };
    let Some(event) = read_event(alloc, form, text)? else {
        return Ok(None);
    };
    Ok(Some(Stamped {
        time: Micros(time),
        event,
    }))
}

// The event that the whole text spells.
fn read_event(alloc: Global, form: u32, text: &[u8]) -> Result<Option<Event>, AllocError>
    requires { IsForm form }
    ensures { IfOk result (λ read. IsEventRead form text.now (option_map event_seen read)) }
{
    if let Some(event) = read_numbered(text) {
        return Ok(Some(event));
    }
    if let Some(event) = read_worded(form, text) {
        return Ok(Some(event));
    }
    read_valued(alloc, text)
}

// An event with one number.
#[tactic(auto, unfolding(crate::specs::LineReading::numbered_at))]
fn read_numbered(text: &[u8]) -> Option<Event>
    ensures { option_map event_seen result ≡ numbered_at text.now }
{
    if let Some(event) = read_registered(text) {
        return Some(event);
    }
    if let Some(event) = read_timed(text) {
        return Some(event);
    }
    read_identified(text)
}

// What becomes of a registration, which the event tells by its number.
#[tactic(auto, unfolding(crate::specs::LineReading::registered_at, crate::specs::LineReading::one))]
fn read_registered(text: &[u8]) -> Option<Event>
    ensures { option_map event_seen result ≡ registered_at text.now }
{
    if let Some(r) = read_behind(text, b"call ") {
        return Some(Event::Call { r });
    }
    if let Some(r) = read_behind(text, b"due ") {
        return Some(Event::Due { r });
    }
    let r = read_behind(text, b"drop ")?;
    Some(Event::Drop { r })
}

// An event that tells a moment, in microseconds.
#[tactic(auto, unfolding(crate::specs::LineReading::timed_at, crate::specs::LineReading::one))]
fn read_timed(text: &[u8]) -> Option<Event>
    ensures { option_map event_seen result ≡ timed_at text.now }
{
    if let Some(d) = read_behind(text, b"period ") {
        return Some(Event::Period { d: Micros(d) });
    }
    if let Some(d) = read_behind(text, b"idle ") {
        return Some(Event::Idle { d: Micros(d) });
    }
    if let Some(t) = read_behind(text, b"frame ") {
        return Some(Event::Frame { t: Micros(t) });
    }
    let t = read_behind(text, b"wait ")?;
    Some(Event::Wait { t: Micros(t) })
}

// What becomes of a job, a signal or a promise, which the event tells by its number.
#[tactic(auto, unfolding(crate::specs::LineReading::identified_at, crate::specs::LineReading::one))]
fn read_identified(text: &[u8]) -> Option<Event>
    ensures { option_map event_seen result ≡ identified_at text.now }
{
    if let Some(j) = read_behind(text, b"run ") {
        return Some(Event::Run { j });
    }
    if let Some(s) = read_behind(text, b"abort ") {
        return Some(Event::Abort { s });
    }
    if let Some(p) = read_behind(text, b"unhandled ") {
        return Some(Event::Unhandled { p });
    }
    let p = read_behind(text, b"handled ")?;
    Some(Event::Handled { p })
}

// The number that is all that stands behind a word.
#[tactic(auto, unfolding(crate::specs::LineReading::count_behind))]
fn read_behind(text: &[u8], word: &[u8]) -> Option<u64>
    ensures { result ≡ count_behind word.now text.now }
{
    read_count(behind(text, word)?)
}

// An event with other fields, but no value.
#[tactic(auto, unfolding(crate::specs::LineReading::worded_at))]
fn read_worded(form: u32, text: &[u8]) -> Option<Event>
    ensures { option_map event_seen result ≡ worded_at form text.now }
{
    if let Some(event) = read_running(text) {
        return Some(event);
    }
    read_arranged(form, text)
}

// How a run goes on: a turn, the end of a call, a job that was queued, the end of the run.
#[tactic(auto, unfolding(crate::specs::LineReading::running_at))]
fn read_running(text: &[u8]) -> Option<Event>
    ensures { option_map event_seen result ≡ running_at text.now }
{
    if is_word(text, b"ret") {
        return Some(Event::Ret);
    }
    if let Some(rest) = behind(text, b"turn ") {
        return read_turn(rest);
    }
    if let Some(rest) = behind(text, b"job ") {
        return read_job(rest);
    }
    let rest = behind(text, b"end ")?;
    read_end(rest).map(Event::End)
}

// What is arranged for a callback: a registration, a timer, a task, a priority, a host's answer.
#[tactic(auto, unfolding(crate::specs::LineReading::arranged_at))]
fn read_arranged(form: u32, text: &[u8]) -> Option<Event>
    ensures { option_map event_seen result ≡ arranged_at form text.now }
{
    if let Some(rest) = behind(text, b"reg ") {
        return if form == 1 {
            read_reg(rest)
        } else {
            read_reg_by(rest)
        };
    }
    if let Some(rest) = behind(text, b"arm ") {
        return read_arm(rest);
    }
    if let Some(rest) = behind(text, b"enq ") {
        return read_enq(rest);
    }
    if let Some(rest) = behind(text, b"prio ") {
        return read_prio(rest);
    }
    read_host(behind(text, b"host ")?)
}

// What stands before, between and behind the first two spaces.
#[tactic(auto, unfolding(crate::specs::LineReading::three_at))]
fn cut_in_three(text: &[u8]) -> Option<(&[u8], &[u8], &[u8])>
    ensures { IsFound result (three_at text.now) (λ f. (f.0.now, f.1.now, f.2.now)) }
{
    let (first, rest) = cut_at(text, b' ')?;
    let (second, third) = cut_at(rest, b' ')?;
    Some((first, second, third))
}

// What stands before, between and behind the first three spaces.
#[tactic(auto, unfolding(crate::specs::LineReading::four_at))]
fn cut_in_four(text: &[u8]) -> Option<(&[u8], &[u8], &[u8], &[u8])>
    ensures { IsFound result (four_at text.now) (λ f. (f.0.now, f.1.now, f.2.now, f.3.now)) }
{
    let (first, rest) = cut_at(text, b' ')?;
    let (second, third, fourth) = cut_in_three(rest)?;
    Some((first, second, third, fourth))
}

#[tactic(auto, unfolding(crate::specs::LineReading::turn_at))]
fn read_turn(fields: &[u8]) -> Option<Event>
    ensures { option_map event_seen result ≡ turn_at fields.now }
{
    let (first, rest) = cut_at(fields, b' ')?;
    let n = read_count(first)?;
    let source = read_source(rest)?;
    Some(Event::Turn { n, source })
}

#[tactic(auto, unfolding(crate::specs::LineReading::reg_at))]
fn read_reg(fields: &[u8]) -> Option<Event>
    ensures { option_map event_seen result ≡ reg_at fields.now }
{
    let (first, rest) = cut_at(fields, b' ')?;
    let r = read_count(first)?;
    let kind = read_kind(rest)?;
    Some(Event::Reg { r, kind, by: None })
}

#[tactic(auto, unfolding(crate::specs::LineReading::reg_by_at))]
fn read_reg_by(fields: &[u8]) -> Option<Event>
    ensures { option_map event_seen result ≡ reg_by_at fields.now }
{
    let (first, second, third) = cut_in_three(fields)?;
    let r = read_count(first)?;
    let kind = read_kind(second)?;
    let by = Some(read_count(third)?);
    Some(Event::Reg { r, kind, by })
}

#[tactic(auto, unfolding(crate::specs::LineReading::prio_at))]
fn read_prio(fields: &[u8]) -> Option<Event>
    ensures { option_map event_seen result ≡ prio_at fields.now }
{
    let (first, rest) = cut_at(fields, b' ')?;
    let s = read_count(first)?;
    let p = read_priority(rest)?;
    Some(Event::Prio { s, p })
}

#[tactic(auto, unfolding(crate::specs::LineReading::arm_at))]
fn read_arm(fields: &[u8]) -> Option<Event>
    ensures { option_map event_seen result ≡ arm_at fields.now }
{
    let (first, second, third) = cut_in_three(fields)?;
    let r = read_count(first)?;
    let due = read_count(second)?;
    let level = read_count(third)?;
    Some(Event::Arm {
        r,
        due: Micros(due),
        level,
    })
}

#[tactic(auto, unfolding(crate::specs::LineReading::job_at))]
fn read_job(fields: &[u8]) -> Option<Event>
    ensures { option_map event_seen result ≡ job_at fields.now }
{
    let (first, rest) = cut_at(fields, b' ')?;
    let j = read_count(first)?;
    let what = read_queued(rest)?;
    Some(Event::Job { j, what })
}

#[tactic(auto, unfolding(crate::specs::LineReading::enq_at))]
fn read_enq(fields: &[u8]) -> Option<Event>
    ensures { option_map event_seen result ≡ enq_at fields.now }
{
    let (first, second, third, fourth) = cut_in_four(fields)?;
    let r = read_count(first)?;
    let queue = read_queue(second)?;
    let cont = read_form(third)?;
    let n = read_count(fourth)?;
    Some(Event::Enq { r, queue, cont, n })
}

#[tactic(auto, unfolding(crate::specs::LineReading::host_at))]
fn read_host(fields: &[u8]) -> Option<Event>
    ensures { option_map event_seen result ≡ host_at fields.now }
{
    let (first, second, third, fourth) = cut_in_four(fields)?;
    let k = read_count(first)?;
    let x = read_int(second)?;
    let ok = read_how(third)?;
    let value = read_int(fourth)?;
    let answer = if ok { Ok(value) } else { Err(value) };
    Some(Event::Host { k, x, answer })
}

// An event with a value.
#[tactic(auto, unfolding(crate::specs::LineReading::valued_at))]
fn read_valued(alloc: Global, text: &[u8]) -> Result<Option<Event>, AllocError>
    ensures { IfOk result (λ read. IsTested (valued_at text.now) (option_map event_seen read)) }
{
    if let Some(value) = behind(text, b"throw ") {
        return match read_value(alloc, value)? {
            Some(v) => Ok(Some(Event::Throw { v })),
            None => Ok(None),
        };
    }
    if let Some(value) = behind(text, b"report ") {
        return match read_value(alloc, value)? {
            Some(v) => Ok(Some(Event::Report { v })),
            None => Ok(None),
        };
    }
    if let Some(value) = behind(text, b"log ") {
        return match read_value(alloc, value)? {
            Some(v) => Ok(Some(Event::Log { v })),
            None => Ok(None),
        };
    }
    if let Some(rest) = behind(text, b"settle ") {
        return read_settle(alloc, rest);
    }
    if let Some(rest) = behind(text, b"send ") {
        return read_send(alloc, rest);
    }
    Ok(None)
}

#[tactic(auto, unfolding(crate::specs::LineReading::settle_at))]
fn read_settle(alloc: Global, fields: &[u8]) -> Result<Option<Event>, AllocError>
    ensures { IfOk result (λ read. IsTested (settle_at fields.now) (option_map event_seen read)) }
{
    let Some((first, rest)) = cut_at(fields, b' ') else {
        return Ok(None);
    };
    let Some((second, value)) = cut_at(rest, b' ') else {
        return Ok(None);
    };
    let Some(p) = read_count(first) else {
        return Ok(None);
    };
    let Some(ok) = read_how(second) else {
        return Ok(None);
    };
    let Some(v) = read_value(alloc, value)? else {
        return Ok(None);
    };
    Ok(Some(Event::Settle { p, ok, v }))
}

#[tactic(auto, unfolding(crate::specs::LineReading::send_at))]
fn read_send(alloc: Global, fields: &[u8]) -> Result<Option<Event>, AllocError>
    ensures { IfOk result (λ read. IsTested (send_at fields.now) (option_map event_seen read)) }
{
    let Some((first, value)) = cut_at(fields, b' ') else {
        return Ok(None);
    };
    let Some(n) = read_count(first) else {
        return Ok(None);
    };
    let Some(v) = read_value(alloc, value)? else {
        return Ok(None);
    };
    Ok(Some(Event::Send { n, v }))
}
