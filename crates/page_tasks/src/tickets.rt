//! The tickets of scheduler tasks by their registrations.
ghost use Rattle.std.specs.Prelude.{◌≡◌, ℕ, ◌<◌, ◌==◌, None, IfOk, OnOk, OnErr, IsErr, Ok, nat_eq, if◌then◌else◌};
ghost use Rattle.std.specs.HashMap.{get, spare};
ghost use Rattle.std.specs.Option.{is_some};
ghost use Rattle.page_tasks.specs.Standing.{PutsTicket};

use crate::page_task::PageTask;
use std::alloc::AllocError;
use std::collections::HashMap;
use task_pool::{MemoryFault, Ticket};

/// Makes room for one more.
pub fn make_place(tickets: &mut HashMap<u32, Ticket>) -> Result<(), AllocError>
    ensures same { (r : ℕ) → get nat_eq tickets.new r ≡ get nat_eq tickets.old r }
    ensures room { OnOk result (0 < spare tickets.new) }
{
    tickets.reserve(1)
}

/// A registration has this ticket now. There is room.
pub fn put_ticket(tickets: &mut HashMap<u32, Ticket>, registration: u32, ticket: Ticket)
    requires { 0 < spare tickets.old }
    ensures { PutsTicket registration ticket (get nat_eq tickets.old) (get nat_eq tickets.new) }
{
    let put: Result<_, _> = tickets.insert(registration, ticket);
    put.unwrap();
}

/// A registration has no ticket now; the one that it had.
pub fn take_ticket(tickets: &mut HashMap<u32, Ticket>, registration: u32) -> Option<Ticket>
    ensures ticket { result ≡ get nat_eq tickets.old registration }
    ensures gone { (r : ℕ) → get nat_eq tickets.new r ≡ (if registration == r then None else get nat_eq tickets.old r) }
{
    tickets.remove(&registration)
}

/// Whether a registration has a ticket.
pub fn has_ticket(tickets: &HashMap<u32, Ticket>, registration: u32) -> bool
    ensures { result ≡ is_some (get nat_eq tickets.now registration) }
{
    tickets.contains_key(&registration)
}

/// The ticket of a task that was put in, or want of memory.
pub fn ticket_of(put: Result<Ticket, PageTask>) -> Result<Ticket, MemoryFault>
    ensures ok { IfOk result (λ ticket. put ≡ Ok ticket) }
    ensures err { OnErr result (IsErr put) }
{
    match put {
        Ok(ticket) => Ok(ticket),
        Err(_) => Err(MemoryFault::OutOfMemory),
    }
}
