//! Whether promises and registrations are left: a page gives out numbers below 2^32.

ghost use Rattle.std.specs.Prelude.{◌≡◌, ◌<◌, ◌^◌, ◌&&◌};
ghost use Rattle.page_model.specs.PageCombinators as model_combinators;
ghost use Rattle.page_model.specs.Operations as model;
ghost use Rattle.page_state.specs.PageActs.{read_by};

use page_hosts::HostPort;
use page_state::PageState;
use std::sync::ledger::Ledger;

/// Whether one more promise is left. Takes no memory.
pub fn is_promise_left<P: HostPort, M: Ledger>(page: &PageState<P, M>) -> bool
    ensures { result ≡ read_by model.promise_left page.now }
{
    page.promises_made() < u32::MAX
}

/// Whether one more registration is left. Takes no memory.
pub fn is_registration_left<P: HostPort, M: Ledger>(page: &PageState<P, M>) -> bool
    ensures { result ≡ read_by model.registration_left page.now }
{
    page.registered() < u32::MAX as usize
}

/// Whether one more promise and one more registration are left. Takes no memory.
pub fn are_both_left<P: HostPort, M: Ledger>(page: &PageState<P, M>) -> bool
    ensures { result ≡ read_by (λ p. model.promise_left p && model.registration_left p) page.now }
{
    is_promise_left(page) && is_registration_left(page)
}

/// Whether so many more promises are left. Takes no memory.
pub fn are_promises_left<P: HostPort, M: Ledger>(page: &PageState<P, M>, count: u64) -> bool
    requires { count < 2 ^ 63 }
    ensures { result ≡ read_by (model_combinators.are_promises_left count) page.now }
{
    page.promises_made() as u64 + count <= u32::MAX as u64
}
