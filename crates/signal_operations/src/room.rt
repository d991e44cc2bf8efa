//! Whether one more signal may be made: a page gives out numbers below 2^32.

ghost use Rattle.std.specs.Prelude.{◌≡◌, ◌&&◌};
ghost use Rattle.page_model.specs.Operations as model;
ghost use Rattle.page_state.specs.PageActs.{read_by};

use page_answers::is_registration_left;
use page_hosts::HostPort;
use page_state::PageState;
use std::sync::ledger::Ledger;

/// Whether one more signal is left. Takes no memory.
pub(crate) fn is_signal_left<P: HostPort, M: Ledger>(page: &PageState<P, M>) -> bool
    ensures { result ≡ read_by model.signal_left page.now }
{
    page.signals_made() < u32::MAX
}

/// Whether one more signal and one more registration are left. Takes no memory.
pub(crate) fn is_timeout_left<P: HostPort, M: Ledger>(page: &PageState<P, M>) -> bool
    ensures { result ≡ read_by (λ p. model.signal_left p && model.registration_left p) page.now }
{
    is_signal_left(page) && is_registration_left(page)
}
