//! When a throw of a callback is reported, as the script's part has it and as open folds have it.
ghost use Rattle.std.specs.Prelude.{◌≡◌};
ghost use Rattle.page_script.specs.Reports as script;
ghost use Rattle.page_signals.specs.Seen as signals;

// The same moment, as open folds have it.
pub(crate) fn in_fold(when: page_script::WhenReported) -> page_signals::WhenReported
    ensures { signals.when_seen result ≡ script.when_seen when }
{
    match when {
        page_script::WhenReported::BeforeCheckpoint => page_signals::WhenReported::BeforeCheckpoint,
        page_script::WhenReported::AfterCheckpoint => page_signals::WhenReported::AfterCheckpoint,
        page_script::WhenReported::Never => page_signals::WhenReported::Never,
    }
}

// The same moment, as the script's part has it.
pub(crate) fn in_script(when: page_signals::WhenReported) -> page_script::WhenReported
    ensures { script.when_seen result ≡ signals.when_seen when }
{
    match when {
        page_signals::WhenReported::BeforeCheckpoint => page_script::WhenReported::BeforeCheckpoint,
        page_signals::WhenReported::AfterCheckpoint => page_script::WhenReported::AfterCheckpoint,
        page_signals::WhenReported::Never => page_script::WhenReported::Never,
    }
}
