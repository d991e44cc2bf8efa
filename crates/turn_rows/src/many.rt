//! Many callbacks at once: the counts of the lines that whole runs write. Each row is worked out from its script: one turn and one
//! call for the script itself and for each callback, and what a posted task gives settles its promise.

ghost use Rattle.std.specs.Prelude.{◌≡◌, ◌<◌};

use crate::row::read_script;
use arrivals_text::read_page;
use cell_room::Steps;
use host_jobs::HostTable;
use loop_policy::PolicyChooser;
use loop_turn::run_page;
use page_base::{End, ScriptClock};
use std::alloc::Global;
use std::marker::Brand;
use std::sync::ledger::{Blank, Ledger};
use std::test::Fail;
use trace_text::{LineCount, Summary};

// A script that asks for half a million callbacks, and how many promises are settled then.
struct Many {
    script: &'static str,
    settles: u64,
}

const MANY: [Many; 2] = [
    Many {
        script: "fn f() { return 1; } var i = 0; \
            while (i < 500000) { setTimeout(f, 1000 - i % 1000); i = i + 1; }",
        settles: 0,
    },
    Many {
        script: "fn f() { return 1; } var i = 0; \
            while (i < 500000) { postTask(f, \"background\", unit, 0); i = i + 1; }",
        settles: 500_000,
    },
];

// The script's own turn and call, and one of each callback.
const EACH_ONCE: u64 = 500_001;

// The counts of the run of a script that asks no closure; none where it does not end.
fn counts<M: Ledger>(alloc: Global, row: &Many, blank: Blank) -> Result<Option<Summary>, Fail>
    requires name { blank.name ≡ M.name }
    requires parts { blank.parts ≡ M.parts }
    requires some { 0 < blank.parts }
{
    let program = read_script(alloc, row.script)?;
    let setup = read_page(alloc, b"page 1\nfuel 2000000\n")?;
    let mut clock = ScriptClock::new(setup.late.to_vec(alloc)?);
    let mut chooser = PolicyChooser::new(setup.policy);
    let hosts = HostTable::new(alloc);
    let (book, share) = blank.open::<M>();
    let accesses = Steps::new(book, share);
    let ended = run_page(
        alloc,
        &program,
        &setup,
        &mut clock,
        &mut chooser,
        hosts,
        LineCount::new(),
        accesses,
    );
    match ended.outcome {
        Ok(_) => Ok(ended.lines.summary()),
        Err(_) => Ok(None),
    }
}

// The counts where each callback is called once, in a turn of its own.
fn wanted(row: &Many) -> Summary {
    Summary {
        turns: EACH_ONCE,
        calls: EACH_ONCE,
        drops: 0,
        settles: row.settles,
        end: End::Done,
    }
}

#[test]
fn half_a_million_callbacks_are_called_once_each(rt: HostRuntime) -> Result<(), Fail> {
    for row in &MANY {
        let counts = counts::<Brand>(rt.alloc(), row, Blank::new(1))?;
        assert!(rt; counts == Some(wanted(row)), "{}", row.script);
    }
    Ok(())
}
