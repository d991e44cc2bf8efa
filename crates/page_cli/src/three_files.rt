//! The script, the arrivals and the trace that some commands take.

ghost use Rattle.std.specs.Prelude.{IfOk, IfErr};
ghost use Rattle.page_cli.specs.Forms.{CheckForm};
ghost use Rattle.page_cli.specs.Names.{check_names_seen};
ghost use Rattle.page_cli.specs.ToldFiles.{CanHold};
ghost use Rattle.page_cli.specs.Checked.{AllFit};
ghost use Rattle.page_cli.specs.Missing.{FetchesMissing};
ghost use Rattle.page_cli.specs.Faults.{FailureRose};
ghost use Rattle.page_cli.specs.NamedFiles.{IsUnreadNamed};

use crate::answer::WhichFile;
use crate::names::CheckNames;
use crate::reading::{FileFault, MOST_BYTES, MOST_CHECKED_BYTES, fetched};
use page_io::Folder;
use std::alloc::Global;

/// The bytes of the three files.
#[derive(Drop)]
pub(crate) struct ThreeFiles {
    pub script: Vec<u8>,
    pub arrivals: Vec<u8>,
    pub trace: Vec<u8>,
}

/// A file that was not read.
#[derive(Clone, Copy, Debug)]
pub(crate) struct Unread {
    pub fault: FileFault,
    pub file: WhichFile,
}

/// The bytes of the three files, which are fetched in the order of the words.
pub(crate) fn fetch_three<F: Folder>(
    alloc: Global,
    folder: &mut F,
    names: CheckNames,
) -> Result<ThreeFiles, Unread>
    ensures script { IfOk result (λ files. CanHold (F.file folder.old names.entry.script.now) files.script.items) }
    ensures arrivals { IfOk result (λ files. CanHold (F.file folder.old names.entry.arrivals.now) files.arrivals.items) }
    ensures trace { IfOk result (λ files. CanHold (F.file folder.old names.entry.trace.now) files.trace.items) }
    ensures fit { IfOk result (λ files. AllFit files.script.items files.arrivals.items files.trace.items) }
    ensures unread { IfErr result (IsUnreadNamed (F.file folder.old) names.entry) }
    ensures missing { FetchesMissing result (CheckForm (check_names_seen names.entry)) (F.IsMissing folder.old) }
    ensures cause { IfErr result (FailureRose F.faults folder.old folder.new (CheckForm (check_names_seen names.entry))) }
{
    let script = match fetched(alloc, folder, names.script, MOST_BYTES) {
        Ok(bytes) => bytes,
        Err(fault) => return Err(Unread {
            fault,
            file: WhichFile::Script,
        }),
    };
    let arrivals = match fetched(alloc, folder, names.arrivals, MOST_BYTES) {
        Ok(bytes) => bytes,
        Err(fault) => return Err(Unread {
            fault,
            file: WhichFile::Arrivals,
        }),
    };
    match fetched(alloc, folder, names.trace, MOST_CHECKED_BYTES) {
        Ok(trace) => Ok(ThreeFiles {
            script,
            arrivals,
            trace,
        }),
        Err(fault) => Err(Unread {
            fault,
            file: WhichFile::Trace,
        }),
    }
}
