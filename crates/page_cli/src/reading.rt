//! Reading files.

ghost use Rattle.std.specs.Prelude.{◌≡◌, ◌≤◌, ◌<◌, ℕ, List, IfOk, IfErr, length};
ghost use Rattle.page_types.specs.Counts.{Rose};
ghost use Rattle.lang_ast.specs.SeenProgram.{seen_program};
ghost use Rattle.arrivals_text.specs.Seen.{settings_of};
ghost use Rattle.page_cli.specs.ToldFiles.{OfFile};
ghost use Rattle.page_cli.specs.Scripts.{HasProgram};
ghost use Rattle.page_cli.specs.Answering.{IsRun, RefusesFiles};
ghost use Rattle.page_cli.specs.Pages.{program_in};
ghost use Rattle.page_cli.specs.Refusals.{Refuses, GivesFile, IsUnfetched, answer_to_file, refusal};
ghost use Rattle.page_cli.specs.declared.reading.FileFault.TheVariants.{Failed, TooLong};

use crate::answer::{Answer, WhichFile};
use crate::script_fault::ScriptFault;
use arrivals_text::{PageFault, PageSetup, read_page};
use lang_ast::Program;
use lang_names::resolve;
use lang_parse::parse;
use lang_tokens::tokens;
use page_io::{FetchFault, Fetched, Folder};
use std::alloc::Global;

/// The greatest number of bytes of a script and of an arrivals file.
pub const MOST_BYTES: usize = 1_048_576;

/// The greatest number of bytes of a trace that is exported or blamed.
pub const MOST_TRACE_BYTES: usize = 4_194_304;

/// The greatest number of bytes of a trace that is checked or counted.
pub const MOST_CHECKED_BYTES: usize = 67_108_864;

/// Why a file is not read.
#[derive(Clone, Copy, Debug, PartialEq, Eq)]
pub(crate) enum FileFault {
    /// There is no such file, or a read failed.
    Failed,
    /// It is longer than its limit.
    TooLong,
    OutOfMemory,
}

/// What a script and its arrivals say.
#[derive(Drop)]
pub(crate) struct Page {
    pub program: Program,
    pub setup: PageSetup,
}

/// The bytes of a file that is no longer than this limit.
pub(crate) fn fetched<F: Folder>(
    alloc: Global,
    folder: &mut F,
    name: &str,
    most: usize,
) -> Result<Vec<u8>, FileFault>
    ensures content { OfFile (F.file folder.old name.now) (λ content. GivesFile most content result) }
    ensures size { IfOk result (λ bytes. length bytes.items ≤ most) }
    ensures missing { F.IsMissing folder.old name.now → IsUnfetched result }
    ensures same { (other : List ℕ) → F.file folder.new other ≡ F.file folder.old other }
    ensures stays { (other : List ℕ) → F.IsMissing folder.old other → F.IsMissing folder.new other }
    ensures later { (other : List ℕ) → F.faults folder.old other ≤ F.faults folder.new other }
    ensures cause { IfErr result (λ e. e ≡ Failed → Rose (F.faults folder.old name.now) (F.faults folder.new name.now)) }
{
    let mut bytes = Vec::new(alloc);
    match folder.fetch(name, most, &mut bytes) {
        // A folder that tells no content may call a longer file whole.
        Ok(Fetched::Whole) if bytes.len() <= most => Ok(bytes),
        Ok(_) => Err(FileFault::TooLong),
        Err(FetchFault::Failed) => Err(FileFault::Failed),
        Err(FetchFault::OutOfMemory) => Err(FileFault::OutOfMemory),
    }
}

/// The answer to a file that was not read.
pub(crate) fn answer_to(fault: FileFault, file: WhichFile) -> Answer
    ensures answer { result ≡ answer_to_file fault file }
{
    match fault {
        FileFault::Failed => Answer::ReadFault { file },
        FileFault::TooLong => Answer::TooLong { file },
        FileFault::OutOfMemory => Answer::OutOfMemory,
    }
}

/// The program of a script's bytes.
///
/// The order of refusals is: tokens and tree, and names.
pub(crate) fn read_script(alloc: Global, bytes: &[u8]) -> Result<Program, ScriptFault>
    requires { length bytes.now ≤ MOST_BYTES }
    ensures found { IfOk result (λ program. HasProgram bytes.now (seen_program program)) }
    ensures fault { IfErr result (λ e. Refuses e bytes.now) }
{
    let tokens = tokens(alloc, bytes)?;
    let tree = parse(alloc, &tokens)?;
    Ok(resolve(alloc, tree)?)
}

/// The answer to a script that has no program.
fn refusal(fault: ScriptFault) -> Answer
    ensures { result ≡ refusal fault }
{
    match fault {
        ScriptFault::NoParse { at } => Answer::NoParse { at },
        ScriptFault::Name(fault) => Answer::BadName { fault },
        ScriptFault::OutOfMemory => Answer::OutOfMemory,
    }
}

/// The program and the setup of the bytes of two files, or the answer that refuses them.
///
/// The order of refusals is: script, and arrivals.
pub(crate) fn read_files(alloc: Global, script: &[u8], arrivals: &[u8]) -> Result<Page, Answer>
    requires script { length script.now ≤ MOST_BYTES }
    requires arrivals { length arrivals.now ≤ MOST_BYTES }
    ensures found { IfOk result (λ page. IsRun script.now arrivals.now (program_in page) (settings_of page.setup)) }
    ensures refused { IfErr result (λ answer. RefusesFiles answer script.now arrivals.now) }
{
    let program = match read_script(alloc, script) {
        Ok(program) => program,
        Err(fault) => return Err(refusal(fault)),
    };
    match read_page(alloc, arrivals) {
        Ok(setup) => Ok(Page { program, setup }),
        Err(PageFault::Is(bad)) => Err(Answer::BadArrivals { line: bad.line }),
        Err(PageFault::OutOfMemory) => Err(Answer::OutOfMemory),
    }
}
