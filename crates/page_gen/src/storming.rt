//! The texts of a storm.

ghost use Rattle.std.specs.Prelude.{◌≡◌, ◌≤◌, IfOk};
ghost use Rattle.page_gen.specs.Storm.{storm_script, storm_arrivals};

use page_values::print_number;
use std::alloc::{AllocError, Global};

/// What stands in the script before the number of turns.
const BEFORE_TURNS: &[u8] = b"\
var i = 0;\n\
var s = 1;\n\
var k = 0;\n\
var c = unit;\n\
fn f() { return 1; }\n\
fn g(v) { }\n\
while (i < ";

/// What stands in the script behind it.
const BEHIND_TURNS: &[u8] = b") {\n\
s = (s * 1103515245 + 12345) % 2147483648;\n\
k = (s / 65536) % 4;\n\
if (k == 0) { setTimeout(f, (s / 262144) % 1000); }\n\
if (k == 1) { queueMicrotask(f); }\n\
if (k == 2) { postTask(f, \"background\", unit, 0); }\n\
if (k == 3) { c = controller(); then(postTask(f, unit, signal(c), 0), unit, g); abort(c, unit); }\n\
i = i + 1;\n\
}\n";

const ARRIVALS: &[u8] = b"\
page 1\n\
fuel 10000000\n\
until 1000000000000\n";

#[tactic(auto, using(crate::proofs::Tokens::script_written))]
fn script(alloc: Global, n: u32) -> Result<Vec<u8>, AllocError>
    ensures { IfOk result (λ text. text.items ≡ storm_script n) }
{
    let mut text = Vec::new(alloc);
    text.extend_from_slice(BEFORE_TURNS)?;
    print_number(n as u64, &mut text)?;
    text.extend_from_slice(BEHIND_TURNS)?;
    Ok(text)
}

/// The script and the arrivals of the storm with a number from 1 to 100,000. The script asks in a loop, so many times, for a
/// timer, a microtask, a scheduler task or one that it aborts at once; which of them says a series of numbers that is always
/// the same. `storms_run` says that both texts are accepted.
///
/// The one error is want of memory. The script has fewer than 500 bytes.
#[tactic(auto, unfolding(crate::specs::Storm::storm_arrivals))]
pub fn storm(alloc: Global, n: u32) -> Result<(Vec<u8>, Vec<u8>), AllocError>
    requires some { 1 ≤ n }
    requires at_most { n ≤ 100000 }
    ensures script { IfOk result (λ texts. texts.0.items ≡ storm_script n) }
    ensures arrivals { IfOk result (λ texts. texts.1.items ≡ storm_arrivals) }
{
    let script = script(alloc, n)?;
    Ok((script, ARRIVALS.to_vec(alloc)?))
}
