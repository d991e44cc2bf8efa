ghost use Rattle.std.specs.Prelude.{◌≡◌, ◌<◌};

use super::*;
use std::marker::Brand;
use std::process::Abort;
use std::sync::ledger::Blank;
use std::test::Fail;

fn a_task_and_a_scheduler_task<L: Ledger>(
    rt: &impl Abort,
    alloc: Global,
    blank: Blank,
) -> Result<(), Fail>
    requires name { blank.name ≡ L.name }
    requires parts { blank.parts ≡ L.parts }
    requires some { 0 < blank.parts }
{
    let (book, share) = blank.open::<L>();
    let mut steps = Steps::new(book, share);
    let taken = one_of_each(alloc, 'a', 'b', &mut steps)?;
    assert_eq!(rt; taken.user, Some((1, 'a')));
    assert_eq!(rt; taken.scheduled, Some((2, 'b')));
    Ok(())
}

#[test]
fn both_sides_of_a_pool_give_back_their_own(rt: HostRuntime) -> Result<(), Fail> {
    a_task_and_a_scheduler_task::<Brand>(&rt, rt.alloc(), Blank::new(1))
}
