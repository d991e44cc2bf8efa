ghost use Rattle.std.specs.Prelude.{◌≡◌, ℕ, ◌<◌, ◌≢◌, length, IfNone, IfSome};
ghost use Rattle.post_task.specs.Levels.{ListsRise, HasList};
ghost use Rattle.post_task.specs.Heads.{first_of};

use crate::level::{Level, rank};
use crate::tournament::Head;
use task_pool::{ListId, Pool};

/// The first task of a priority source: its first continuation, and where it has none the first of its other tasks.
pub fn read_first<T>(pool: &Pool<T>, level: Level) -> Option<Head>
    requires plain { level.plain.0 < length pool.now.lists }
    requires continuations { level.continuations.0 < length pool.now.lists }
    ensures { result ≡ first_of pool.now level }
{
    let effective = 2 * rank(level.priority);
    match pool.front(level.continuations) {
        Some(order) => Some(Head {
            effective: effective + 1,
            order,
        }),
        None => match pool.front(level.plain) {
            Some(order) => Some(Head { effective, order }),
            None => None,
        },
    }
}

/// The place of the priority source that has a list, or may have it. No other one has it. Costs the logarithm of the number of
/// sources.
pub fn place_of_list(levels: &[Level], list: ListId) -> Option<usize>
    requires { ListsRise levels.now }
    ensures within { IfSome result (λ place. place < length levels.now) }
    ensures none { IfNone result ((place : ℕ) → HasList list.0 place levels.now → ⊥) }
    ensures others { IfSome result (λ found. (place : ℕ) → place ≢ found → HasList list.0 place levels.now → ⊥) }
{
    let behind = levels.partition_point(|level| level.plain.0 <= list.0);
    behind.checked_sub(1)
}
