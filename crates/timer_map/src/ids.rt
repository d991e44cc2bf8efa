ghost use Rattle.std.specs.Prelude.{◌≡◌, ◌+◌, ◌^◌, ◌<◌, unwrap_or};
ghost use Rattle.std.specs.Option.{ForNone, option_map_or};

// The id of a timer, which is the next one where it has none yet, and the last id that was given then.
pub(crate) fn id_and_last(again: Option<u32>, last: u32) -> (u32, u32)
    requires { ForNone again (last + 1 < 2 ^ 32) }
    ensures id { result.0 ≡ unwrap_or again (last + 1) }
    ensures small { result.0 < 2 ^ 32 }
    ensures last { result.1 ≡ option_map_or (λ _. last) again (last + 1) }
{
    match again {
        Some(id) => (id, last),
        None => (last + 1, last + 1),
    }
}
