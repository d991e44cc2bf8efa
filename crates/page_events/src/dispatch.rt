use std::collections::VecDeque;
use std::marker::Model;

/// A dispatch that has begun. It is seen as the registrations that it has still to look at, in order.
#[derive(Drop)]
pub struct Dispatch {
    pub(crate) left: VecDeque<u32>,
}

impl Model for Dispatch {
    ghost use Rattle.std.specs.Prelude.{List, ℕ};

    ghost Value = { List ℕ };

    ghost view = { λ dispatch. dispatch.left.items };
}
