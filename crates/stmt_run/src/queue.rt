//! Lists that are given up from their front.

ghost use Rattle.std.specs.Prelude.{◌≡◌};
ghost use Rattle.stmt_run.specs.Laid.{IsNext};

use std::marker::Model;

/// A list that gives up its items one by one. Contracts see it as the items that are left.
#[derive(Drop)]
pub(crate) struct Queue<T> {
    reversed: Vec<T>,
}

impl<T> Model for Queue<T> {
    ghost use Rattle.std.specs.Prelude.{List, reverse};
    ghost use Rattle.std.specs.Coded.{coded_list};

    ghost Value = { List T };

    ghost coded = { coded_list T.code };

    ghost view = { λ queue. reverse queue.reversed.items };
}

impl<T> Queue<T> {
    pub fn of(mut items: Vec<T>) -> Queue<T>
        ensures { result ≡ items.items }
    {
        items.reverse();
        Queue { reversed: items }
    }

    pub fn next(&mut self) -> Option<T>
        ensures { IsNext result self.old self.new }
    {
        self.reversed.pop()
    }
}
