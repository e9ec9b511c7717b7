//! Events that wait in order.

ghost use Rattle.std.specs.Prelude.{◌≡◌, [], ◌∷◌, ◌++◌, MatchOption, OnOk, OnErr, IfSome};
ghost use Rattle.vpn_links.specs.Rounds.{IsOfLine};

use std::alloc::Global;
use std::collections::VecDeque;
use std::marker::Model;
use vpn_base::NoMemory;
use vpn_links::Event;

// Events, the first one in front. Contracts see the list of them.
#[derive(Drop)]
pub(crate) struct Events {
    queue: VecDeque<Event>,
}

impl Model for Events {
    ghost use Rattle.std.specs.Prelude.{List};
    ghost use Rattle.std.specs.List.{AllByRecursion};
    ghost use Rattle.vpn_links.specs.Rounds.{IsOfLine};
    ghost use Rattle.vpn_links.specs.declared.events.Event.{Event};

    ghost Value = { List Event };

    ghost view = { λ e. e.queue.items };

    ghost invariant = { λ e. AllByRecursion (λ event. IsOfLine event.kind) e.queue.items };
}

impl Events {
    pub(crate) fn new(alloc: Global) -> Events
        ensures { result ≡ [] }
    {
        Events {
            queue: VecDeque::new(alloc),
        }
    }

    // Adds an event at the end. After want of memory nothing has changed.
    pub(crate) fn add(&mut self, event: Event) -> Result<(), NoMemory>
        requires { IsOfLine event.kind }
        ensures ok { OnOk result (self.new ≡ self.old ++ event ∷ []) }
        ensures err { OnErr result (self.new ≡ self.old) }
    {
        self.queue.push_back(event)?;
        Ok(())
    }

    // Takes the first one, if there is one.
    pub(crate) fn take_first(&mut self) -> Option<Event>
        ensures first { MatchOption result ((self.old ≡ []) × (self.new ≡ [])) (λ event. self.old ≡ event ∷ self.new) }
        ensures bounded { IfSome result (λ event. IsOfLine event.kind) }
    {
        self.queue.pop_front()
    }
}
