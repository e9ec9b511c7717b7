//! A core, as the loop that runs it knows it.

ghost use Rattle.std.specs.Prelude.{◌≡◌, ℕ, ◌≤◌, Bool, true, List, [], ◌++◌, OnOk, OnErr};
ghost use Rattle.vpn_links.specs.Actions.{Action, Holds, HasRoom};
ghost use Rattle.vpn_links.specs.Rounds.{IsOfLine};
ghost use Rattle.vpn_links.specs.Steps.{Lack, LacksAll, LacksHost, Stepped};

use crate::events::Event;
use crate::outbox::Outbox;
use vpn_base::NoMemory;

/// A core that takes events, one at a time, and fills an outbox with what it does to the outside.
pub trait Machine {
    ghost use Rattle.vpn_links.specs.declared.events.Event.{Event};

    /// Everything that a core has been told.
    ghost Table: { Type 0 };

    /// The tables for which it stands.
    ghost stands: { Self → Table → Type 0 };

    /// The table after an event. The first argument says that there is no memory to learn the event's host.
    ghost next: { Bool → Table → Event → Table };

    /// What the event does to the outside.
    ghost effects: { Bool → Table → Event → List Action };

    /// What may lack memory at an event.
    ghost may_lack: { Table → Event → Lack → Type 0 };

    /// Takes an event and adds its effects. After want of memory the core and the outbox are as before, so the
    /// same event may be given again. In an outbox that was made or cleared it comes only for an event that may
    /// lack as a whole.
    fn step(&mut self, event: &Event, out: &mut Outbox) -> Result<(), NoMemory>
        requires datagram { IsOfLine event.now.kind }
        requires staged { out.old.staged ≡ [] }
        ensures stepped { OnOk result ((t : Table) → stands self.old t →
            Stepped next effects may_lack (stands self.new) t event.entry.now out.old.effects out.new) }
        ensures unchanged { OnErr result ((t : Table) → stands self.old t → stands self.new t) }
        ensures err { OnErr result (Holds out.new out.old.effects []) }
        ensures lacking { OnErr result (HasRoom out.old → (t : Table) → stands self.old t → may_lack t event.entry.now LacksAll) };
}
