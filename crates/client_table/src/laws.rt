//! Laws that tell whether the definitions mean what they should.

ghost use Rattle.std.specs.Prelude.{◌≡◌, ◌≤◌, ℕ, List, length};
ghost use Rattle.client_table.specs.declared.table.ClientTable.{ClientTable};
ghost use Rattle.client_table.specs.Changes.{by_key, changed_at, with_value};
ghost use Rattle.client_table.specs.Entries.{Entry};
ghost use Rattle.client_table.specs.Finding.{has_peer_id};
ghost use Rattle.client_table.specs.PeerIds.{IsLeastUnused, free_peer_id};
ghost use Rattle.client_table.specs.Tables.{entries_of, most_of, with_value_at};

/// Where another value is left behind a reference that was lent, it is the value at that place.
#[tactic(auto, using(crate::proofs::Pairs::value_set))]
pub fn lending_sets_the_value<V>()
    ensures { (t : ClientTable V) (i : ℕ) (w : V) → entries_of (with_value_at t i w) ≡ changed_at i (with_value w) (entries_of t) }
{}

/// The peer id that a client gets is the least that no client has.
pub fn peer_ids_are_the_least_free<V>()
    ensures { (es : List (Entry V)) → IsLeastUnused (λ n. by_key (has_peer_id n)) (free_peer_id es) es }
{}

/// No more clients are here than may be.
#[tactic(auto, using(crate::proofs::Rising::few_here))]
pub fn no_more_are_here_than_may_be<V>()
    ensures { (t : ClientTable V) → length (entries_of t) ≤ most_of t }
{}
