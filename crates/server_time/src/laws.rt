//! Laws by which a core proves that it ticks all clients.

ghost use Rattle.std.specs.Prelude.{◌≡◌, ◌+◌, ◌≤◌, ◌<◌, ℕ, length, option_map, Some, None};
ghost use Rattle.client_table.specs.Changes.{number_where};
ghost use Rattle.client_table.specs.Finding.{is_from};
ghost use Rattle.client_table.specs.Tables.{entries_of};
ghost use Rattle.server_table.specs.Courses.{Course};
ghost use Rattle.server_table.specs.Time.{clients_ticked, tick};
ghost use Rattle.server_state.specs.declared.state.ServerCore.{ServerCore};
ghost use Rattle.server_state.specs.Core.{CoreStands};
ghost use Rattle.server_time.specs.Memory.{AreReady, NextIsReady, from_on};

use peer_table::ClientSession;

/// Where time passes for clients in order of number, numbers that are not here change nothing: it goes on with the
/// next that is, and is done where there is none.
pub fn absent_numbers_change_nothing<S: ClientSession>()
    ensures next { (core : ServerCore S) (c : Course) (n m all most : ℕ) → CoreStands S.stands core c.table →
        option_map (λ cid. cid.0) (number_where (is_from n) (entries_of core.clients)) ≡ Some m → n ≤ m → n + all ≡ m + most →
        clients_ticked all n c ≡ clients_ticked most m c }
    ensures none { (core : ServerCore S) (c : Course) (n all : ℕ) → CoreStands S.stands core c.table →
        option_map (λ cid. cid.0) (number_where (is_from n) (entries_of core.clients)) ≡ None → clients_ticked all n c ≡ c }
{
    server_state::places_tell_of_clients::<S>();
}

/// Where no interval is set, a tick is that of the clients: nothing is told of bytes.
pub fn no_counts_are_told()
    ensures { (c : Course) → c.table.count_interval ≡ 0 → tick c ≡ clients_ticked (length c.table.clients) 0 c }
{}

/// Where all clients from a number on have the memory, the next one has its own, and those behind it have theirs.
/// From 0 on, they are all.
pub fn the_next_is_ready<S: ClientSession>()
    ensures all { (core : ServerCore S) → from_on 0 (entries_of core.clients) ≡ entries_of core.clients }
    ensures next { (core : ServerCore S) (n m effects bytes : ℕ) → option_map (λ cid. cid.0) (number_where (is_from n) (entries_of core.clients)) ≡ Some m →
        AreReady S.is_ready (from_on n (entries_of core.clients)) effects bytes → NextIsReady S.is_ready core m effects bytes }
{}
