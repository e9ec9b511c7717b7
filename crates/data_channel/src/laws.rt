//! Laws that tell whether the definitions mean what they should.

ghost use Rattle.std.specs.Prelude.{◌≡◌, ◌+◌, ℕ, List};
ghost use Rattle.vpn_base.specs.declared.names.Role.{Role};
ghost use Rattle.packet_ids.specs.Freshness.{History};
ghost use Rattle.peer_table.specs.DataPackets.{opened_under, sealed_under};
ghost use Rattle.peer_table.specs.KeySessions.{Keys};
ghost use Rattle.data_channel.specs.Channels.{channel_of, next_packet_of, opened_of};

/// The channel of a session's keys seals as an end of any role does under these keys, and opens what such an end sealed
/// under them.
#[tactic(auto, unfolding(crate::specs::Channels::next_packet_of, crate::specs::Channels::opened_of, peer_table::specs::DataPackets::sealed_under, peer_table::specs::DataPackets::opened_under))]
pub fn channels_are_of_keys()
    ensures seals { (role end : Role) (keys : Keys) (kid : ℕ) (received : History) (sealed : ℕ) (inner : List ℕ) →
        next_packet_of role (channel_of end keys kid received sealed) inner ≡ sealed_under role keys kid (sealed + 1) inner }
    ensures opens { (role end : Role) (keys : Keys) (kid : ℕ) (received : History) (sealed : ℕ) (datagram : List ℕ) →
        opened_of role (channel_of end keys kid received sealed) datagram ≡ opened_under role keys kid datagram }
{}
