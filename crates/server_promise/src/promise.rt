//! The promise.

ghost use Rattle.std.specs.Prelude.{ℕ, List};
ghost use Rattle.ovpn_config.specs.declared.settings.Settings.{Settings};
ghost use Rattle.server_table.specs.Runs.{Entry, MayRun};
ghost use Rattle.server_table.specs.Table.{table_begun};
ghost use Rattle.server_promise.specs.Promise.{Promise};

/// Every run of a server keeps the promise, whatever its events bring: one from the table to which nothing has
/// come, at each event of which lacks at most what may.
pub fn runs_keep_the_promise()
    ensures { (settings : Settings) (key : List ℕ) (entries : List Entry) → MayRun (table_begun settings key) entries → Promise settings key entries }
{
    server_laws::packets_go_where_they_should();
    server_laws::ids_are_accepted_once();
    server_laws::packets_wait_in_order();
    server_laws::no_packet_is_lost();
    server_laws::packets_of_the_device_go_to_owners();
    server_laws::other_events_hand_nothing_on();
    control_laws::control_text_is_put_in_order();
    control_laws::connections_are_never_shared();
    control_laws::control_text_was_brought();
    control_laws::no_control_packet_is_lost();
}
