//! What holds of each line that is written, and of what is written of a command.

ghost use Rattle.std.specs.Prelude.{◌≡◌, ℕ, ◌^◌, ◌<◌, ◌≤◌, ◌++◌, Bool, true, List, Ok, codes};
ghost use Rattle.std.specs.Fmt.{decimal};
ghost use Rattle.vpn_base.specs.declared.address.Addr.{Addr};
ghost use Rattle.vpn_base.specs.declared.names.Cid.{Cid};
ghost use Rattle.vpn_base.specs.declared.names.Moment.{Moment};
ghost use Rattle.vpn_base.specs.FileName.{is_file_name};
ghost use Rattle.vpn_base.specs.Network.{Network};
ghost use Rattle.address_text.specs.AddressText.{addr_text};
ghost use Rattle.mgmt_lines.specs.declared.commands.Command.TheVariants.{KillName, KillAddr, ClientKill, Bytecount};
ghost use Rattle.mgmt_lines.specs.declared.commands.CommandFault.{CommandFault};
ghost use Rattle.mgmt_lines.specs.declared.fixed.FixedLine.{FixedLine};
ghost use Rattle.mgmt_lines.specs.declared.texts.StatusRow.{StatusRow};
ghost use Rattle.mgmt_lines.specs.Commands.{command};
ghost use Rattle.mgmt_lines.specs.Texts.{fixed_text, fault_text, time_text, client_text, route_text, queued_text, load_text, count_text, own_count_text, name_killed_text, name_not_found_text, address_killed_text, address_not_found_text};
ghost use Rattle.mgmt_lines.specs.Laws.{is_clean};

use vpn_base::{reads_decimal_again, reads_ip4_again};
use vpn_text::reads_words_again;

/// No line that is written has a control byte, so none has a line end within, where the name in it
/// has none.
pub fn lines_have_no_control()
    ensures fixed { (l : FixedLine) → is_clean (fixed_text l) ≡ true }
    ensures fault { (fault : CommandFault) → is_clean (fault_text fault) ≡ true }
    ensures time { (m : Moment) → is_clean (time_text m) ≡ true }
    ensures client { (r : StatusRow) → is_clean r.name ≡ true → is_clean (client_text r) ≡ true }
    ensures route { (p : Network) → (learned : Bool) → (name : List ℕ) → (real : Addr) → is_clean name ≡ true
        → is_clean (route_text p learned name real) ≡ true }
    ensures queued { (n : ℕ) → is_clean (queued_text n) ≡ true }
    ensures load { (clients bytes_in bytes_out : ℕ) → is_clean (load_text clients bytes_in bytes_out) ≡ true }
    ensures count { (cid : Cid) → (bytes_in bytes_out : ℕ) → is_clean (count_text cid bytes_in bytes_out) ≡ true }
    ensures own_count { (bytes_in bytes_out : ℕ) → is_clean (own_count_text bytes_in bytes_out) ≡ true }
    ensures name_killed { (name : List ℕ) → (count : ℕ) → is_clean name ≡ true → is_clean (name_killed_text name count) ≡ true }
    ensures name_not_found { (name : List ℕ) → is_clean name ≡ true → is_clean (name_not_found_text name) ≡ true }
    ensures address_killed { (a : Addr) → (count : ℕ) → is_clean (address_killed_text a count) ≡ true }
    ensures address_not_found { (a : Addr) → is_clean (address_not_found_text a) ≡ true }
{}

/// What is written of a client's name, of an address with its port, of a client's number and of an
/// interval is read as that behind its command. So no name that can be a client's is taken for an
/// address.
pub fn reads_commands_again()
    ensures name { (name : List ℕ) → is_file_name name ≡ true → command (codes "kill " ++ name) ≡ Ok (KillName name) }
    ensures address { (a : Addr) → a.ip.0 < 2 ^ 32 → a.port < 2 ^ 16 → command (codes "kill " ++ addr_text a) ≡ Ok (KillAddr a) }
    ensures client { (cid : Cid) → cid.0 < 2 ^ 64 → command (codes "client-kill " ++ decimal cid.0) ≡ Ok (ClientKill cid) }
    ensures interval { (n : ℕ) → n ≤ 86400 → command (codes "bytecount " ++ decimal n) ≡ Ok (Bytecount n) }
{
    reads_words_again();
    reads_ip4_again();
    reads_decimal_again();
}
