//! What is read is a front of what was written, and it is what was given.

ghost use Rattle.std.specs.Prelude.{◌≡◌, ◌++◌, ℕ, List, [], None};
ghost use Rattle.std.specs.List.{AllByRecursion, concat};
ghost use Rattle.vpn_base.specs.declared.names.Conn.{Conn};
ghost use Rattle.vpn_base.specs.declared.names.Sid.{Sid};
ghost use Rattle.opcode_codec.specs.declared.opcodes.Opcode.{Opcode};
ghost use Rattle.opcode_codec.specs.ControlText.{ControlForm};
ghost use Rattle.reliable_recv.specs.Prefix.{IsPrefix};
ghost use Rattle.reliable_recv.specs.Receiving.{text, text_of};
ghost use Rattle.control_link.specs.Envelope.{EnvelopeHistory};
ghost use Rattle.control_link.specs.Links.{Link, link_begun};
ghost use Rattle.control_link.specs.Calls.{after_text, next_text, received, said, ticked, with_ready};
ghost use Rattle.control_link.specs.Reading.{NothingWaits, read_here, taken_with, text_read_of, texts_here};
ghost use Rattle.control_link.specs.Texts.{Carries, arrivals_of, pieces_of};

use reliable_recv::{reads_a_prefix, reads_in_order, reads_packets};

/// Whatever control packets come, in whatever order and however often: where each carries the piece of its
/// packet id of a text that was offered in parts, the text that is read is a front of the text that was
/// offered.
pub fn reads_a_front()
    ensures { (parts : List (List ℕ)) (packets : List ControlForm) → AllByRecursion (Carries (pieces_of parts)) packets →
        IsPrefix (text_of (arrivals_of packets)) (concat parts) }
{
    reads_a_prefix();
}

/// Nothing waits to be read on a fresh link, and where nothing waits, reading gives nothing and changes
/// nothing, and the text that was read is the text of what was taken. Once a packet came then, and the
/// payloads that are here were read, at most 12, the text has grown by exactly the payloads that were
/// given, and nothing waits again. Sending and time leave alone what was taken and read.
pub fn reads_what_is_given()
    ensures begun { (conn : Conn) (kid : ℕ) (first : Opcode) (timeout : ℕ) → NothingWaits (link_begun conn kid first timeout) }
    ensures none { (l : Link) → NothingWaits l → next_text l ≡ None }
    ensures still { (l : Link) → NothingWaits l → after_text l ≡ l }
    ensures whole { (l : Link) → NothingWaits l → text_read_of l ≡ text l.receiving.taken }
    ensures given { (l : Link) (h : EnvelopeHistory) (v : ControlForm) (remote : Sid) (now : ℕ) → NothingWaits l →
        text_read_of (read_here 12 (received l h v remote now).link) ≡ text_read_of l ++ concat (texts_here 12 (received l h v remote now).link) }
    ensures taken { (l : Link) (h : EnvelopeHistory) (v : ControlForm) (remote : Sid) (now : ℕ) → NothingWaits l →
        (read_here 12 (received l h v remote now).link).receiving.taken ≡ taken_with l.receiving.taken v.id v.payload }
    ensures again { (l : Link) (h : EnvelopeHistory) (v : ControlForm) (remote : Sid) (now : ℕ) → NothingWaits l →
        NothingWaits (read_here 12 (received l h v remote now).link) }
    ensures said { (l : Link) (h : EnvelopeHistory) (bytes : List ℕ) (remote : Sid) (now : ℕ) → (said l h bytes remote now).link.receiving ≡ l.receiving }
    ensures ready { (l : Link) (h : EnvelopeHistory) (remote : Sid) (now : ℕ) → (with_ready l h [] remote now).link.receiving ≡ l.receiving }
    ensures ticked { (l : Link) (h : EnvelopeHistory) (remote : Sid) (now : ℕ) → (ticked l h remote now).link.receiving ≡ l.receiving }
{
    reads_in_order();
    reads_packets();
}
