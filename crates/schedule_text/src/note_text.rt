//! Notes put behind a line that is written.

ghost use Rattle.std.specs.Prelude.{◌≡◌, ◌∷◌, ◌++◌, [], OnOk};
ghost use Rattle.std.specs.Fmt.{decimal};
ghost use Rattle.vpn_base.specs.Address.{ip4_text};
ghost use Rattle.address_text.specs.AddressText.{addr_text};
ghost use Rattle.schedule_text.specs.NoteText.{behind, cause_field, cause_word, field_words, first_word, form_word, freshness_word, note_fields, note_word, note_words, owner_word, sender_word};

use crate::pieces::{put_addr, put_hex, put_host, put_number, put_word};
use std::alloc::Global;
use vpn_base::{Addr, Cause, Cid, Freshness, Ip4, Malformed, NoMemory};
use vpn_links::Note;

fn form_word(kind: Malformed) -> &'static [u8]
    ensures { result.now ≡ form_word kind }
{
    match kind {
        Malformed::Empty => b"empty",
        Malformed::Opcode { .. } => b"opcode",
        Malformed::Short => b"short",
        Malformed::Acks => b"acks",
        Malformed::NoRemote => b"no-remote",
    }
}

fn freshness_word(kind: Freshness) -> &'static [u8]
    ensures { result.now ≡ freshness_word kind }
{
    match kind {
        Freshness::Fresh => b"fresh",
        Freshness::Zero => b"zero",
        Freshness::Old => b"old",
        Freshness::Seen => b"seen",
        Freshness::Late => b"late",
    }
}

fn cause_word(cause: Cause) -> &'static [u8]
    ensures { result.now ≡ cause_word cause }
{
    match cause {
        Cause::HandWindow => b"hand-window",
        Cause::PingRestart => b"ping-restart",
        Cause::EngineDown => b"engine-down",
        Cause::NameChanged => b"name-changed",
        Cause::BadName => b"bad-name",
        Cause::NoCipher => b"no-cipher",
        Cause::BadMessage { .. } => b"bad-message",
        Cause::Unread => b"unread",
        Cause::TextFull => b"text-full",
        Cause::WrapSpent => b"wrap-spent",
        Cause::Disabled => b"disabled",
        Cause::NoCcd => b"no-ccd",
        Cause::CcdFailed => b"ccd-failed",
        Cause::CcdRefused { .. } => b"ccd-refused",
        Cause::PoolEmpty => b"pool-empty",
        Cause::Replaced { .. } => b"replaced",
        Cause::Killed => b"killed",
        Cause::AuthFailed => b"auth-failed",
        Cause::Restart => b"restart",
        Cause::HaltTold => b"halt-told",
        Cause::PushRefused => b"push-refused",
    }
}

fn cause_field(cause: Cause) -> Option<u64>
    ensures { result ≡ cause_field cause }
{
    match cause {
        Cause::BadMessage { place } => Some(u64::from(place)),
        Cause::CcdRefused { line } => Some(u64::from(line)),
        Cause::Replaced { by } => Some(by.0),
        _ => None,
    }
}

fn note_word(note: Note) -> &'static [u8]
    ensures { result.now ≡ note_word note }
{
    match note {
        Note::Malformed { .. } => b"malformed",
        Note::NotWrapped => b"not-wrapped",
        Note::Replayed { .. } => b"replayed",
        Note::UnknownPeer { .. } => b"unknown-peer",
        Note::UnknownSession { .. } => b"unknown-session",
        Note::UnknownConn { .. } => b"unknown-conn",
        Note::Full { .. } => b"full",
        Note::BadKey { .. } => b"bad-key",
        Note::NotSealed { .. } => b"not-sealed",
        Note::Stale { .. } => b"stale",
        Note::Ping { .. } => b"ping",
        Note::NotIp { .. } => b"not-ip",
        Note::TooLong { .. } => b"too-long",
        Note::Multicast { .. } => b"multicast",
        Note::BadSource { .. } => b"bad-source",
        Note::NoRoute => b"no-route",
        Note::KeySpent { .. } => b"key-spent",
        Note::QueueFull { .. } => b"queue-full",
        Note::Moved { .. } => b"moved",
        Note::NotLearned { .. } => b"not-learned",
        Note::Ignored { .. } => b"ignored",
        Note::Unasked { .. } => b"unasked",
        Note::NotUp => b"not-up",
        Note::Ended { .. } => b"ended",
        Note::NoMemory => b"no-memory",
    }
}

fn put_form(
    alloc: Global,
    line: &mut Vec<u8>,
    kind: Malformed,
    first: Option<u8>,
) -> Result<(), NoMemory>
    ensures { OnOk result (line.new.items ≡ line.old.items ++ behind (form_word kind ∷ first_word first ∷ [])) }
{
    put_word(line, form_word(kind))?;
    match first {
        None => put_word(line, b"-"),
        Some(byte) => put_hex(alloc, line, &[byte]),
    }
}

fn put_two(line: &mut Vec<u8>, first: u64, second: u64) -> Result<(), NoMemory>
    ensures { OnOk result (line.new.items ≡ line.old.items ++ behind (decimal first ∷ decimal second ∷ [])) }
{
    put_number(line, first)?;
    put_number(line, second)
}

fn put_stale(
    line: &mut Vec<u8>,
    cid: Cid,
    kind: Freshness,
    id: u32,
    greatest: u32,
) -> Result<(), NoMemory>
    ensures { OnOk result (line.new.items ≡ line.old.items ++ behind (decimal cid.0 ∷ freshness_word kind ∷ decimal id ∷ decimal greatest ∷ [])) }
{
    put_number(line, cid.0)?;
    put_word(line, freshness_word(kind))?;
    put_two(line, u64::from(id), u64::from(greatest))
}

fn put_sender(line: &mut Vec<u8>, from: Option<Cid>) -> Result<(), NoMemory>
    ensures { OnOk result (line.new.items ≡ line.old.items ++ behind (sender_word from ∷ [])) }
{
    match from {
        None => put_word(line, b"device"),
        Some(cid) => put_number(line, cid.0),
    }
}

fn put_owner(line: &mut Vec<u8>, cid: Cid, owner: Option<Cid>) -> Result<(), NoMemory>
    ensures { OnOk result (line.new.items ≡ line.old.items ++ behind (decimal cid.0 ∷ owner_word owner ∷ [])) }
{
    put_number(line, cid.0)?;
    match owner {
        None => put_word(line, b"none"),
        Some(owner) => put_number(line, owner.0),
    }
}

fn put_cause(line: &mut Vec<u8>, cid: Cid, cause: Cause) -> Result<(), NoMemory>
    ensures { OnOk result (line.new.items ≡ line.old.items ++ behind (decimal cid.0 ∷ cause_word cause ∷ field_words (cause_field cause))) }
{
    put_number(line, cid.0)?;
    put_word(line, cause_word(cause))?;
    match cause_field(cause) {
        None => Ok(()),
        Some(n) => put_number(line, n),
    }
}

fn put_moved(line: &mut Vec<u8>, cid: Cid, to: Addr) -> Result<(), NoMemory>
    ensures { OnOk result (line.new.items ≡ line.old.items ++ behind (decimal cid.0 ∷ addr_text to ∷ [])) }
{
    put_number(line, cid.0)?;
    put_addr(line, to)
}

fn put_not_learned(line: &mut Vec<u8>, cid: Cid, host: Ip4) -> Result<(), NoMemory>
    ensures { OnOk result (line.new.items ≡ line.old.items ++ behind (decimal cid.0 ∷ ip4_text host ∷ [])) }
{
    put_number(line, cid.0)?;
    put_host(line, host)
}

fn put_fields(alloc: Global, line: &mut Vec<u8>, note: Note) -> Result<(), NoMemory>
    ensures { OnOk result (line.new.items ≡ line.old.items ++ behind (note_fields note)) }
{
    match note {
        Note::Malformed { kind, first } => put_form(alloc, line, kind, first),
        Note::NotWrapped => Ok(()),
        Note::Replayed { time, id } => put_two(line, u64::from(time), u64::from(id)),
        Note::UnknownPeer { peer } => put_number(line, u64::from(peer)),
        Note::UnknownSession { sid } => put_hex(alloc, line, &sid.0),
        Note::UnknownConn { conn } => put_number(line, conn.0),
        Note::Full { most } => put_number(line, u64::from(most)),
        Note::BadKey { cid, kid } => put_two(line, cid.0, u64::from(kid)),
        Note::NotSealed { cid } => put_number(line, cid.0),
        Note::Stale {
            cid,
            kind,
            id,
            greatest,
        } => put_stale(line, cid, kind, id, greatest),
        Note::Ping { cid } => put_number(line, cid.0),
        Note::NotIp { from } => put_sender(line, from),
        Note::TooLong { from } => put_sender(line, from),
        Note::Multicast { from } => put_sender(line, from),
        Note::BadSource { cid, owner } => put_owner(line, cid, owner),
        Note::NoRoute => Ok(()),
        Note::KeySpent { cid } => put_number(line, cid.0),
        Note::QueueFull { cid } => put_number(line, cid.0),
        Note::Moved { cid, to } => put_moved(line, cid, to),
        Note::NotLearned { cid, host } => put_not_learned(line, cid, host),
        Note::Ignored { cid } => put_number(line, cid.0),
        Note::Unasked { cid } => put_number(line, cid.0),
        Note::NotUp => Ok(()),
        Note::Ended { cid, cause } => put_cause(line, cid, cause),
        Note::NoMemory => Ok(()),
    }
}

/// Puts a note at the end: its name, and what it says beside.
pub(crate) fn put_note(alloc: Global, line: &mut Vec<u8>, note: Note) -> Result<(), NoMemory>
    ensures { OnOk result (line.new.items ≡ line.old.items ++ behind (note_words note)) }
{
    put_word(line, note_word(note))?;
    put_fields(alloc, line, note)
}
