//! The same reply once more.

ghost use Rattle.std.specs.Prelude.{◌≡◌, ℕ, List, Option, Some, IfOk};
ghost use Rattle.ccd_files.specs.ClientFile.{no_ccd};
ghost use Rattle.vpn_links.specs.Actions.{Action};
ghost use Rattle.peer_table.specs.Outboxes.{HasRoom, Uses};
ghost use Rattle.server_table.specs.Courses.{Course};
ghost use Rattle.server_table.specs.Establishing.{ccd_in, leased_to};
ghost use Rattle.server_table.specs.Exchange.{requested_as};
ghost use Rattle.server_table.specs.Lookups.{client_here};
ghost use Rattle.server_table.specs.Table.{Client, Established, FileState, Table};
ghost use Rattle.server_texts.specs.Replies.{AreRepliesTo, reply_bytes, reply_effects};
ghost use Rattle.server_state.specs.Core.{CoreStands, CourseStands, FileStands};
ghost use Rattle.server_establishing.specs.Ahead.{StandsAgain};

use crate::placing::cipher_at;
use crate::preparing::{copy_file, peer_id_of};
use crate::taking::network_len;
use ccd_files::Ccd;
use ovpn_config::Settings;
use peer_table::ClientSession;
use server_state::{ClientFile, ServerCore};
use server_texts::ReplyAhead;
use std::alloc::Global;
use vpn_base::{Cid, Conn, Ip4, NoMemory, RouteList, TextList};
use vpn_links::Outbox;

// A file that says nothing.
fn empty_file(alloc: Global) -> Ccd
    ensures { result ≡ no_ccd }
{
    Ccd {
        address: None,
        iroutes: RouteList::new(alloc),
        pushes: TextList::new(alloc),
        reset: false,
        disable: false,
    }
}

// What a client's file says; one that is not known says nothing.
fn file_of<'a>(file: &'a ClientFile, none: &'a Ccd) -> &'a Ccd
    requires { none.now ≡ no_ccd }
    ensures { (name : Option (List ℕ)) (s : FileState) → FileStands name file.now s → result.now ≡ ccd_in s }
{
    match file {
        ClientFile::Unasked => none,
        ClientFile::AwaitsOwn => none,
        ClientFile::AwaitsDefault => none,
        ClientFile::Known(known) => known,
    }
}

/// A copy of what a client's file says; one that is not known says nothing.
pub fn copy_known(alloc: Global, file: &ClientFile) -> Result<Ccd, NoMemory>
    ensures { IfOk result (λ copied. (name : Option (List ℕ)) (s : FileState) → FileStands name file.now s → copied ≡ ccd_in s) }
{
    let none = empty_file(alloc);
    copy_file(alloc, file_of(file, &none))
}

// The address of an established client with its length.
fn leased_to(settings: &Settings, file: &Ccd, address: Ip4) -> (Ip4, u8)
    ensures { (e : Established) → e.address ≡ address → result ≡ leased_to settings.now file.now.address e }
{
    match file.address {
        None => (address, network_len(settings)),
        Some(own) => own,
    }
}

// The reply to a client that has this address.
fn reply_with(
    alloc: Global,
    settings: &Settings,
    file: &Ccd,
    address: Ip4,
    peer_id: u32,
) -> Result<ReplyAhead, NoMemory>
    ensures { IfOk result (λ r. (e : Established) → e.address ≡ address →
        AreRepliesTo settings.now file.now peer_id (leased_to settings.now file.now.address e) r) }
{
    let (own, len) = leased_to(settings, file, address);
    match ReplyAhead::make(alloc, settings, file, own, len, peer_id) {
        Ok(replies) => Ok(replies),
        Err(NoMemory) => Err(NoMemory),
    }
}

/// The reply that a client got when it was established, for each of our ciphers. It is None where no client of
/// this number is here and established.
pub fn prepare_again<S: ClientSession>(
    core: &ServerCore<S>,
    alloc: Global,
    cid: Cid,
) -> Result<Option<ReplyAhead>, NoMemory>
    ensures { IfOk result (λ r. (t : Table) (x : Client) (e : Established) → CoreStands S.stands core.now t → client_here t cid.0 ≡ Some x →
        x.established ≡ Some e → StandsAgain t x e r) }
{
    server_state::places_tell_of_clients::<S>();
    let Some(i) = core.clients.place(cid) else {
        return Ok(None);
    };
    let client = core.clients.look_at(i);
    let Some((address, _)) = client.established else {
        return Ok(None);
    };
    let none = empty_file(alloc);
    let file = file_of(&client.file, &none);
    let peer_id = peer_id_of(core, cid);
    match reply_with(alloc, &core.settings, file, address, peer_id) {
        Ok(replies) => Ok(Some(replies)),
        Err(NoMemory) => Err(NoMemory),
    }
}

/// Writes the reply again to an established client, on this connection. It takes no memory.
pub fn reply_again<S: ClientSession>(
    core: &ServerCore<S>,
    cid: Cid,
    conn: Conn,
    replies: &ReplyAhead,
    out: &mut Outbox,
)
    requires room { HasRoom out.old (reply_effects replies.now) (reply_bytes replies.now) }
    ensures replied { (before : List Action) (c : Course) (x : Client) (e : Established) → CourseStands S.stands before core.now out.old c →
        client_here c.table cid.0 ≡ Some x → StandsAgain c.table x e (Some replies.now) →
        CourseStands S.stands before core.now out.new (requested_as cid.0 conn x c (Some e)) }
    ensures uses { Uses out.old out.new (reply_effects replies.now) (reply_bytes replies.now) }
{
    server_state::places_tell_of_clients::<S>();
    let Some(i) = core.clients.place(cid) else {
        return;
    };
    replies.write(conn, cipher_at(core, i), out);
}
