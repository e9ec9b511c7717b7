//! The push reply to a client, made before it is known which cipher the keys of the client have.

ghost use Rattle.std.specs.Prelude.{◌≡◌, ◌≤◌, ◌++◌, length, map, IfOk};
ghost use Rattle.vpn_base.specs.Address.{ip4_text};
ghost use Rattle.vpn_text.specs.Mask.{mask_text};
ghost use Rattle.vpn_links.specs.Actions.{EngineWrite, Holds};
ghost use Rattle.ovpn_config.specs.declared.settings.Settings.{Settings};
ghost use Rattle.peer_table.specs.Outboxes.{HasRoom, Uses};
ghost use Rattle.push_options.specs.Options.{planned};
ghost use Rattle.server_table.specs.Establishing.{Leased, ccd_in, client_cipher, gateway, reply};
ghost use Rattle.server_table.specs.Table.{Client};
ghost use Rattle.server_texts.specs.Replies.{AreRepliesTo, plan_for, reply_bytes, reply_effects, text_bytes, texts_of, texts_with, with_nul};

use crate::put::put;
use ccd_files::Ccd;
use ovpn_config::Settings;
use push_options::PushPlan;
use std::alloc::Global;
use std::marker::Model;
use vpn_base::{Cipher, Conn, Ip4, NoMemory, Text, TextList};
use vpn_links::{Effect, Outbox};

/// The reply to a client for either of our ciphers, ready to be written. Contracts see the texts for each of
/// them, which are the parts of that reply with a NUL behind each.
#[derive(Drop)]
pub struct ReplyAhead {
    with_128: TextList,
    with_256: TextList,
    bytes: usize,
}

impl Model for ReplyAhead {
    ghost use Rattle.std.specs.Prelude.{◌≡◌, max};
    ghost use Rattle.server_texts.specs.Replies.{Replies, text_bytes};

    ghost Value = { Replies };

    ghost view = { λ r. record { with_128 = r.with_128; with_256 = r.with_256 } };

    ghost invariant = { λ r. r.bytes ≡ max (text_bytes r.with_128) (text_bytes r.with_256) };
}

// The server's own address, or one that the options spell alike: behind the last address the numbers go on,
// and the spelling begins anew.
fn gateway_of(settings: &Settings) -> Ip4
    ensures { ip4_text result ≡ ip4_text (gateway settings.now) }
{
    match settings.net {
        None => Ip4(1),
        Some(network) => Ip4(network.net().0.wrapping_add(1)),
    }
}

// The length of a mask, or one that the options spell alike: past 32 it is the mask of 32.
#[tactic(auto, using(crate::proofs::Spelled::mask_spelled))]
fn mask_len(len: u8) -> u8
    ensures most { result ≤ 32 }
    ensures same { mask_text result ≡ mask_text len }
{
    if len > 32 {
        return 32;
    }
    len
}

// A part with a NUL behind it.
fn end_part(alloc: Global, part: &[u8]) -> Result<Text, NoMemory>
    ensures { IfOk result (λ t. t ≡ with_nul part.now) }
{
    let mut text = Vec::from_slice(alloc, part)?;
    text.push(0)?;
    Ok(Text::of(text))
}

// All parts, each with a NUL behind it.
fn end_parts(alloc: Global, parts: &[Text]) -> Result<TextList, NoMemory>
    ensures { IfOk result (λ l. l ≡ map with_nul parts.now) }
{
    let mut texts = TextList::new(alloc);
    for part in parts {
        texts.add(end_part(alloc, part.as_slice())?)?;
    }
    Ok(texts)
}

// The texts of the reply of a plan.
#[tactic(auto, unfolding(crate::specs::Replies::texts_of))]
fn texts(alloc: Global, plan: &PushPlan<'_>) -> Result<TextList, NoMemory>
    requires { plan.now.len ≤ 32 }
    ensures { IfOk result (λ l. l ≡ texts_of (planned plan.now)) }
{
    let options = push_options::plan(alloc, plan)?;
    let parts = push_options::reply(alloc, &options)?;
    end_parts(alloc, parts.as_slice())
}

// How many bytes these texts have together. Want of memory is where no number counts them.
fn count_bytes(texts: &[Text]) -> Result<usize, NoMemory>
    ensures { IfOk result (λ n. n ≡ text_bytes texts.now) }
{
    let mut bytes: usize = 0;
    for text in texts {
        let Some(more) = bytes.checked_add(text.as_slice().len()) else {
            return Err(NoMemory);
        };
        bytes = more;
    }
    Ok(bytes)
}

// Writes these texts on a connection, in order.
fn write_texts(texts: &[Text], conn: Conn, out: &mut Outbox)
    requires { HasRoom out.old (length texts.now) (text_bytes texts.now) }
    ensures written { Holds out.new (out.old.effects ++ map (EngineWrite conn) texts.now) out.old.staged }
    ensures uses { Uses out.old out.new (length texts.now) (text_bytes texts.now) }
{
    for text in texts {
        put(
            out,
            &Effect::EngineWrite {
                conn,
                bytes: text.as_slice(),
            },
        );
    }
}

impl ReplyAhead {
    /// The reply to a client with this file, this peer id, and this address in the tunnel with the length of its
    /// mask in bits, of which more than 32 are as 32, for each of our ciphers. Want of memory is all that can fail.
    pub fn make(
        alloc: Global,
        settings: &Settings,
        file: &Ccd,
        address: Ip4,
        len: u8,
        peer_id: u32,
    ) -> Result<ReplyAhead, NoMemory>
        ensures { IfOk result (AreRepliesTo settings.now file.now peer_id (address, len)) }
    {
        let mut plan = PushPlan {
            pushes: &settings.pushes,
            reset: file.reset,
            gateway: gateway_of(settings),
            keepalive: settings.keepalive,
            own: &file.pushes,
            address,
            len: mask_len(len),
            peer: peer_id,
            cipher: Cipher::Aes128Gcm,
        };
        let with_128 = texts(alloc, &plan)?;
        plan.cipher = Cipher::Aes256Gcm;
        let with_256 = texts(alloc, &plan)?;
        ReplyAhead::of(with_128, with_256)
    }

    // The reply of these texts.
    fn of(with_128: TextList, with_256: TextList) -> Result<ReplyAhead, NoMemory>
        ensures { IfOk result (λ r. r ≡ record { with_128 = with_128; with_256 = with_256 }) }
    {
        let fewer = count_bytes(with_128.as_slice())?;
        let more = count_bytes(with_256.as_slice())?;
        Ok(ReplyAhead {
            with_128,
            with_256,
            bytes: fewer.max(more),
        })
    }

    /// How many effects and how many bytes an outbox takes of [`ReplyAhead::write`], whichever the cipher is.
    pub fn room(&self) -> (usize, usize)
        ensures effects { result.0 ≡ reply_effects self.now }
        ensures bytes { result.1 ≡ reply_bytes self.now }
    {
        (self.with_128.count().max(self.with_256.count()), self.bytes)
    }

    // The texts for this cipher.
    fn texts_with(&self, cipher: Cipher) -> &TextList
        ensures { result.now ≡ texts_with self.now cipher }
    {
        match cipher {
            Cipher::Aes128Gcm => &self.with_128,
            Cipher::Aes256Gcm => &self.with_256,
        }
    }

    /// Writes the reply for this cipher on a connection, a part at a time. It takes no memory.
    pub fn write(&self, conn: Conn, cipher: Cipher, out: &mut Outbox)
        requires { HasRoom out.old (reply_effects self.now) (reply_bytes self.now) }
        ensures written { Holds out.new (out.old.effects ++ map (EngineWrite conn) (texts_with self.now cipher)) out.old.staged }
        ensures reply { (s : Settings) → (x : Client) → (a : Leased) → AreRepliesTo s (ccd_in x.file) x.peer_id a self.now →
            client_cipher x ≡ cipher → Holds out.new (out.old.effects ++ reply s x a conn) out.old.staged }
        ensures uses { Uses out.old out.new (reply_effects self.now) (reply_bytes self.now) }
    {
        write_texts(self.texts_with(cipher).as_slice(), conn, out);
    }
}
