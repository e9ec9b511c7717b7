//! Words put behind a line that is written.

ghost use Rattle.std.specs.Prelude.{◌≡◌, ◌∷◌, ◌++◌, OnOk};
ghost use Rattle.std.specs.Fmt.{decimal};
ghost use Rattle.vpn_base.specs.Address.{ip4_text};
ghost use Rattle.address_text.specs.AddressText.{addr_text};
ghost use Rattle.schedule_text.specs.EffectLine.{block_text};
ghost use Rattle.schedule_text.specs.NoteText.{behind, hex_text};

use address_text::write_addr;
use itoa::Buffer;
use std::alloc::Global;
use vpn_base::{Addr, Ip4, NoMemory, write_ip4};

/// Puts bytes at the end.
pub(crate) fn put(line: &mut Vec<u8>, bytes: &[u8]) -> Result<(), NoMemory>
    ensures { OnOk result (line.new.items ≡ line.old.items ++ bytes.now) }
{
    line.extend_from_slice(bytes)?;
    Ok(())
}

/// Puts a number in decimal at the end.
pub(crate) fn put_decimal(line: &mut Vec<u8>, n: u64) -> Result<(), NoMemory>
    ensures { OnOk result (line.new.items ≡ line.old.items ++ decimal n) }
{
    let mut buffer = Buffer::new();
    put(line, buffer.format(n).as_bytes())
}

/// Puts an address in dotted decimal at the end.
pub(crate) fn put_ip4(line: &mut Vec<u8>, a: Ip4) -> Result<(), NoMemory>
    ensures { OnOk result (line.new.items ≡ line.old.items ++ ip4_text a) }
{
    let mut buffer = [0u8; 15];
    let len = write_ip4(a, &mut buffer);
    put(line, &buffer[..len])
}

/// Puts a word at the end, with a space before it.
pub(crate) fn put_word(line: &mut Vec<u8>, word: &[u8]) -> Result<(), NoMemory>
    ensures { OnOk result (line.new.items ≡ line.old.items ++ 32 ∷ word.now) }
{
    put(line, b" ")?;
    put(line, word)
}

/// The same for a number.
pub(crate) fn put_number(line: &mut Vec<u8>, n: u64) -> Result<(), NoMemory>
    ensures { OnOk result (line.new.items ≡ line.old.items ++ 32 ∷ decimal n) }
{
    put(line, b" ")?;
    put_decimal(line, n)
}

/// The same for an address.
pub(crate) fn put_host(line: &mut Vec<u8>, a: Ip4) -> Result<(), NoMemory>
    ensures { OnOk result (line.new.items ≡ line.old.items ++ 32 ∷ ip4_text a) }
{
    put(line, b" ")?;
    put_ip4(line, a)
}

/// The same for an address with a port.
pub(crate) fn put_addr(line: &mut Vec<u8>, a: Addr) -> Result<(), NoMemory>
    ensures { OnOk result (line.new.items ≡ line.old.items ++ 32 ∷ addr_text a) }
{
    put(line, b" ")?;
    write_addr(line, a)
}

/// The same for an address with a length.
pub(crate) fn put_block(line: &mut Vec<u8>, a: Ip4, len: u8) -> Result<(), NoMemory>
    ensures { OnOk result (line.new.items ≡ line.old.items ++ 32 ∷ block_text a len) }
{
    put_host(line, a)?;
    put(line, b"/")?;
    put_decimal(line, u64::from(len))
}

/// The same for bytes in hexadecimal.
pub(crate) fn put_hex(alloc: Global, line: &mut Vec<u8>, bytes: &[u8]) -> Result<(), NoMemory>
    ensures { OnOk result (line.new.items ≡ line.old.items ++ 32 ∷ hex_text bytes.now) }
{
    if bytes.is_empty() {
        return put_word(line, b"-");
    }
    let text = hex::encode(alloc, bytes)?;
    put_word(line, text.as_bytes())
}
