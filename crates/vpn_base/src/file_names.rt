//! Names that a client brings and that are to name files.

ghost use Rattle.std.specs.Prelude.{◌≡◌, IfOk, is_ok};
ghost use Rattle.std.specs.List.{list_all};
ghost use Rattle.vpn_base.specs.FileName.{is_file_name, is_name_byte, names_folder};

/// The text can't be the name of a file in the folder.
#[derive(Clone, Copy, Debug, PartialEq, Eq)]
pub struct BadName;

fn is_name_byte(byte: u8) -> bool
    ensures { result ≡ is_name_byte byte }
{
    byte.is_ascii_alphanumeric() || byte == b'_' || byte == b'-' || byte == b'.' || byte == b'@'
}

fn names_folder(name: &[u8]) -> bool
    ensures { result ≡ names_folder name.now }
{
    name == b".".as_slice() || name == b"..".as_slice()
}

fn has_name_bytes(name: &[u8]) -> bool
    ensures { result ≡ list_all is_name_byte name.now }
{
    name.iter().all(|byte| is_name_byte(*byte))
}

#[tactic(auto, unfolding(crate::specs::FileName::is_file_name))]
fn is_file_name(name: &[u8]) -> bool
    ensures { result ≡ is_file_name name.now }
{
    if name.is_empty() || name.len() > 64 {
        return false;
    }
    if names_folder(name) {
        return false;
    }
    has_name_bytes(name)
}

/// The name itself, where it names a file in a folder and nothing outside of it. `BadName` comes
/// exactly where it is empty, longer than 64 bytes, `.` or `..`, or has a byte that is no letter
/// or digit of ASCII and none of `_`, `-`, `.` and `@`.
pub fn file_name(name: &[u8]) -> Result<&[u8], BadName>
    ensures exact { is_ok result ≡ is_file_name name.now }
    ensures name { IfOk result (λ r. r.now ≡ name.now) }
{
    if is_file_name(name) {
        Ok(name)
    } else {
        Err(BadName)
    }
}
