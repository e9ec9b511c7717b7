//! How keys are changed.

ghost use Rattle.std.specs.Prelude.{◌≡◌, ◌<◌, vec_len};
ghost use Rattle.client_table.specs.Changes.{changed_at, with_address, with_name};

use crate::key::Key;
use vpn_base::{Addr, Text};

pub(crate) fn change_address(keys: &mut Vec<Key>, i: usize, to: Addr)
    requires { i < vec_len keys.old }
    ensures { keys.new.items ≡ changed_at i (with_address to) keys.old.items }
{
    keys[i].address = to;
}

pub(crate) fn change_name(keys: &mut Vec<Key>, i: usize, name: Text)
    requires { i < vec_len keys.old }
    ensures { keys.new.items ≡ changed_at i (with_name name) keys.old.items }
{
    keys[i].name = Some(name);
}
