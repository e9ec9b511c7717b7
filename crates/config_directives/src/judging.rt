//! What is wrong with a directive.

ghost use Rattle.std.specs.Prelude.{◌≡◌};
ghost use Rattle.config_directives.specs.Items.{arguments_of, name_of};
ghost use Rattle.config_directives.specs.Judging.{is_known, is_open, is_repeated, is_taken, kind_of, may_repeat};

use crate::item::{Directive, Item, is_given};
use crate::keyword::keyword_of;
use crate::names::{is_for_block, is_for_engine, is_idle, is_refused};
use vpn_text::ConfigKind;

fn is_known(item: &Item) -> bool
    ensures { result ≡ is_known item.now }
{
    let name = item.name();
    match item {
        Item::Words(_) => keyword_of(name).is_some() || is_for_engine(name) || is_idle(name),
        Item::Block { .. } => is_for_block(name),
    }
}

// Whether the words behind the name may stand there.
fn is_taken(item: &Item) -> bool
    ensures { result ≡ is_taken item.now }
{
    match item {
        Item::Block { .. } => true,
        Item::Words(_) => match keyword_of(item.name()) {
            None => true,
            Some(keyword) => keyword.takes(item),
        },
    }
}

fn may_repeat(name: &[u8]) -> bool
    ensures { result ≡ may_repeat name.now }
{
    match keyword_of(name) {
        None => true,
        Some(keyword) => keyword.may_repeat(),
    }
}

fn is_repeated(before: &[Directive], item: &Item) -> bool
    ensures { result ≡ is_repeated before.now item.now }
{
    !may_repeat(item.name()) && is_given(before, item.name())
}

// Whether it is a block that nothing ends.
fn is_open(item: &Item) -> bool
    ensures { result ≡ is_open item.now }
{
    match item {
        Item::Words(_) => false,
        Item::Block { bytes, .. } => bytes.is_none(),
    }
}

/// What is wrong with a directive behind others, by itself or beside them. Of several kinds it is
/// the first in the order Unknown, Refused, Arguments, Repeated, Block.
#[tactic(auto, unfolding(crate::specs::Judging::kind_of))]
pub fn kind_of(before: &[Directive], item: &Item) -> Option<ConfigKind>
    ensures { result ≡ kind_of before.now item.now }
{
    let refused = is_refused(item.name());
    if !(is_known(item) || refused) {
        return Some(ConfigKind::Unknown);
    }
    if refused {
        return Some(ConfigKind::Refused);
    }
    if !is_taken(item) {
        return Some(ConfigKind::Arguments);
    }
    if is_repeated(before, item) {
        return Some(ConfigKind::Repeated);
    }
    if is_open(item) {
        return Some(ConfigKind::Block);
    }
    None
}
