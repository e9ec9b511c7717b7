//! Reading a configuration file.

ghost use Rattle.std.specs.Prelude.{◌≡◌, List, Ok, IfOk, find, option_map};
ghost use Rattle.std.specs.Option.{option_copied};
ghost use Rattle.vpn_base.specs.Answers.{Answers, IfWhy};
ghost use Rattle.config_directives.specs.declared.item.Directive.{Directive};
ghost use Rattle.config_directives.specs.Items.{items_of};
ghost use Rattle.config_directives.specs.Table.{row_at};
ghost use Rattle.ovpn_config.specs.Bounds.{IsBounded};
ghost use Rattle.ovpn_config.specs.Numbers.{SetsNumbers};
ghost use Rattle.ovpn_config.specs.Reading.{are_two, directives_in, is_astray, is_for_other, missing, settings, settings_on, side_of_file};

use crate::laws::{settings_are_bounded, settings_have_given_numbers};
use crate::settings::Settings;
use crate::values::settings_of;
use config_directives::{Directive, Keyword, is_given, keyword_of, read_directives};
use std::alloc::Global;
use vpn_base::{NoMemory, Or, Role, Text};
use vpn_text::{ConfigFault, ConfigKind};

// The side of a file: that of the first `server` or `client`.
fn side_of_file(directives: &[Directive]) -> Option<Role>
    ensures { result ≡ side_of_file (items_of directives.now) }
{
    'directives: for directive in directives {
        if directive.item.name() == b"server".as_slice() {
            return Some(Role::Server);
        }
        if directive.item.name() == b"client".as_slice() {
            return Some(Role::Client);
        }
    }
    None
}

fn are_two(one: Role, two: Role) -> bool
    ensures { result ≡ are_two one two }
{
    match (one, two) {
        (Role::Server, Role::Server) => false,
        (Role::Server, Role::Client) => true,
        (Role::Client, Role::Server) => true,
        (Role::Client, Role::Client) => false,
    }
}

/// Whether a directive of the table is for the other side.
pub fn is_for_other(role: Role, keyword: Keyword) -> bool
    ensures { result ≡ is_for_other role keyword }
{
    match keyword.side() {
        None => false,
        Some(side) => are_two(role, side),
    }
}

// Whether a directive is on the wrong side.
fn is_astray(role: Role, directive: &Directive) -> bool
    ensures { result ≡ is_astray role directive.now }
{
    match keyword_of(directive.item.name()) {
        None => false,
        Some(keyword) => is_for_other(role, keyword),
    }
}

// The first directive on the wrong side.
fn first_astray(role: Role, directives: &[Directive]) -> Option<&Directive>
    ensures { option_copied result ≡ find (is_astray role) directives.now }
{
    'directives: for directive in directives {
        if is_astray(role, directive) {
            return Some(directive);
        }
    }
    None
}

#[tactic(auto, unfolding(crate::specs::Reading::missing, config_directives::specs::Table::table, config_directives::specs::Table::link_keywords, config_directives::specs::Table::client_keywords, config_directives::specs::Table::session_keywords))]
// The name of the first directive that a file of this side needs and lacks.
fn missing(role: Role, directives: &[Directive]) -> Option<&'static [u8]>
    ensures { option_copied result ≡ option_map (λ keyword. (row_at keyword).name) (missing role (items_of directives.now)) }
{
    if !is_given(directives, b"dev") {
        return Some(b"dev");
    }
    match role {
        Role::Server => {
            if !is_given(directives, b"topology") {
                return Some(b"topology");
            }
        }
        Role::Client => {
            if !is_given(directives, b"remote") {
                return Some(b"remote");
            }
        }
    }
    if !is_given(directives, b"tls-crypt") {
        return Some(b"tls-crypt");
    }
    None
}

fn fault(alloc: Global, line: u32, kind: ConfigKind, word: &[u8]) -> Or<ConfigFault>
    ensures { IfWhy result (λ why. why ≡ record { line = line; kind = kind; word = word.now }) }
{
    match Text::copy(alloc, word) {
        Err(NoMemory) => Or::Memory,
        Ok(word) => Or::Why(ConfigFault { line, kind, word }),
    }
}

// The settings of directives of this side, in a file whose last line has this number.
#[tactic(auto, unfolding(crate::specs::Reading::settings_on))]
fn settings_on(
    alloc: Global,
    last: u32,
    side: Option<Role>,
    directives: &[Directive],
) -> Result<Settings, Or<ConfigFault>>
    ensures { Answers result (settings_on last side directives.now) }
{
    let Some(role) = side else {
        return Err(fault(alloc, last, ConfigKind::Missing, b"server"));
    };
    if let Some(directive) = first_astray(role, directives) {
        let name = directive.item.name();
        return Err(fault(alloc, directive.line, ConfigKind::Side, name));
    }
    if let Some(name) = missing(role, directives) {
        return Err(fault(alloc, last, ConfigKind::Missing, name));
    }
    match settings_of(alloc, role, directives) {
        Ok(settings) => Ok(settings),
        Err(NoMemory) => Err(Or::Memory),
    }
}

// The settings of a file, or its fault.
#[tactic(auto, unfolding(crate::specs::Reading::settings))]
fn read_settings(alloc: Global, text: &[u8]) -> Result<Settings, Or<ConfigFault>>
    ensures { Answers result (settings text.now) }
{
    match read_directives(alloc, text) {
        Err(e) => Err(e),
        Ok(file) => {
            let side = side_of_file(&file.directives);
            settings_on(alloc, file.last, side, &file.directives)
        }
    }
}

/// The settings of a configuration file of OpenVPN 2.6, in this program's profile.
///
/// Lines end by LF or CR LF, and the last needs no end. The fault is the first line with one of
/// the kinds `Long` (over 1,024 bytes without its end, or the file passes 65,536 bytes in it),
/// `Control`, `Quote`, `Escape`, `Unknown`, `Refused`, `Arguments`, `Repeated` and `Block`, which
/// are judged in this order within a line; in a block only the first two are, and a block that is
/// open where the file passes 65,536 bytes is no `Block`. Where there is none it is the first line
/// on the wrong side (`Side`; the first `server` or `client` decides it), and else the first
/// directive that is missing (`Missing`, with the number of the last line).
pub fn read_config(alloc: Global, text: &[u8]) -> Result<Settings, Or<ConfigFault>>
    ensures exact { Answers result (settings text.now) }

    // Numbers are in the ranges of their directives, pushed texts may be pushed, and there are
    // ciphers to choose from.
    ensures bounded { IfOk result IsBounded }

    // A number that is given is the one that is set.
    ensures numbers { IfOk result (λ s. (directives : List Directive) → directives_in text.now ≡ Ok directives
        → SetsNumbers (items_of directives) s) }
{
    settings_are_bounded();
    settings_have_given_numbers();
    read_settings(alloc, text)
}
