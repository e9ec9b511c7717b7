//! What holds of the settings of every file.

ghost use Rattle.std.specs.Prelude.{◌≡◌, ℕ, List, Ok, take};
ghost use Rattle.config_directives.specs.declared.item.Directive.{Directive};
ghost use Rattle.config_directives.specs.Items.{items_of};
ghost use Rattle.ovpn_config.specs.declared.settings.Settings.{Settings};
ghost use Rattle.ovpn_config.specs.Bounds.{IsBounded};
ghost use Rattle.ovpn_config.specs.Canonical.{KeepsLimits, canonical};
ghost use Rattle.ovpn_config.specs.Numbers.{SetsNumbers};
ghost use Rattle.ovpn_config.specs.Reading.{directives_in, settings};
ghost use Rattle.ovpn_config.specs.internal.Laws.{Laws};

use vpn_base::{reads_decimal_again, reads_ip4_again};
use vpn_text::{reads_mask_again, reads_no_control, reads_words_again};

// What is written of numbers, addresses, masks and words is read again.
fn texts_are_read_again()
    ensures { Laws }
{
    reads_decimal_again();
    reads_ip4_again();
    reads_mask_again();
    reads_words_again();
    reads_no_control();
}

/// The canonical text of the settings of a file, where it keeps the limits of a line and of the
/// file, is read as these settings.
pub fn reads_config_again()
    ensures { (text : List ℕ) → (s : Settings) → settings text ≡ Ok s → KeepsLimits (canonical s)
        → settings (canonical s) ≡ Ok s }
{
    texts_are_read_again();
}

/// The settings of a file are within the bounds of their directives.
pub fn settings_are_bounded()
    ensures { (text : List ℕ) → (s : Settings) → settings text ≡ Ok s → IsBounded s }
{
    texts_are_read_again();
}

/// Where a file is accepted, each of its directives of one number sets the number that its word
/// spells.
pub fn settings_have_given_numbers()
    ensures { (text : List ℕ) → (s : Settings) → (directives : List Directive) → settings text ≡ Ok s
        → directives_in text ≡ Ok directives → SetsNumbers (items_of directives) s }
{
    texts_are_read_again();
}

/// The first 65,537 bytes of a file decide its settings, or its fault: a longer file is too long.
pub fn settings_are_of_the_front()
    ensures { (text : List ℕ) → settings (take 65537 text) ≡ settings text }
{}
