//! The directives of one number.

ghost use Rattle.std.specs.Prelude.{◌≡◌, ◌≤◌, IfSome};
ghost use Rattle.config_directives.specs.Items.{arguments_of};
ghost use Rattle.config_directives.specs.Numbers.{range_of};
ghost use Rattle.config_directives.specs.Arguments.{number_behind};
ghost use Rattle.config_directives.specs.Table.{number_row};

use crate::arguments::one_number;
use crate::item::Item;

/// The numbers that a directive takes, and the one that counts where it is not given.
#[derive(Clone, Copy, Debug, PartialEq, Eq)]
pub struct NumberRange {
    /// The least number.
    pub low: u32,
    /// The greatest number.
    pub high: u32,
    /// The number where the directive is not given.
    pub otherwise: u32,
}

/// A directive of one number.
#[derive(Clone, Copy, Debug, PartialEq, Eq)]
pub enum NumberDirective {
    /// `port`, a UDP port.
    Port,
    /// `max-clients`, clients at a time.
    MaxClients,
    /// `reneg-sec`, in seconds; 0 is never.
    RenegSec,
    /// `tran-window`, in seconds.
    TranWindow,
    /// `hand-window`, in seconds.
    HandWindow,
    /// `tls-timeout`, in seconds.
    TlsTimeout,
}

fn range(low: u32, high: u32, otherwise: u32) -> NumberRange
    ensures { result ≡ record { low = low; high = high; otherwise = otherwise } }
{
    NumberRange {
        low,
        high,
        otherwise,
    }
}

impl NumberDirective {
    /// The first word of its line.
    pub fn name(self) -> &'static [u8]
        ensures { result.now ≡ (number_row self).name }
    {
        match self {
            NumberDirective::Port => b"port",
            NumberDirective::MaxClients => b"max-clients",
            NumberDirective::RenegSec => b"reneg-sec",
            NumberDirective::TranWindow => b"tran-window",
            NumberDirective::HandWindow => b"hand-window",
            NumberDirective::TlsTimeout => b"tls-timeout",
        }
    }

    /// The numbers that it takes, and the one that counts where it is not given.
    pub fn range(self) -> NumberRange
        ensures { result ≡ range_of self }
    {
        match self {
            NumberDirective::Port => range(1, 65_535, 1_194),
            NumberDirective::MaxClients => range(1, 4_096, 1_024),
            NumberDirective::RenegSec => range(0, 1_000_000, 3_600),
            NumberDirective::TranWindow => range(1, 1_000_000, 3_600),
            NumberDirective::HandWindow => range(1, 1_000_000, 60),
            NumberDirective::TlsTimeout => range(1, 60, 2),
        }
    }

    /// The number behind the name. It is None exactly where not one word stands there, or where
    /// that is no number in the range.
    pub fn read(self, item: &Item) -> Option<u32>
        ensures same { result ≡ number_behind self (arguments_of item.now) }
        ensures within { IfSome result (λ n. n ≤ (range_of self).high) }
    {
        let NumberRange { low, high, .. } = self.range();
        match one_number(item, u64::from(low), u64::from(high)) {
            None => None,
            Some(n) => Some(n as u32),
        }
    }
}
