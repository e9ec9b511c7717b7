//! What a client's file says.

ghost use Rattle.std.specs.Prelude.{◌≡◌, OnOk, IfErr, Ok, Err};

use crate::directives::Directive;
use std::alloc::Global;
use vpn_base::{Ip4, Or, RouteList, TextList};
use vpn_text::ConfigKind;

/// What the file of a client says.
#[derive(Debug, Drop)]
pub struct Ccd {
    /// The client's fixed address with the length of its mask, if it has one.
    pub address: Option<(Ip4, u8)>,
    /// The networks behind the client.
    pub iroutes: RouteList,
    /// The options that are pushed to the client besides those of all.
    pub pushes: TextList,
    /// Whether the client gets none of the options that all get.
    pub reset: bool,
    /// Whether the client is refused.
    pub disable: bool,
}

impl Ccd {
    ghost use Rattle.ccd_files.specs.ClientFile.{no_ccd, added};
    ghost use Rattle.ccd_files.specs.internal.Refusals.{Refused};

    pub(crate) fn new(alloc: Global) -> Ccd
        ensures { result ≡ no_ccd }
    {
        Ccd {
            address: None,
            iroutes: RouteList::new(alloc),
            pushes: TextList::new(alloc),
            reset: false,
            disable: false,
        }
    }

    // One directive more.
    pub(crate) fn add(&mut self, directive: Directive) -> Result<(), Or<ConfigKind>>
        ensures ok { OnOk result (added self.old directive ≡ Ok self.new) }
        ensures err { IfErr result (λ e. Refused e (added self.old directive)) }
    {
        match directive {
            Directive::Address(a, len) => {
                if self.address.is_some() {
                    return Err(Or::Why(ConfigKind::Repeated));
                }
                self.address = Some((a, len));
                Ok(())
            }
            Directive::Iroute(prefix) => match self.iroutes.add(prefix) {
                Ok(()) => Ok(()),
                Err(_) => Err(Or::Memory),
            },
            Directive::Push(text) => match self.pushes.add(text) {
                Ok(()) => Ok(()),
                Err(_) => Err(Or::Memory),
            },
            Directive::Reset => {
                if self.reset {
                    return Err(Or::Why(ConfigKind::Repeated));
                }
                self.reset = true;
                Ok(())
            }
            Directive::Disable => {
                if self.disable {
                    return Err(Or::Why(ConfigKind::Repeated));
                }
                self.disable = true;
                Ok(())
            }
        }
    }
}
