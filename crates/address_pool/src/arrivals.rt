//! Clients that come one after another and stay.

ghost use Rattle.vpn_base.specs.Answers.{Answers};
ghost use Rattle.std.specs.Prelude.{◌≡◌, List, [], ◌∷◌, ◌++◌, IfOk, IfErr, Ok, Err};
ghost use Rattle.vpn_base.specs.declared.address.Ip4.{Ip4};
ghost use Rattle.address_pool.specs.LeastFree.{Takings, with_taking};
ghost use Rattle.address_pool.specs.Holds.{Holds};
ghost use Rattle.address_pool.specs.Arrivals.{next_address, addresses_from};

use crate::{Pool, PoolEmpty};
use std::alloc::Global;
use vpn_base::{Ip4, Or};

fn give_address(pool: &mut Pool, own: Option<Ip4>) -> Result<Ip4, Or<PoolEmpty>>
    ensures next { (t : Takings) → Holds pool.old t → Answers result (next_address t.first t.last t.taken own) }
    ensures taken { IfOk result (λ a. (t : Takings) (before after : List Ip4) → Holds pool.old t → t.taken ≡ before ++ after
        → Holds pool.new (with_taking t before a after)) }
{
    match own {
        Some(a) => match pool.take_exact(a) {
            Ok(()) => Ok(a),
            Err(_) => Err(Or::Memory),
        },
        None => pool.take(),
    }
}

/// The addresses of clients that come one after another and stay: each has its own address, if it
/// has one, and else the least address of the range that none of those before it has. `PoolEmpty`
/// comes exactly where one of them finds none.
pub fn give_addresses(
    alloc: Global,
    first: Ip4,
    last: Ip4,
    wanted: &[Option<Ip4>],
) -> Result<Vec<Ip4>, Or<PoolEmpty>>
    ensures given { IfOk result (λ v. addresses_from first last [] wanted.now ≡ Ok v.items) }
    ensures empty { IfErr result (λ e. e ≡ Or.Why (record {}) → addresses_from first last [] wanted.now ≡ Err (record {})) }
{
    let mut pool = Pool::new(alloc, first, last);
    let mut addresses = Vec::new(alloc);
    for own in wanted {
        match give_address(&mut pool, *own) {
            Ok(a) => {
                match addresses.push(a) {
                    Ok(()) => {}
                    Err(_) => return Err(Or::Memory),
                }
            }
            Err(e) => return Err(e),
        }
    }
    Ok(addresses)
}
