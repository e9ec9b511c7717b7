//! How often addresses were taken.

ghost use Rattle.std.specs.Prelude.{◌≡◌, ℕ, ◌==◌, ◌+◌, ◌-◌, OnOk, OnErr, find, if◌then◌else◌};
ghost use Rattle.std.specs.List.{range_with_len};
ghost use Rattle.address_pool.specs.Counts.{count_of};
ghost use Rattle.address_pool.specs.internal.Beside.{count_beside};

use std::collections::BTreeMap;
use vpn_base::NoMemory;

fn count_of(counts: &BTreeMap<u32, u64>, a: u32) -> u64
    ensures { result ≡ count_of counts.now a }
{
    counts.get(&a).copied().unwrap_or(0)
}

// One taking more. A count that can't rise any more is want of memory.
pub(crate) fn count_up(counts: &mut BTreeMap<u32, u64>, a: u32) -> Result<(), NoMemory>
    ensures ok { OnOk result ((n : ℕ) → count_of counts.new n ≡ count_of counts.old n + (if n == a then 1 else 0)) }
    ensures err { OnErr result ((n : ℕ) → count_of counts.new n ≡ count_of counts.old n) }
{
    match count_of(counts, a).checked_add(1) {
        Some(count) => {
            counts.insert(a, count)?;
            Ok(())
        }
        None => Err(NoMemory),
    }
}

// One taking less, if there is one.
pub(crate) fn count_down(counts: &mut BTreeMap<u32, u64>, a: u32)
    ensures { (n : ℕ) → count_of counts.new n ≡ count_of counts.old n - (if n == a then 1 else 0) }
{
    let count = count_of(counts, a);
    if count > 1 {
        if let Some(kept) = counts.get_mut(&a) {
            *kept = count - 1;
        }
    } else {
        let _ = counts.remove(&a);
    }
}

// Whether an address has no taking, or no other than one that is given up.
fn is_uncounted(counts: &BTreeMap<u32, u64>, given_up: Option<u32>, a: u32) -> bool
    ensures { result ≡ (count_beside counts.now given_up a == 0) }
{
    let count = count_of(counts, a);
    match given_up {
        None => count == 0,
        Some(given) => { if given == a { count <= 1 } else { count == 0 } }
    }
}

// The least address from the first to the last that was not taken, or not but once where that is given up.
pub(crate) fn least_uncounted(
    counts: &BTreeMap<u32, u64>,
    given_up: Option<u32>,
    first: u32,
    last: u32,
) -> Option<u32>
    ensures { result ≡ find (λ n. count_beside counts.now given_up n == 0) (range_with_len first (last + 1 - first)) }
{
    let mut a = u64::from(first);
    'addresses: while a <= u64::from(last) {
        if is_uncounted(counts, given_up, a as u32) {
            return Some(a as u32);
        }
        a += 1;
    }
    None
}
