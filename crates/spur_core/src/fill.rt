//! The swap is filled with the pages that a run begins with.

ghost use Rattle.std.specs.Prelude.{◌≡◌, ◌<◌, ◌≤◌, ◌*◌, Err, OnErr, OnOk, length};
ghost use Rattle.spur_swap.specs.Meaning.{SameButFaults};
ghost use Rattle.spur_core.specs.Filled.{filled_with, is_zero_page, with_slot_page, with_slot_pages};
ghost use Rattle.spur_core.specs.declared.begin.BeginFault.TheVariants as fault_is;

use crate::begin::BeginFault;
use spur_addr::PAGE_WORDS;
use spur_io::Failed;
use spur_swap::Backing;

/// Gives the swap one slot for each page of `swap`, in the place of all that it had, and writes the pages that are not all
/// zeros into their slots, in ascending order. It reads none.
///
/// `Swap` comes only where the count of faults rose in this call, and else `NoMemory` for want of memory. Some of the pages
/// may have been written then.
pub(crate) fn fill_swap<B: Backing>(
    backing: &mut B,
    slots: u32,
    swap: &[u32],
) -> Result<(), BeginFault>
    requires { length swap.now ≡ 1024 * slots }
    ensures filled { OnOk result (SameButFaults (filled_with (B.meaning backing.old) slots swap.now)
        (B.meaning backing.new)) }
    ensures unread { (B.meaning backing.new).reads ≡ (B.meaning backing.old).reads }
    ensures later { (B.meaning backing.old).faults ≤ (B.meaning backing.new).faults }
    ensures cause { result ≡ Err fault_is.Swap → (B.meaning backing.old).faults < (B.meaning backing.new).faults }
{
    backing.prepare(slots)?;
    write_pages(backing, slots, swap)?;
    Ok(())
}

/// Writes the pages that are not all zeros into their slots, in ascending order.
fn write_pages<B: Backing>(backing: &mut B, slots: u32, swap: &[u32]) -> Result<(), Failed>
    requires whole { length swap.now ≡ 1024 * slots }
    requires slots { (B.meaning backing.old).slots ≡ slots }
    ensures written { OnOk result (SameButFaults (with_slot_pages (B.meaning backing.old) swap.now slots)
        (B.meaning backing.new)) }
    ensures unread { (B.meaning backing.new).reads ≡ (B.meaning backing.old).reads }
    ensures later { (B.meaning backing.old).faults ≤ (B.meaning backing.new).faults }
    ensures cause { OnErr result ((B.meaning backing.old).faults < (B.meaning backing.new).faults) }
{
    for slot in 0..slots {
        let place = slot as usize * PAGE_WORDS;
        write_page(backing, slot, &swap[place..place + PAGE_WORDS])?;
    }
    Ok(())
}

/// Writes a page into a slot, unless all of its words are zero.
fn write_page<B: Backing>(backing: &mut B, slot: u32, page: &[u32]) -> Result<(), Failed>
    requires slot { slot < (B.meaning backing.old).slots }
    requires page { length page.now ≡ 1024 }
    ensures written { OnOk result (SameButFaults (with_slot_page (B.meaning backing.old) slot page.now)
        (B.meaning backing.new)) }
    ensures unread { (B.meaning backing.new).reads ≡ (B.meaning backing.old).reads }
    ensures later { (B.meaning backing.old).faults ≤ (B.meaning backing.new).faults }
    ensures cause { OnErr result ((B.meaning backing.old).faults < (B.meaning backing.new).faults) }
{
    if is_zero(page) {
        return Ok(());
    }
    let mut words = [0; PAGE_WORDS];
    words.copy_from_slice(page);
    backing.write_page(slot, &words)
}

/// Whether all words of a page are zero.
fn is_zero(page: &[u32]) -> bool
    ensures { result ≡ is_zero_page page.now }
{
    page.iter().all(|word| *word == 0)
}
