//! Pages that are written and read, and calls that fail, on each kind of swap object.
ghost use Rattle.std.specs.Prelude.{◌≡◌, ◌<◌, ◌≤◌, None, true};
ghost use Rattle.spur_swap.specs.Told.{one_call_more};

use super::*;
use spur_io::Failed;
use std::test::Fail;

/// The slots that are prepared.
const SLOTS: u32 = 3;

/// A page that is told from that of any other word: the one of 0 is a page of zeros.
fn page(word: u32) -> [u32; 1024] {
    let mut words = [word; 1024];
    words[0] = word.wrapping_mul(2);
    words[1023] = word.wrapping_mul(3);
    words
}

/// A write of the page of a word, or a read that is to find it, and whether the call passes.
#[derive(Clone, Copy)]
struct Call {
    write: bool,
    slot: u32,
    word: u32,
    passes: bool,
}

fn write(slot: u32, word: u32, passes: bool) -> Call {
    Call {
        write: true,
        slot,
        word,
        passes,
    }
}

fn read(slot: u32, word: u32, passes: bool) -> Call {
    Call {
        write: false,
        slot,
        word,
        passes,
    }
}

/// Makes a call, and answers whether it passes or fails as it is to, and a read finds its page.
fn is_as_told<B: Backing>(swap: &mut B, call: Call) -> bool
    requires { (B.meaning swap.old).slots ≡ 3 }
    ensures { (B.meaning swap.new).slots ≡ 3 }
{
    if call.slot >= SLOTS {
        return false;
    }
    if call.write {
        return swap.write_page(call.slot, &page(call.word)).is_ok() == call.passes;
    }
    let mut held = [u32::MAX; 1024];
    match swap.read_page(call.slot, &mut held) {
        Ok(()) => call.passes && held == page(call.word),
        Err(Failed) => !call.passes,
    }
}

/// The place of the first call that is not as it is to be.
fn first_wrong<B: Backing>(swap: &mut B, calls: &[Call]) -> Option<usize>
    requires { (B.meaning swap.old).slots ≡ 3 }
    ensures { (B.meaning swap.new).slots ≡ 3 }
{
    for (i, call) in calls.iter().enumerate() {
        if !is_as_told(swap, *call) {
            return Some(i);
        }
    }
    None
}

#[test]
fn prepared_pages_are_zeros(rt: HostRuntime) -> Result<(), Fail> {
    let zeros = [
        read(0, 0, true),
        read(1, 0, true),
        read(2, 0, true),
        write(1, 7, true),
        read(1, 7, true),
    ];
    let mut swap = SwapMemory::new(rt.alloc());
    let mut tested = SwapTest::new(rt.alloc(), Vec::new(rt.alloc()), Vec::new(rt.alloc()));
    for _ in 0..2 {
        swap.prepare(SLOTS)?;
        assert_eq!(rt; first_wrong(&mut swap, &zeros), None);
        tested.prepare(SLOTS)?;
        assert_eq!(rt; first_wrong(&mut tested, &zeros), None);
    }
    Ok(())
}

#[test]
fn each_slot_keeps_its_page(rt: HostRuntime) -> Result<(), Fail> {
    let calls = [
        write(2, 5, true),
        write(0, 3, true),
        read(0, 3, true),
        read(1, 0, true),
        read(2, 5, true),
        write(0, 4, true),
        read(2, 5, true),
        read(0, 4, true),
        read(0, 4, true),
    ];
    let mut swap = SwapMemory::new(rt.alloc());
    swap.prepare(SLOTS)?;
    assert_eq!(rt; first_wrong(&mut swap, &calls), None);
    let mut tested = SwapTest::new(rt.alloc(), Vec::new(rt.alloc()), Vec::new(rt.alloc()));
    tested.prepare(SLOTS)?;
    assert_eq!(rt; first_wrong(&mut tested, &calls), None);
    assert_eq!(rt; tested.reads(), 6);
    assert_eq!(rt; tested.writes(), 3);
    Ok(())
}

#[test]
fn a_call_that_fails_leaves_the_pages(rt: HostRuntime) -> Result<(), Fail> {
    let calls = [
        write(0, 3, false),
        read(0, 0, true),
        write(0, 3, true),
        read(0, 3, false),
        read(0, 3, true),
        write(2, 5, true),
        read(2, 5, true),
        read(1, 0, true),
        read(0, 3, true),
    ];
    let fail_reads = vec![in rt.alloc(); 9, 2, 0]?;
    let fail_writes = vec![in rt.alloc(); 1]?;
    let mut tested = SwapTest::new(rt.alloc(), fail_reads, fail_writes);
    tested.prepare(SLOTS)?;
    assert_eq!(rt; first_wrong(&mut tested, &calls), None);
    assert_eq!(rt; tested.reads(), 6);
    assert_eq!(rt; tested.writes(), 3);
    Ok(())
}

/// Writes a page twice. Both writes are counted, on each kind of object, whether they fail or not.
fn write_twice<B: Backing>(swap: &mut B, slot: u32) -> (bool, bool)
    requires { slot < (B.meaning swap.old).slots }
    ensures writes { (B.meaning swap.new).writes ≡ one_call_more (one_call_more (B.meaning swap.old).writes) }
    ensures reads { (B.meaning swap.new).reads ≡ (B.meaning swap.old).reads }
    ensures slots { (B.meaning swap.new).slots ≡ (B.meaning swap.old).slots }
{
    let first = swap.write_page(slot, &page(7)).is_ok();
    let then = swap.write_page(slot, &page(8)).is_ok();
    (first, then)
}

#[test]
fn a_write_that_fails_is_counted_too(rt: HostRuntime) -> Result<(), Fail> {
    let fail_writes = vec![in rt.alloc(); 2, 3]?;
    let mut tested = SwapTest::new(rt.alloc(), Vec::new(rt.alloc()), fail_writes);
    tested.prepare(SLOTS)?;
    assert_eq!(rt; write_twice(&mut tested, 1), (true, false));
    assert_eq!(rt; tested.writes(), 2);
    assert_eq!(rt; write_twice(&mut tested, 0), (false, true));
    assert_eq!(rt; tested.writes(), 4);
    assert_eq!(rt; tested.reads(), 0);
    assert_eq!(rt;
        first_wrong(&mut tested, &[read(0, 8, true), read(1, 7, true)]),
        None
    );
    assert_eq!(rt; tested.writes(), 4);
    Ok(())
}

/// Slots of which only the number is kept: a write is forgotten, each page is read as that of 9, and
/// every second call fails, `prepare` too.
#[derive(Drop)]
struct Forgetful {
    slots: u32,
    reads: u32,
    writes: u32,
    calls: u32,
    faults: u32,
}

impl Forgetful {
    /// Whether this call fails. It raises the count of faults then, and else leaves it.
    fn fails(&mut self) -> bool
        ensures slots { self.new.slots ≡ self.old.slots }
        ensures reads { self.new.reads ≡ self.old.reads }
        ensures writes { self.new.writes ≡ self.old.writes }
        ensures later { self.old.faults ≤ self.new.faults }
        ensures cause { result ≡ true → self.old.faults < self.new.faults }
    {
        self.calls = self.calls.wrapping_add(1);
        if self.calls % 2 == 1 || self.faults == u32::MAX {
            return false;
        }
        self.faults += 1;
        true
    }
}

impl Backing for Forgetful {
    ghost meaning = { λ s. record {
      pages = None;
      slots = s.slots;
      faults = s.faults;
      reads = s.reads;
      writes = s.writes;
    } };

    fn prepare(&mut self, slots: u32) -> Result<(), PrepareFault> {
        if self.fails() {
            return Err(PrepareFault::Failed);
        }
        self.slots = slots;
        Ok(())
    }

    fn read_page(&mut self, _slot: u32, into: &mut [u32; 1024]) -> Result<(), Failed> {
        self.reads = self.reads.saturating_add(1);
        if self.fails() {
            return Err(Failed);
        }
        *into = page(9);
        Ok(())
    }

    fn write_page(&mut self, _slot: u32, _from: &[u32; 1024]) -> Result<(), Failed> {
        self.writes = self.writes.saturating_add(1);
        if self.fails() {
            return Err(Failed);
        }
        Ok(())
    }
}

#[test]
fn an_object_need_not_tell_its_pages(rt: HostRuntime) -> Result<(), Fail> {
    let mut swap = Forgetful {
        slots: 0,
        reads: 0,
        writes: 0,
        calls: 0,
        faults: 0,
    };
    swap.prepare(SLOTS)?;
    let calls = [
        write(0, 3, false),
        read(0, 9, true),
        read(0, 9, false),
        write(2, 5, true),
    ];
    assert_eq!(rt; first_wrong(&mut swap, &calls), None);
    assert_eq!(rt; swap.prepare(SLOTS), Err(PrepareFault::Failed));
    assert_eq!(rt; first_wrong(&mut swap, &[read(2, 9, true)]), None);
    assert_eq!(rt; swap.reads, 3);
    assert_eq!(rt; swap.writes, 2);
    assert_eq!(rt; swap.faults, 3);
    Ok(())
}

/// Takes a value that may go to another thread.
fn take_sendable<T: Send + Drop>(_value: T) {}

#[test]
fn both_may_go_to_another_thread(rt: HostRuntime) {
    take_sendable(SwapMemory::new(rt.alloc()));
    take_sendable(SwapTest::new(rt.alloc(), Vec::new(rt.alloc()), Vec::new(rt.alloc())));
}
