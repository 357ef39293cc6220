//! A history by hand, shown to boxed probes.

use crate::{CountProbe, LastProbe, Probe, StopAt, WatchProbe, lines_of, show_all, show_entries};
use spur_addr::GlobalAddr;
use spur_flat::Entry;
use std::alloc::{AllocError, Global};
use std::test::Fail;

/// A global address of these histories.
fn at(number: u64) -> Result<GlobalAddr, Fail> {
    Ok(GlobalAddr::of(number).ok_or("an address")?)
}

/// The numbers that probes tell.
fn numbers(alloc: Global, probes: &[Box<dyn Probe>]) -> Result<Vec<u64>, AllocError> {
    let mut numbers = Vec::new(alloc);
    for line in lines_of(alloc, probes)? {
        numbers.push(line.number)?;
    }
    Ok(numbers)
}

#[test]
fn entries_are_shown_up_to_the_first_wish(rt: HostRuntime) -> Result<(), Fail> {
    let alloc = rt.alloc();
    let word = at(0x44)?;
    let entries = [
        Entry::Store {
            board: 0,
            at: word,
            value: 7,
        },
        // another word of the block, and a test-and-set: neither is followed
        Entry::Store {
            board: 1,
            at: at(0x48)?,
            value: 8,
        },
        Entry::Tas {
            board: 0,
            at: word,
            old: 7,
        },
        // the block before and the block of the word
        Entry::Claim {
            board: 1,
            at: at(0x20)?,
        },
        Entry::Claim {
            board: 1,
            at: at(0x40)?,
        },
        Entry::Store {
            board: 1,
            at: word,
            value: 9,
        },
    ];
    let history = entries.as_slice();
    let mut probes: Vec<Box<dyn Probe>> = Vec::new(alloc);
    probes.push(Box::new(alloc, CountProbe::new())?)?;
    probes.push(Box::new(alloc, LastProbe::new(word))?)?;
    probes.push(Box::new(alloc, WatchProbe::new(word))?)?;
    probes.push(Box::new(alloc, CountProbe::new())?)?;

    let stop = show_entries(&mut probes, &history[..4]);
    assert_eq!(rt; stop, None);
    assert_eq!(rt;
        numbers(alloc, probes.as_slice())?.as_slice(),
        [4, 7, 0, 4].as_slice()
    );

    // the probe behind the one that wishes the stop is not shown the entry, and none is shown the next
    let stop = show_entries(&mut probes, &history[4..]);
    assert_eq!(rt; stop, Some(StopAt { entry: 0, probe: 2 }));
    assert_eq!(rt;
        numbers(alloc, probes.as_slice())?.as_slice(),
        [5, 7, 1, 4].as_slice()
    );

    let stop = show_entries(&mut probes, &history[5..]);
    assert_eq!(rt; stop, None);
    assert_eq!(rt;
        numbers(alloc, probes.as_slice())?.as_slice(),
        [6, 9, 1, 5].as_slice()
    );

    // where no wish is heeded, all are shown all
    show_all(&mut probes, history);
    assert_eq!(rt;
        numbers(alloc, probes.as_slice())?.as_slice(),
        [12, 9, 2, 11].as_slice()
    );
    Ok(())
}
