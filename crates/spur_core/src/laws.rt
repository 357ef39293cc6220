//! Laws of the world and of its steps, each shown by a function that does nothing.

ghost use Rattle.spur_core.specs.Parts.{GoodHasItsParts};
ghost use Rattle.spur_core.specs.Step.{LocalStepsLeaveTheHistory};

use spur_cpu::Cpu;
use spur_swap::Backing;

/// A good world has its ten parts: the whole history is right, its tags are the caches', words and owners agree, lines
/// are of present pages, the frame table is the page table's, clean pages match their slots, logs are local, boards
/// follow their programs, nothing is open, and swap faults are counted.
pub fn good_has_its_parts<C: Cpu, B: Backing>()
    ensures { GoodHasItsParts C.meaning C.state C.room B.meaning }
{}

/// The step of a local instruction has no entry: no page is moved and no block is fetched in it.
pub fn local_steps_leave_the_history<C: Cpu>()
    ensures { LocalStepsLeaveTheHistory C.meaning C.state }
{}
