//! Programs that several tests run, and objects of programs.

/// Loads 41, adds 1, stores the sum, and halts.
pub(crate) const SUM: &[u8] =
    b".page 0 0 rw\n.word 0 64 41\n.board\nld r1, 64(r0)\naddi r1, r1, 1\nst r1, 64(r0)\nhalt\n";

/// The same at the first byte of the page: with 16 lines, its block, that of its entry and that of the root entry share line 0.
pub(crate) const SUM_AT_ZERO: &[u8] =
    b".page 0 0 rw\n.word 0 0 41\n.board\nld r1, 0(r0)\naddi r1, r1, 1\nst r1, 0(r0)\nhalt\n";

/// Two loads from a page, and two stores to the same blocks: the second store has no fault.
pub(crate) const TWO_BLOCKS: &[u8] =
    b".page 0 0 rw\n.board\nld r1, 64(r0)\nld r2, 96(r0)\nst r1, 96(r0)\nst r1, 64(r0)\nhalt\n";

/// Three pages that are read under two frames.
pub(crate) const THREE_PAGES: &[u8] =
    b".page 0 0 ro\n.page 0 1 ro\n.page 0 2 ro\n.board\nli r1, 4096\nli r2, 8192\nld r3, 64(r0)\nld r3, 64(r1)\nld r3, 64(r2)\nld r3, 64(r1)\nld r3, 96(r1)\nhalt\n";

/// Two pages that are written under one frame, and one of them read again.
pub(crate) const ONE_FRAME: &[u8] =
    b".page 0 0 rw\n.page 0 1 rw\n.board\nli r2, 4096\nli r1, 5\nst r1, 64(r0)\nst r1, 64(r2)\nld r3, 64(r0)\nhalt\n";

/// The same two pages, read alone.
pub(crate) const ONE_FRAME_READ: &[u8] =
    b".page 0 0 rw\n.page 0 1 rw\n.board\nli r2, 4096\nli r1, 5\nld r1, 64(r0)\nld r1, 64(r2)\nld r3, 64(r0)\nhalt\n";

/// The two pages that are written under one frame, beside a board that halts.
pub(crate) const ONE_FRAME_BESIDE: &[u8] =
    b".page 0 0 rw\n.page 0 1 rw\n.board\nli r2, 4096\nli r1, 5\nst r1, 64(r0)\nst r1, 64(r2)\nld r3, 64(r0)\nhalt\n.board\nhalt\n";

/// A board that halts at once.
pub(crate) const HALT: &[u8] = b".board\n\
    halt\n";

/// A producer and a consumer: the lock stands at 0, whether an item is there at 64, and the item at 96. The first board
/// takes three items from its second page; the second adds them up, and shows the sum.
pub(crate) const MAILBOX: &[u8] = b".page 0 0 rw\n\
    .page 0 1 ro\n\
    .page 1 0 rw\n\
    .word 0 4096 3\n\
    .word 0 4100 5\n\
    .word 0 4104 7\n\
    .board\n\
    li r1, 4096\n\
    li r2, 3\n\
    next: ld r3, 0(r1)\n\
    wait: tas r4, 0(r0)\n\
    bne r4, r0, wait\n\
    ld r5, 64(r0)\n\
    beq r5, r0, put\n\
    st r0, 0(r0)\n\
    jmp wait\n\
    put: st r3, 96(r0)\n\
    li r5, 1\n\
    st r5, 64(r0)\n\
    st r0, 0(r0)\n\
    addi r1, r1, 4\n\
    addi r2, r2, -1\n\
    bne r2, r0, next\n\
    halt\n\
    .board\n\
    .seg 0 1 2 3\n\
    lih r6, 16384\n\
    li r2, 3\n\
    li r7, 0\n\
    more: tas r4, 0(r0)\n\
    bne r4, r0, more\n\
    ld r5, 64(r0)\n\
    bne r5, r0, got\n\
    st r0, 0(r0)\n\
    jmp more\n\
    got: ld r3, 96(r0)\n\
    st r0, 64(r0)\n\
    st r0, 0(r0)\n\
    add r7, r7, r3\n\
    st r7, 0(r6)\n\
    addi r6, r6, 4\n\
    addi r2, r2, -1\n\
    bne r2, r0, more\n\
    show r7\n\
    halt\n";

/// Two boards that load the same word of a page that may be read and written.
pub(crate) const TWO_LOADS: &[u8] = b".page 0 0 rw\n\
    .board\n\
    ld r1, 64(r0)\n\
    .board\n\
    ld r1, 64(r0)\n";

/// A page that is declared twice.
pub(crate) const PAGE_TWICE: &[u8] = b".page 0 0 rw\n\
    .page 0 0 rw\n\
    .board\n\
    halt\n";

/// A board that names segment 255.
pub(crate) const SEGMENT_255: &[u8] = b".board\n\
    .seg 255 0 0 0\n\
    halt\n";

/// The least generated text. It has 255 bytes.
pub(crate) const LEAST: &[u8] = b"; gen 0 1 1\n\
    .page 0 0 rw\n\
    .board\n\
    li r2, 1\n\
    li r4, 0\n\
    li r7, 4096\n\
    li r8, 2\n\
    again:\n\
    li r1, 0\n\
    li r3, 1\n\
    first:\n\
    ld r5, 0(r1)\n\
    add r5, r5, r2\n\
    st r5, 0(r1)\n\
    add r4, r4, r5\n\
    add r1, r1, r7\n\
    addi r3, r3, -1\n\
    bne r3, r0, first\n\
    addi r8, r8, -1\n\
    bne r8, r0, again\n\
    show r4\n\
    halt\n";

/// The text of a generated board up to its step, from there to its word, and from there to its end, where there is one
/// page.
pub(crate) const TO_STEP: &[u8] = b".board\nli r2, ";

pub(crate) const TO_WORD: &[u8] = b"\n\
    li r4, 0\n\
    li r7, 4096\n\
    li r8, 2\n\
    again:\n\
    li r1, ";

pub(crate) const TO_END: &[u8] = b"\n\
    li r3, 1\n\
    first:\n\
    ld r5, 0(r1)\n\
    add r5, r5, r2\n\
    st r5, 0(r1)\n\
    add r4, r4, r5\n\
    add r1, r1, r7\n\
    addi r3, r3, -1\n\
    bne r3, r0, first\n\
    addi r8, r8, -1\n\
    bne r8, r0, again\n\
    show r4\n\
    halt\n";

/// The object of the program that loads 41: one board, one page, one word.
pub(crate) const SUM_OBJECT: &[u8] =
    b"\x93\x53\x50\x52\x00\x00\x00\x01\x00\x00\x00\x01\x00\x00\x00\x01\x00\x00\x00\x01\
    \x00\x01\x02\x03\x00\x00\x00\x04\x3c\x40\x00\x40\x14\x44\x00\x01\
    \x40\x40\x00\x40\x04\x00\x00\x00\x00\x00\x00\x00\x00\x00\x00\x02\
    \x00\x00\x00\x00\x00\x00\x00\x40\x00\x00\x00\x29";

/// The object of the board that names segment 255.
pub(crate) const SEGMENT_255_OBJECT: &[u8] =
    b"\x93\x53\x50\x52\x00\x00\x00\x01\x00\x00\x00\x01\x00\x00\x00\x00\x00\x00\x00\x00\
    \xff\x00\x00\x00\x00\x00\x00\x01\x04\x00\x00\x00";

/// The object of the page that is declared twice.
pub(crate) const PAGE_TWICE_OBJECT: &[u8] =
    b"\x93\x53\x50\x52\x00\x00\x00\x01\x00\x00\x00\x01\x00\x00\x00\x02\x00\x00\x00\x00\
    \x00\x01\x02\x03\x00\x00\x00\x01\x04\x00\x00\x00\x00\x00\x00\x00\
    \x00\x00\x00\x02\x00\x00\x00\x00\x00\x00\x00\x02";

/// The object of the least generated text: its first branch stands at place 12, and goes to place 6.
pub(crate) const LEAST_OBJECT: &[u8] =
    b"\x93\x53\x50\x52\x00\x00\x00\x01\x00\x00\x00\x01\x00\x00\x00\x01\x00\x00\x00\x00\
    \x00\x01\x02\x03\x00\x00\x00\x11\x0c\x80\x00\x01\x0d\x00\x00\x00\
    \x0d\xc0\x10\x00\x0e\x00\x00\x02\x0c\x40\x00\x00\x0c\xc0\x00\x01\
    \x3d\x44\x00\x00\x19\x54\x80\x00\x41\x44\x00\x00\x19\x11\x40\x00\
    \x18\x45\xc0\x00\x14\xcc\xff\xff\x4c\xc0\xff\xf9\x16\x20\xff\xff\
    \x4e\x00\xff\xf5\x65\x00\x00\x00\x04\x00\x00\x00\x00\x00\x00\x00\
    \x00\x00\x00\x02";
