//! Generated texts.

use crate::{GenFault, generate};
use std::test::Fail;

#[test]
fn other_numbers_are_refused_and_the_second_first(rt: HostRuntime) {
    let alloc = rt.alloc();
    let rows = [
        (0, 13, 513, 2),
        (0, 0, 1, 2),
        (0, 1, 0, 3),
        (0, 1, 513, 3),
        (4_294_967_295, 12, 513, 3),
    ];
    for (number, boards, pages, which) in rows {
        let answer = generate(alloc, number, boards, pages).map(|_| ());
        assert_eq!(rt; answer, Err(GenFault::Range { which }));
    }
}

#[test]
fn a_text_of_one_board_and_one_page(rt: HostRuntime) -> Result<(), Fail> {
    let text = generate(rt.alloc(), 0, 1, 1).map_err(|_| "refused")?;
    let lines = b"; gen 0 1 1\n\
        .page 0 0 rw\n\
        .board\n\
        li r2, 1\n\
        li r4, 0\n\
        li r7, 4096\n\
        li r8, 2\n\
        again:\n\
        li r1, 0\n\
        li r3, 1\n\
        first:\n\
        ld r5, 0(r1)\n\
        add r5, r5, r2\n\
        st r5, 0(r1)\n\
        add r4, r4, r5\n\
        add r1, r1, r7\n\
        addi r3, r3, -1\n\
        bne r3, r0, first\n\
        addi r8, r8, -1\n\
        bne r8, r0, again\n\
        show r4\n\
        halt\n";
    assert_eq!(rt; text.len(), 255);
    assert_eq!(rt; text.as_slice(), lines.as_slice());
    Ok(())
}

#[test]
fn the_last_board_of_the_greatest_number(rt: HostRuntime) -> Result<(), Fail> {
    let text = generate(rt.alloc(), 4_294_967_295, 12, 1).map_err(|_| "refused")?;
    let last = b".board\n\
        li r2, 483\n\
        li r4, 0\n\
        li r7, 4096\n\
        li r8, 2\n\
        again:\n\
        li r1, 44\n\
        li r3, 1\n\
        first:\n\
        ld r5, 0(r1)\n\
        add r5, r5, r2\n\
        st r5, 0(r1)\n\
        add r4, r4, r5\n\
        add r1, r1, r7\n\
        addi r3, r3, -1\n\
        bne r3, r0, first\n\
        addi r8, r8, -1\n\
        bne r8, r0, again\n\
        show r4\n\
        halt\n";
    assert!(rt; text.as_slice().ends_with(last.as_slice()));
    Ok(())
}
