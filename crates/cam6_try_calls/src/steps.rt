//! The steps that the largest rules take.

use cam6_forth::parse;
use cam6_table::{Code, MAX_EVAL_STEPS, eval};
use cam6_wiring::{Half, Hood, Minor};
use std::alloc::Global;
use std::process::Abort;
use std::test::Fail;

// Each definition is twice the one before: 2,048 times a number and DROP, and 4,096 times nothing.
const MOST: &str = ": A0 1 DROP ; : A1 A0 A0 ; : A2 A1 A1 ; : A3 A2 A2 ; : A4 A3 A3 ; : A5 A4 A4 ; \
    : A6 A5 A5 ; : A7 A6 A6 ; : A8 A7 A7 ; : A9 A8 A8 ; : A10 A9 A9 ; : A11 A10 A10 ;";

const NONE: &str =
    ": A0 ; : A1 A0 A0 ; : A2 A1 A1 ; : A3 A2 A2 ; : A4 A3 A3 ; : A5 A4 A4 ; : A6 A5 A5 ; \
    : A7 A6 A6 ; : A8 A7 A7 ; : A9 A8 A8 ; : A10 A9 A9 ; : A11 A10 A10 ; : A12 A11 A11 ;";

/// Checks that evaluating the code leaves `left` of the most steps, at each of four addresses. Also
/// checks that each entry is the address modulo 4.
fn check_steps(rt: &impl Abort, code: &Code, left: u32) {
    for (address, want) in [(0, 0), (1, 1), (2, 2), (4095, 3)] {
        let mut steps = MAX_EVAL_STEPS;
        let got = eval(code, address, &mut steps);
        assert_eq!(rt; got, Ok(want), "at {address}");
        assert_eq!(rt; steps, left, "at {address}");
    }
}

/// Checks that evaluating the rule of a text leaves `left` of the most steps, and gives the address
/// modulo 4, at each of four addresses.
fn check_rule(rt: &impl Abort, alloc: Global, text: &str, left: u32) -> Result<(), Fail> {
    let rule = parse(alloc, text, Half::A, Hood::VonNeumann, Minor::Centers)?;
    let code = Code::of(alloc, &rule)?;
    check_steps(rt, &code, left);
    Ok(())
}

/// Of the two largest rules one takes all steps, and the other none.
#[test]
fn steps_of_the_largest_rules(rt: HostRuntime) -> Result<(), Fail> {
    check_rule(&rt, rt.alloc(), MOST, 0)?;
    check_rule(&rt, rt.alloc(), NONE, MAX_EVAL_STEPS)
}
