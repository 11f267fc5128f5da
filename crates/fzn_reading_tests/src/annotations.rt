// What is read of the search annotations of a solve item.
use fzn_domain::VarId;
use fzn_reading::read_annotated;
use fzn_strategy::{Annotation, ValueChoice, VarChoice};
use fzn_streams::TrackedReader;
use std::alloc::Global;
use std::test::*;

const FILE: &[u8] =
    b"var 0..3: x; var 0..3: y; array [1..3] of var int: q = [y, 7, x]; solve :: int_search([z], input_order, indomain_min) :: int_search(q, first_fail, indomain_split) satisfy;";

/// Whether they are the one annotation that names variables.
fn are_read(annotations: &[Annotation]) -> bool {
    let [one] = annotations else {
        return false;
    };
    one.vars.as_slice() == [VarId(2), VarId(1)].as_slice()
        && one.var_choice == VarChoice::FirstFail
        && one.value_choice == ValueChoice::Split
}

fn is_annotated(alloc: Global) -> Result<bool, Fail> {
    let mut file = TrackedReader::new(FILE);
    let read = read_annotated(alloc, &mut file)?;
    Ok(read.model.vars.len() == 2 && are_read(read.annotations.as_slice()))
}

#[test]
fn annotations_of_a_solve_item(rt: HostRuntime) -> Result<(), Fail> {
    assert!(rt; is_annotated(rt.alloc())?);
    Ok(())
}
