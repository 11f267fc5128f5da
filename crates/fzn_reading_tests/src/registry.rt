// The rows of names.
use fzn_registry::{Argument, Lengths, Name, lookup, lookup_bytes};
use std::test::*;

/// Whether the row of the table constraint is found by its text and by its bytes.
fn is_found() -> bool {
    let (Some(row), Some(same)) = (lookup("fzn_table_int"), lookup_bytes(b"fzn_table_int")) else {
        return false;
    };
    row.name == Name::FznTableInt && same.name == Name::FznTableInt && row.arguments.len() == 2
}

#[test]
fn names_with_their_rows(rt: HostRuntime) {
    assert!(rt; is_found());
    assert!(rt; lookup("int_pow").is_none() && lookup_bytes(b"int_pow").is_none());
}

#[test]
fn signatures_of_names(rt: HostRuntime) {
    let arguments = Name::FznTableInt.arguments();
    assert!(rt; arguments == [Argument::IntegerList, Argument::IntegerConstantList].as_slice());
    assert!(rt; Name::FznTableInt.lengths() == Lengths::Table { row: 0, table: 1 });
    assert!(rt; Name::FznCumulative.non_negative() == [1, 2, 3].as_slice());
}
