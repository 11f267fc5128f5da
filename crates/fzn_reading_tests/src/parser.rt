// The tree of a file.
use fzn_lexer::{Position, tokens};
use fzn_list::Items;
use fzn_parser::{one_reading, parse};
use fzn_tree::{Arg, Basic, Con, Int, Listed, Literal, Param, ParamValue, Tree};
use std::alloc::{AllocError, Global};
use std::test::*;

const FILE: &str =
    "predicate q(var int: a);\nint: k = -3;\nvar {2, 1}: x = k;\nconstraint p({4}, [x]) :: t(\"u\");\nsolve minimize x;";

/// Whether the parameter is `k = -3` in line 2.
fn is_k(param: &Param) -> bool {
    param.name.text.as_slice() == b"k".as_slice()
        && param.name.position == Position { line: 2, column: 6 }
        && matches!(
            &param.value,
            ParamValue::Literal(Literal::Int(Int { value: -3, .. }))
        )
}

/// Whether the constraint is on the set of 4, in line 4, and an array.
fn is_p(con: &Con) -> bool {
    let [
        Arg::Basic(Basic::Literal(Literal::Set(position, listed))),
        Arg::Array(_),
    ] = con.args.as_slice()
    else {
        return false;
    };
    *position
        == Position {
            line: 4,
            column: 14,
        }
        && listed.as_slice() == [4].as_slice()
}

/// Whether the tree has one item of each kind, the parameter and the constraint as they are written.
fn is_tree_of_file(tree: &Tree) -> bool {
    let ([param], [con]) = (tree.params.as_slice(), tree.cons.as_slice()) else {
        return false;
    };
    tree.predicates.len() == 1 && tree.vars.len() == 1 && is_k(param) && is_p(con)
}

fn is_parsed(alloc: Global) -> bool {
    match tokens(alloc, FILE.as_bytes()) {
        Ok(tokens) => parse(alloc, &tokens).is_ok_and(|tree| is_tree_of_file(&tree)),
        Err(_) => false,
    }
}

#[test]
fn a_tree(rt: HostRuntime) {
    assert!(rt; is_parsed(rt.alloc()));
    assert!(rt; one_reading() == ());
}

#[test]
fn an_entry_takes_40_bytes(rt: HostRuntime) {
    assert!(rt; size_of::<Basic>() == 40);
}

fn is_listed(alloc: Global) -> Result<bool, AllocError> {
    let values = Items::from_slice(alloc, [4, 2].as_slice())?;
    let listed = Listed::new(alloc, values)?;
    Ok(listed.as_slice() == [4, 2].as_slice())
}

#[test]
fn listed_values(rt: HostRuntime) -> Result<(), Fail> {
    assert!(rt; is_listed(rt.alloc())?);
    Ok(())
}
