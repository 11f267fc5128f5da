use fzn_cert::{one_derivation, push_derivation};
use fzn_cert_line::derivation_of_line;
use fzn_domain::Memory;
use std::alloc::Global;
use std::test::*;

/// Lines of derivations.
const LINES: &str = "
c lin ;
c lin ; 1000000000000 1 -1 2
c xor ; 3 4
c alldiff ; ;
c alldiff ; 1 2 3 ; 4 5 4
c row ;
c row ; l
c row ; l 1000000000000 1 -1 2 l 3 4
c row ; p 2 1
c row ; p 2 -1000000000 -1000000000000 1000000000000 0
c row ; l 1 4 m 2 3 m 3 4 p 1 1 0 -2
";

/// Lines that are none: a space is missing or one too much, or a word, or a number is spelled or bounded otherwise, or an item has too few or
/// too many numbers.
const FAULTY: &str = "
c lin
c lin; 1 1
c lin ; 1
c lin ; 1 01
c lin ; 1000000000001 1
c lin ; 1 0
c xor ; -3
c xor ;  3
c alldiff ; 1 2 3
c row
c rows ;
c row ; 1
c row ;  l
c row ; l 1
c row ; l 1 m 2 3
c row ; l 1 2 3 m 2 3
c row ; l 1000000000001 1
c row ; l 1 0
c row ; p
c row ; p 2
c row ; p 2 m 2 3
c row ; p 2 1000000001 5
c row ; p 2 -1000000001 5
c row ; p 2 1 1000000000001
c row ; p 0 1
c row ; m 2
c row ; m 2 3 4
c row ; m 2 -3
c row ; m 2 3 ;
c row ; x 1
c lin ; l 1 2
i 1 lin ;
";

/// Whether the line spells a derivation, for which the same line is written.
fn is_written_again(alloc: Global, line: &str) -> Result<bool, Memory> {
    let Some(derivation) = derivation_of_line(alloc, line.as_bytes())? else {
        return Ok(false);
    };
    let mut text = String::new(alloc);
    push_derivation(&mut text, &derivation)?;
    Ok(text.as_str() == line)
}

#[test]
fn reads_and_writes_derivations(rt: HostRuntime) -> Result<(), Fail> {
    assert!(rt; one_derivation() == ());
    assert!(rt; LINES.trim().lines().count() == 11);
    for line in LINES.trim().lines() {
        assert!(rt; is_written_again(rt.alloc(), line)?);
    }
    for line in FAULTY.trim().lines() {
        assert!(rt; !is_written_again(rt.alloc(), line)?);
    }
    Ok(())
}
