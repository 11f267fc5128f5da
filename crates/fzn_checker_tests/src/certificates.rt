// A certificate of two Booleans cut off, with each byte changed, and changed in a line, however it is read: the checker prints what is
// true of the file, or nothing.
use crate::flawed::{Calls, Source, put_at};
use fzn_checker::{CheckFault, check};
use std::alloc::{AllocError, Global};
use std::test::Fail;

const MODEL: &[u8] =
    b"var bool: a :: output_var; var bool: b :: output_var; constraint bool_clause([a,b],[]); constraint bool_clause([],[a]); solve satisfy;";

const CERTIFICATE: &[u8] =
    b"fzc 1\nvars 2 cons 2\ni 2 lin ; 1<=0\ni 1 lin ; 1>=1 2>=1\ns 0 1\nr ; 1 2 3\ne closed\n";

const ANSWER: &[u8] = b"a = false;\nb = true;\n----------\n==========\n";

/// The fault of a certificate that is read by so many bytes, and what is printed.
fn fault_of(
    alloc: Global,
    certificate: &[u8],
    most: usize,
    out: &mut Vec<u8>,
) -> Option<CheckFault> {
    let calls = Calls::sound();
    check(
        alloc,
        MODEL,
        Source::new(certificate, most, &calls),
        true,
        out,
    )
    .err()
}

/// Whether the answer is printed, or the certificate is refused and nothing is.
fn is_judged(alloc: Global, certificate: &[u8]) -> bool {
    let mut out: Vec<u8> = Vec::new(alloc);
    match fault_of(alloc, certificate, 4096, &mut out) {
        None => out.as_slice() == ANSWER,
        Some(fault) => matches!(fault, CheckFault::Refused { .. }) && out.is_empty(),
    }
}

/// Whether the certificate with another byte at the place is judged rightly, for each byte.
fn is_judged_with_each(alloc: Global, at: usize) -> Result<bool, AllocError> {
    let mut certificate = Vec::from_slice(alloc, CERTIFICATE)?;
    let mut is_right = true;
    for byte in 0..=255u8 {
        put_at(&mut certificate, at, byte);
        is_right = is_right && is_judged(alloc, &certificate);
    }
    Ok(is_right)
}

#[test]
fn each_byte_changed(rt: HostRuntime) -> Result<(), Fail> {
    for at in 0..CERTIFICATE.len() {
        assert!(rt;
            is_judged_with_each(rt.alloc(), at)?,
            "with byte {at} changed"
        );
    }
    Ok(())
}

/// Certificates, where `|` stands for a line feed, and what is said of them.
const CHANGED: &str = "
fzc 1|vars 2 cons 2|i 2 lin ; 1<=0|i 1 lin ; 1>=1 2>=1|s 0 1|r ; 1 2 3|e closed| => none
fzc 1|vars 2 cons 2|i 2 lin ; 1<=0|i 1 lin ; 1>=1 2>=1|s 0 1|r ; 1 2 3| => certificate line 7: fault 32 Truncated
fzc 1|vars 2 cons 2|i 2 lin ; 1<=0|i 1 lin ; 1>=1 2>=1|s 0 1|r ; 1 2 3|e closed|x => certificate line 8: fault 33 Trailing
fzc 1|vars 2 cons 2|i 2 lin ; 1<=0|i 1 lin ; 1>=1 2>=1|s 0 1|s 0 1|e closed| => certificate line 6: fault 47 CutByEarlier
fzc 1|vars 2 cons 2|i 2 lin ; 1<=0|i 1 lin ; 1>=1 2>=1|s 0 1|e closed| => certificate line 6: fault 48 NotClosed
fzc 1|vars 2 cons 2|i 2 lin ; 1<=0|i 1 lin ; 1>=1 2>=1|s 0 1|r ; 1 2 4|e closed| => certificate line 6: fault 43 NoSuchClause
fzc 1|vars 2 cons 2|i 2 lin ; 1<=0|i 1 lin ; 1>=1 2>=1|s 0 1|r ; 2 1 3|e closed| => certificate line 6: fault 44 NotUnit
fzc 1|vars 2 cons 2|i 2 lin ; 1<=0|i 1 lin ; 1>=1 2>=1|s 0 1|r ; 1 2|e closed| => certificate line 6: fault 45 NoConflict
fzc 1|vars 2 cons 2|i 2 lin ; 1<=0|i 1 lin ; 1>=1 2>=1|s 0 1|r ;  1 2 3|e closed| => certificate line 6: fault 31 Spelling
fzc 1|vars 2 cons 2|i 2 lin ; 1<=0|i 1 lin ; 1>=1 2>=1|s 1 1|r ; 1 2 3|e closed| => certificate line 5: fault 46 NotASolution
fzc 1|vars 2 cons 2|i 2 lin ; 1<=0|i 1 lin ; 2>=1|s 0 1|r ; 1 2 3|e closed| => certificate line 4: fault 42 RuleFails
fzc 9|vars 2 cons 2|i 2 lin ; 1<=0|i 1 lin ; 1>=1 2>=1|s 0 1|r ; 1 2 3|e closed| => certificate line 1: fault 30 Header
fzc 1|vars 2 cons 3|i 2 lin ; 1<=0|i 1 lin ; 1>=1 2>=1|s 0 1|r ; 1 2 3|e closed| => certificate line 2: fault 40 Counts
 => certificate line 1: fault 32 Truncated
fzc 2|vars 2 cons 2|i 2 lin ; 1<=0|i 1 lin ; 1>=1 2>=1|r 2>=1 ; 1 2|d 2|s 0 1|r ; 1 3 5|e closed| => none
fzc 2|vars 2 cons 2|i 2 lin ; 1<=0|i 1 lin ; 1>=1 2>=1|r 2>=1 ; 1 2|d 2|s 0 1|r ; 1 2 5|e closed| => certificate line 8: fault 43 NoSuchClause
fzc 1|vars 2 cons 2|i 2 lin ; 1<=0|i 1 lin ; 1>=1 2>=1|r 2>=1 ; 1 2|d 2|s 0 1|r ; 1 3 5|e closed| => certificate line 6: fault 31 Spelling
";

/// What is said of a certificate.
fn told(alloc: Global, fault: Option<CheckFault>) -> Result<String, AllocError> {
    match fault {
        Some(fault) => format!(in alloc; "{fault}"),
        None => String::from_str(alloc, "none"),
    }
}

/// Whether this is said of the certificate, and the answer is printed, or nothing where there is a fault.
fn is_told(
    alloc: Global,
    certificate: &[u8],
    most: usize,
    wanted: &str,
) -> Result<bool, AllocError> {
    let mut out: Vec<u8> = Vec::new(alloc);
    let fault = fault_of(alloc, certificate, most, &mut out);
    let answer = if fault.is_none() {
        ANSWER
    } else {
        b"".as_slice()
    };
    let told = told(alloc, fault)?;
    Ok(told.as_str() == wanted && out.as_slice() == answer)
}

/// Whether a beginning of the certificate is cut off in the line that it ends in.
fn is_cut_off(alloc: Global, front: &[u8]) -> Result<bool, AllocError> {
    let feeds = front.iter().filter(|byte| **byte == b'\n').count();
    let line = feeds.saturating_add(1);
    let wanted = format!(in alloc; "certificate line {line}: fault 32 Truncated")?;
    is_told(alloc, front, 4096, wanted.as_str())
}

#[test]
fn each_beginning(rt: HostRuntime) -> Result<(), Fail> {
    for count in 0..CERTIFICATE.len() {
        assert!(rt;
            is_cut_off(rt.alloc(), &CERTIFICATE[..count])?,
            "the first {count} bytes"
        );
    }
    Ok(())
}

/// Whether a row is right when the certificate is read by so many bytes.
fn is_right(alloc: Global, row: &str, most: usize) -> Result<bool, Fail> {
    let (lines, wanted) = row.split_once(" => ").ok_or("a row has two parts")?;
    let certificate = lines.replace(alloc, '|', "\n")?;
    Ok(is_told(alloc, certificate.as_bytes(), most, wanted)?)
}

#[test]
fn changed_lines_however_read(rt: HostRuntime) -> Result<(), Fail> {
    let rows = CHANGED.strip_prefix('\n').unwrap_or("");
    assert!(rt; rows.lines().count() == 17);
    for row in rows.lines() {
        for most in [1, 2, 3, 7, 4096] {
            assert!(rt; is_right(rt.alloc(), row, most)?, "by {most}: {row}");
        }
    }
    Ok(())
}
