ghost use Rattle.std.specs.Prelude.{◌≡◌, ◌∷◌, [], IfOk, pos};
ghost use Rattle.fzn_domain.specs.IntSet.{range};
ghost use Rattle.fzn_domain.specs.Limits.{IsInLimits};
ghost use Rattle.fzn_meaning.specs.WellFormed.{IsWellFormed};

use fzn_cert::Refusal;
use fzn_cert_reader::StepReader;
use fzn_checker::{Accepted, CheckFault, Verdict, check_certificate};
use fzn_domain::{Domain, Memory, VarId};
use fzn_list::{Items, Text};
use fzn_meaning::{Goal, Kind, Model, OutputItem, Var};
use fzn_streams::TrackedReader;
use std::alloc::Global;
use std::test::Fail;

pub(crate) fn one<T: Drop>(alloc: Global, item: T) -> Result<Items<T>, Memory>
    ensures { IfOk result (λ items. items ≡ item ∷ []) }
{
    let mut items = Items::new(alloc);
    items.push(item)?;
    Ok(items)
}

fn bit(alloc: Global) -> Result<Var, Memory>
    ensures { IfOk result (λ var. var.domain ≡ range (pos 0) (pos 1)) }
{
    Ok(Var {
        name: Text::from_slice(alloc, b"x")?,
        domain: Domain::range(alloc, 0, 1)?,
        kind: Kind::Integer,
    })
}

/// The least x in 0..1, which is printed.
pub(crate) fn least_bit(alloc: Global) -> Result<Model, Memory>
    ensures { IfOk result IsWellFormed }
{
    let x = OutputItem::Single {
        name: Text::from_slice(alloc, b"x")?,
        kind: Kind::Integer,
        var: VarId(1),
    };
    Ok(Model {
        vars: one(alloc, bit(alloc)?)?,
        constraints: Items::new(alloc),
        goal: Goal::Minimize(VarId(1)),
        outputs: one(alloc, VarId(1))?,
        shown: one(alloc, x)?,
    })
}

/// Certificates, where `|` stands for a line feed, and their verdicts.
const CERTIFICATES: &str = "
fzc 1|vars 1 cons 0|s 1|s 0|r ; 2|e closed| => 2 solutions, closed
fzc 1|vars 1 cons 0|s 1|e open| => 1 solutions
fzc 2|vars 1 cons 0|s 1|s 0|d 1|r ; 2|e closed| => 2 solutions, closed
fzc 1|vars 1 cons 0|s 0|s 1| => certificate line 4: fault 47 CutByEarlier
fzc 3|vars 1 cons 0 new 1|c lin ;|s 1|s 0|i 1 lin ; 1<=0| => certificate line 6: fault 42 RuleFails
fzc 3|vars 1 cons 0 new 1|c lin ;|s 1|s 0|r ; 2|e closed| => 2 solutions, closed
fzc 3|vars 1 cons 0 new 2|c lin ;|c alldiff ; 1 ; 1|e open| => certificate line 4: fault 51 NotDerived
fzc 3|vars 1 cons 0 new 1|c row ;|s 1|s 0|i 1 row ; 1<=0| => certificate line 6: fault 42 RuleFails
fzc 3|vars 1 cons 0 new 2|c lin ;|c row ; l 1 1|s 1|s 0|r ; 2|e closed| => 2 solutions, closed
fzc 3|vars 1 cons 0 new 2|c row ;|c lin ; 1 1|e open| => certificate line 4: fault 51 NotDerived
fzc 3|vars 1 cons 0 new 1|c row ; m 1 1|e open| => certificate line 3: fault 41 NoSuchConstraint
";

/// What is told of a certificate that is accepted.
fn told(alloc: Global, answer: &Accepted) -> Result<String, Memory> {
    let Verdict { solutions, closed } = answer.verdict();
    let ending = if closed { ", closed" } else { "" };
    format!(in alloc; "{solutions} solutions{ending}")
}

/// The verdict on a certificate for the least bit.
fn judged(alloc: Global, certificate: &str) -> Result<String, Memory> {
    let mut model = least_bit(alloc)?;
    let mut reader = StepReader::new(alloc, TrackedReader::new(certificate.as_bytes()));
    match check_certificate(alloc, &mut model, &mut reader) {
        Ok(answer) => told(alloc, &answer),
        Err(fault) => format!(in alloc; "{fault}"),
    }
}

/// Whether a row of the table has the verdict that it tells.
fn is_as_told(alloc: Global, row: &str) -> Result<bool, Memory> {
    let Some((lines, want)) = row.split_once(" => ") else {
        return Ok(false);
    };
    let certificate = lines.replace(alloc, '|', "\n")?;
    let verdict = judged(alloc, certificate.as_str())?;
    Ok(verdict.as_str() == want)
}

#[test]
fn verdicts(rt: HostRuntime) -> Result<(), Fail> {
    assert!(rt; CERTIFICATES.trim().lines().count() == 11);
    for row in CERTIFICATES.trim().lines() {
        assert!(rt; is_as_told(rt.alloc(), row)?, "{row}");
    }
    Ok(())
}

/// Whether the fault has this line and this status.
fn is_told(alloc: Global, fault: CheckFault, line: &str, status: u8) -> Result<bool, Memory> {
    let text = format!(in alloc; "{fault}")?;
    Ok(text.as_str() == line && fault.status() == status)
}

fn are_told(alloc: Global, refused: CheckFault) -> Result<bool, Memory> {
    Ok(
        is_told(alloc, refused, "certificate line 4: fault 44 NotUnit", 1)?
            && is_told(alloc, CheckFault::Memory, "fault 19 Memory", 5)?
            && is_told(alloc, CheckFault::Read, "fault 20 Read", 4)?
            && is_told(alloc, CheckFault::WriteOutput, "fault 21 WriteOutput", 4)?
            && is_told(alloc, CheckFault::WriteCert, "fault 22 WriteCert", 4)?
            && is_told(
                alloc,
                CheckFault::NotVersionOne,
                "certificate line 1: fault 50 NotVersionOne",
                1,
            )?,
    )
}

#[test]
fn messages(rt: HostRuntime) -> Result<(), Fail> {
    let refused = CheckFault::Refused {
        line: 4,
        refusal: Refusal::NotUnit,
    };
    assert!(rt; are_told(rt.alloc(), refused)?);
    Ok(())
}
