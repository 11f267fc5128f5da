// A certificate checked from its bytes.
ghost use Rattle.std.specs.Prelude.{◌≡◌, true, IfOk, IfErr, length};
ghost use Rattle.fzn_meaning.specs.Solutions.{declared_sets, IsProper, IsExhausted};
ghost use Rattle.fzn_meaning.specs.WellFormed.{IsWellFormed};
ghost use Rattle.fzn_sets.specs.Sets.{start};
ghost use Rattle.fzn_cert.specs.Past.{no_past};
ghost use Rattle.fzn_cert.specs.Verdict.{accepted};
ghost use Rattle.fzn_cert_reader.specs.Reader.{progress, reader_below};
ghost use Rattle.fzn_head.specs.Extended.{IsExtended};
ghost use Rattle.fzn_head.specs.Outcome.{IsOutcomeOn};
ghost use Rattle.fzn_checker.specs.Checked.{IsUnread, IsFaultWhere, IsReadDue, IsMidway, ComesTo};
ghost use Rattle.fzn_checker.specs.Opened.{HasNearLine};

use crate::fault::CheckFault;
use crate::given::Given;
use crate::history::History;
use crate::next::next_step;
use crate::opening::{further, open_certificate};
use crate::steps::take_step;
use fzn_cert_reader::StepReader;
use fzn_domain::{Domain, Memory};
use fzn_list::Items;
use fzn_meaning::{Model, Var};
use fzn_sets::Sets;
use fzn_streams::TrackedRead;
use std::alloc::Global;

/// What an accepted certificate shows.
#[derive(Drop)]
pub struct Accepted {
    /// The values of its solutions, in order.
    pub solutions: Vec<Items<i64>>,
    /// Whether there are no others to be found.
    pub closed: bool,
}

/// How many solutions an accepted certificate has, and whether there are no others to be found.
#[derive(Clone, Copy, Debug, PartialEq, Eq)]
pub struct Verdict {
    /// How many solutions it has.
    pub solutions: usize,
    /// Whether there are no others to be found.
    pub closed: bool,
}

impl Accepted {
    /// How many solutions there are, and whether there are no others to be found.
    pub fn verdict(&self) -> Verdict
        ensures { result ≡ record { solutions = length self.now.solutions.items; closed = self.now.closed } }
    {
        Verdict {
            solutions: self.solutions.len(),
            closed: self.closed,
        }
    }
}

/// Checks a certificate of any version, line by line, of which no line was read before. Whoever wrote it: what is accepted is a proper list
/// of solutions, and an exhausted one where it is closed. The constraints that its head derives stand behind the model's own afterwards. It
/// answers `Refused` with the first faulty line, `Memory` where memory runs out, and `Read` only after a failed read.
pub fn check_certificate<C: TrackedRead + Drop>(
    alloc: Global,
    model: &mut Model,
    cert: &mut StepReader<C>,
) -> Result<Accepted, CheckFault>
    requires model { IsWellFormed model.old }
    requires unread { IsUnread (progress C.remaining cert.old) }
    ensures ok { IfOk result (λ answer. IsOutcomeOn model.old (progress C.remaining cert.old).left (accepted answer.solutions.items answer.closed)) }
    ensures err { IfErr result (IsFaultWhere (IsOutcomeOn model.old (progress C.remaining cert.old).left)) }
    ensures due { IfErr result (IsReadDue (C.has_failed (reader_below cert.new))) }
    ensures proper { IfOk result (λ answer. IsProper model.old answer.solutions.items) }
    ensures exhausted { IfOk result (λ answer. answer.closed ≡ true → IsExhausted model.old answer.solutions.items) }
    ensures extended { IsExtended model.old model.new }
{
    let opening = open_certificate(alloc, model, cert, false)?;
    match check_steps(alloc, model, cert) {
        Ok(answer) => Ok(answer),
        Err(fault) => Err(further(fault, opening.lines)),
    }
}

/// Checks the steps of a certificate of which no step was read, and the ending behind them. It answers as `check_certificate` does, but that
/// the lines are counted as though two stood in front of the steps.
fn check_steps<C: TrackedRead + Drop>(
    alloc: Global,
    model: &Model,
    cert: &mut StepReader<C>,
) -> Result<Accepted, CheckFault>
    requires model { IsWellFormed model.now }
    requires midway { IsMidway model.now no_past (progress C.remaining cert.old) }
    requires no_steps { (progress C.remaining cert.old).steps ≡ 0 }
    ensures ok { IfOk result (λ answer. ComesTo model.now no_past (progress C.remaining cert.old) (accepted answer.solutions.items answer.closed)) }
    ensures err { IfErr result (IsFaultWhere (ComesTo model.now no_past (progress C.remaining cert.old))) }
    ensures near { IfErr result HasNearLine }
    ensures due { IfErr result (IsReadDue (C.has_failed (reader_below cert.new))) }
    ensures proper { IfOk result (λ answer. IsProper model.now answer.solutions.items) }
    ensures exhausted { IfOk result (λ answer. answer.closed ≡ true → IsExhausted model.now answer.solutions.items) }
{
    let mut sets = first_sets(alloc, model)?;
    let has_empty = sets.has_empty();
    let mut history = History::new(alloc);
    let mut given = Given::new(alloc);
    let mut line = 3;
    while let Some(step) = next_step(alloc, model, &history, line, cert)? {
        let refusal = take_step(
            alloc,
            model,
            &mut history,
            &mut given,
            &mut sets,
            has_empty,
            step,
        )?;
        if let Some(refusal) = refusal {
            return Err(CheckFault::Refused { line, refusal });
        }
        line += 1;
    }
    Ok(Accepted {
        solutions: history.into_solutions(),
        closed: cert.closed().unwrap_or(false),
    })
}

/// The declared sets, as they are before anything is taken out of them.
pub fn first_sets(alloc: Global, model: &Model) -> Result<Sets, Memory>
    ensures { IfOk result (λ sets. sets ≡ start (declared_sets model.now.vars)) }
{
    Sets::new(alloc, domains_of(alloc, model.vars.as_slice())?)
}

/// The declared sets, each copied.
fn domains_of(alloc: Global, vars: &[Var]) -> Result<Vec<Domain>, Memory>
    ensures { IfOk result (λ domains. domains.items ≡ declared_sets vars.now) }
{
    let mut domains = Vec::new(alloc);
    for var in vars {
        domains.push(var.domain.copy()?)?;
    }
    Ok(domains)
}
