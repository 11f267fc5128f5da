// A certificate written from its steps.
ghost use Rattle.std.specs.Prelude.{◌≡◌, ◌++◌, ◌∷◌, [], string_bytes, IfOk, IfErr};
ghost use Rattle.fzn_streams.specs.Output.{Puts};
ghost use Rattle.fzn_cert.specs.declared.step.Version.TheVariants.{Two};
ghost use Rattle.fzn_cert.specs.Spelling.{end_line, header_text, step_line};
ghost use Rattle.fzn_cert.specs.Verdict.{lines_of};
ghost use Rattle.fzn_checker.specs.Held.{lines_to_end};
ghost use Rattle.fzn_head.specs.Head.{three_line, head_counts_line, derivation_line, derivation_lines};
ghost use Rattle.fzn_core.specs.Kept.{kept_steps};
ghost use Rattle.fzn_core.specs.Planned.{planned, planned_step};
ghost use Rattle.fzn_trim.specs.Behind.{kept_front};
ghost use Rattle.fzn_trim.specs.Written.{front_text, front_of, head_text, IsWriteFault, IsWriteDue};

use fzn_cert::{Step, Version, header_of, push_derivation, push_step, put_end};
use fzn_cert_reader::Script;
use fzn_checker::CheckFault;
use fzn_core::{Kept, Line, Plan};
use fzn_derive::Derivation;
use fzn_domain::Memory;
use fzn_head::Head;
use fzn_meaning::Model;
use fzn_streams::{TrackedWrite, WriteFailed, put};
use std::alloc::Global;

/// Writes a certificate with these steps behind what stands in front of them, and this ending, each step as it is made. The model has the
/// constraints that the held derivations give. It answers `Memory` where memory runs out, and `WriteCert` only where a write or the flush of
/// `new` failed, and a beginning of the certificate stands then.
#[tactic(auto, using(fzn_streams::proofs::CallerLemmas::puts))]
pub fn write_certificate<W: TrackedWrite>(
    alloc: Global,
    model: &Model,
    kept: &Kept,
    closed: bool,
    new: &mut W,
) -> Result<(), CheckFault>
    ensures text { Puts (W.contents new.old) (W.contents new.new) result (kept_front model.now kept.now ++ lines_to_end (kept_steps kept.now) closed) }
    ensures fault { IfErr result IsWriteFault }
    ensures due { IfErr result (IsWriteDue (W.has_failed new.new)) }
    ensures same_stream { W.stream new.new ≡ W.stream new.old }
{
    put_kept_front(alloc, model, kept, new)?;
    put_lines(alloc, kept, closed, new)
}

/// Writes what stands in front of the steps.
fn put_kept_front<W: TrackedWrite>(
    alloc: Global,
    model: &Model,
    kept: &Kept,
    new: &mut W,
) -> Result<(), CheckFault>
    ensures text { Puts (W.contents new.old) (W.contents new.new) result (kept_front model.now kept.now) }
    ensures fault { IfErr result IsWriteFault }
    ensures due { IfErr result (IsWriteDue (W.has_failed new.new)) }
    ensures same_stream { W.stream new.new ≡ W.stream new.old }
{
    match &kept.front {
        Some(lines) => put_text(new, lines.as_bytes()),
        None => put_old_front(alloc, model, kept.derivations.as_slice(), new),
    }
}

/// Writes what stands in front of the steps of the old certificate: lines of version 3, or of version 2 where it derives nothing. The model has
/// the constraints that these derivations give.
fn put_old_front<W: TrackedWrite>(
    alloc: Global,
    model: &Model,
    derivations: &[Derivation],
    new: &mut W,
) -> Result<(), CheckFault>
    ensures text { Puts (W.contents new.old) (W.contents new.new) result (front_of model.now derivations.now) }
    ensures fault { IfErr result IsWriteFault }
    ensures due { IfErr result (IsWriteDue (W.has_failed new.new)) }
    ensures same_stream { W.stream new.new ≡ W.stream new.old }
{
    let variables = model.vars.len() as u64;
    let constraints = model.constraints.len().saturating_sub(derivations.len()) as u64;
    put_front(alloc, variables, constraints, derivations, new)
}

/// Writes the lines of the steps and the last one, and flushes the writer.
#[tactic(auto, using(fzn_streams::proofs::CallerLemmas::puts))]
fn put_lines<W: TrackedWrite>(
    alloc: Global,
    kept: &Kept,
    closed: bool,
    new: &mut W,
) -> Result<(), CheckFault>
    ensures text { Puts (W.contents new.old) (W.contents new.new) result (lines_to_end (kept_steps kept.now) closed) }
    ensures fault { IfErr result IsWriteFault }
    ensures due { IfErr result (IsWriteDue (W.has_failed new.new)) }
    ensures same_stream { W.stream new.new ≡ W.stream new.old }
{
    put_steps(alloc, kept, new)?;
    put_ending(new, closed)
}

/// Writes what stands in front of the steps, for a model with so many variables, and so many constraints beside those that are derived.
fn put_front<W: TrackedWrite>(
    alloc: Global,
    variables: u64,
    constraints: u64,
    derivations: &[Derivation],
    new: &mut W,
) -> Result<(), CheckFault>
    ensures text { Puts (W.contents new.old) (W.contents new.new) result (front_text variables constraints derivations.now) }
    ensures fault { IfErr result IsWriteFault }
    ensures due { IfErr result (IsWriteDue (W.has_failed new.new)) }
    ensures same_stream { W.stream new.new ≡ W.stream new.old }
{
    if derivations.is_empty() {
        put_header(alloc, variables, constraints, new)
    } else {
        let head = Head {
            variables,
            constraints,
            derived: derivations.len() as u64,
        };
        put_head(alloc, head, derivations, new)
    }
}

/// Writes the first two lines of version 2.
fn put_header<W: TrackedWrite>(
    alloc: Global,
    variables: u64,
    constraints: u64,
    new: &mut W,
) -> Result<(), CheckFault>
    ensures text { Puts (W.contents new.old) (W.contents new.new) result (header_text Two variables constraints) }
    ensures fault { IfErr result IsWriteFault }
    ensures due { IfErr result (IsWriteDue (W.has_failed new.new)) }
    ensures same_stream { W.stream new.new ≡ W.stream new.old }
{
    let header = header_of(alloc, Version::Two, variables, constraints)?;
    put_text(new, header.as_bytes())
}

/// Writes the first two lines of version 3, and those that derive constraints.
#[tactic(auto, using(fzn_streams::proofs::CallerLemmas::puts))]
fn put_head<W: TrackedWrite>(
    alloc: Global,
    head: Head,
    derivations: &[Derivation],
    new: &mut W,
) -> Result<(), CheckFault>
    ensures text { Puts (W.contents new.old) (W.contents new.new) result (head_text head derivations.now) }
    ensures fault { IfErr result IsWriteFault }
    ensures due { IfErr result (IsWriteDue (W.has_failed new.new)) }
    ensures same_stream { W.stream new.new ≡ W.stream new.old }
{
    put_first(alloc, head, new)?;
    put_derivations(alloc, derivations, new)
}

/// Writes the first two lines of version 3.
fn put_first<W: TrackedWrite>(alloc: Global, head: Head, new: &mut W) -> Result<(), CheckFault>
    ensures text { Puts (W.contents new.old) (W.contents new.new) result (three_line ++ head_counts_line head) }
    ensures fault { IfErr result IsWriteFault }
    ensures due { IfErr result (IsWriteDue (W.has_failed new.new)) }
    ensures same_stream { W.stream new.new ≡ W.stream new.old }
{
    let lines = first_lines(alloc, head)?;
    put_text(new, lines.as_bytes())
}

fn first_lines(alloc: Global, head: Head) -> Result<String, Memory>
    ensures { IfOk result (λ lines. string_bytes lines ≡ three_line ++ head_counts_line head) }
{
    let variables = head.variables;
    let constraints = head.constraints;
    let derived = head.derived;
    Ok(format!(in alloc; "fzc 3\nvars {variables} cons {constraints} new {derived}\n")?)
}

/// Writes the lines that derive constraints.
fn put_derivations<W: TrackedWrite>(
    alloc: Global,
    derivations: &[Derivation],
    new: &mut W,
) -> Result<(), CheckFault>
    ensures text { Puts (W.contents new.old) (W.contents new.new) result (derivation_lines derivations.now) }
    ensures fault { IfErr result IsWriteFault }
    ensures due { IfErr result (IsWriteDue (W.has_failed new.new)) }
    ensures same_stream { W.stream new.new ≡ W.stream new.old }
{
    for derivation in derivations {
        put_derivation(alloc, derivation, new)?;
    }
    Ok(())
}

/// Writes the line of a derivation.
fn put_derivation<W: TrackedWrite>(
    alloc: Global,
    derivation: &Derivation,
    new: &mut W,
) -> Result<(), CheckFault>
    ensures text { Puts (W.contents new.old) (W.contents new.new) result (derivation_line derivation.now) }
    ensures fault { IfErr result IsWriteFault }
    ensures due { IfErr result (IsWriteDue (W.has_failed new.new)) }
    ensures same_stream { W.stream new.new ≡ W.stream new.old }
{
    let mut line = String::new(alloc);
    push_derivation(&mut line, derivation)?;
    put_ended(new, line.as_bytes())
}

/// Writes the lines of the steps.
fn put_steps<W: TrackedWrite>(alloc: Global, kept: &Kept, new: &mut W) -> Result<(), CheckFault>
    ensures text { Puts (W.contents new.old) (W.contents new.new) result (lines_of (kept_steps kept.now)) }
    ensures fault { IfErr result IsWriteFault }
    ensures due { IfErr result (IsWriteDue (W.has_failed new.new)) }
    ensures same_stream { W.stream new.new ≡ W.stream new.old }
{
    match &kept.plan {
        None => put_text(new, kept.held.text()),
        Some(plan) => put_planned(alloc, &kept.held, plan, new),
    }
}

/// Writes the lines of a plan.
fn put_planned<W: TrackedWrite>(
    alloc: Global,
    held: &Script,
    plan: &Plan,
    new: &mut W,
) -> Result<(), CheckFault>
    ensures text { Puts (W.contents new.old) (W.contents new.new) result (lines_of (planned plan.now held.now)) }
    ensures fault { IfErr result IsWriteFault }
    ensures due { IfErr result (IsWriteDue (W.has_failed new.new)) }
    ensures same_stream { W.stream new.new ≡ W.stream new.old }
{
    for place in 0..plan.lines.len() {
        put_line(alloc, held, plan, plan.lines[place], new)?;
    }
    Ok(())
}

/// Writes a line of a plan.
fn put_line<W: TrackedWrite>(
    alloc: Global,
    held: &Script,
    plan: &Plan,
    line: Line,
    new: &mut W,
) -> Result<(), CheckFault>
    ensures text { Puts (W.contents new.old) (W.contents new.new) result (step_line (planned_step plan.now held.now line)) }
    ensures fault { IfErr result IsWriteFault }
    ensures due { IfErr result (IsWriteDue (W.has_failed new.new)) }
    ensures same_stream { W.stream new.new ≡ W.stream new.old }
{
    match plan.unchanged(held, line) {
        Some(text) => put_ended(new, text),
        None => {
            let step = plan.step(alloc, held, line)?;
            put_step(alloc, &step, new)
        }
    }
}

/// Writes the text, and a line feed.
#[tactic(auto, using(fzn_streams::proofs::CallerLemmas::puts))]
fn put_ended<W: TrackedWrite>(new: &mut W, text: &[u8]) -> Result<(), CheckFault>
    ensures text { Puts (W.contents new.old) (W.contents new.new) result (text.now ++ 10 ∷ []) }
    ensures fault { IfErr result IsWriteFault }
    ensures due { IfErr result (IsWriteDue (W.has_failed new.new)) }
    ensures same_stream { W.stream new.new ≡ W.stream new.old }
{
    put_text(new, text)?;
    put_text(new, b"\n")
}

/// Writes the line of a step.
fn put_step<W: TrackedWrite>(alloc: Global, step: &Step, new: &mut W) -> Result<(), CheckFault>
    ensures text { Puts (W.contents new.old) (W.contents new.new) result (step_line step.now) }
    ensures fault { IfErr result IsWriteFault }
    ensures due { IfErr result (IsWriteDue (W.has_failed new.new)) }
    ensures same_stream { W.stream new.new ≡ W.stream new.old }
{
    let mut line = String::new(alloc);
    push_step(&mut line, step)?;
    put_ended(new, line.as_bytes())
}

/// Writes the last line, and flushes the writer.
fn put_ending<W: TrackedWrite>(new: &mut W, closed: bool) -> Result<(), CheckFault>
    ensures text { Puts (W.contents new.old) (W.contents new.new) result (end_line closed) }
    ensures fault { IfErr result IsWriteFault }
    ensures due { IfErr result (IsWriteDue (W.has_failed new.new)) }
    ensures same_stream { W.stream new.new ≡ W.stream new.old }
{
    match put_end(new, closed) {
        Ok(()) => Ok(()),
        Err(WriteFailed) => Err(CheckFault::WriteCert),
    }
}

/// Writes the bytes.
fn put_text<W: TrackedWrite>(new: &mut W, bytes: &[u8]) -> Result<(), CheckFault>
    ensures text { Puts (W.contents new.old) (W.contents new.new) result bytes.now }
    ensures fault { IfErr result IsWriteFault }
    ensures due { IfErr result (IsWriteDue (W.has_failed new.new)) }
    ensures same_stream { W.stream new.new ≡ W.stream new.old }
{
    match put(new, bytes) {
        Ok(()) => Ok(()),
        Err(WriteFailed) => Err(CheckFault::WriteCert),
    }
}
