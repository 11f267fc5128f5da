// From the bytes of a file to its answer and its certificate.
ghost use Rattle.std.specs.Prelude.{◌≡◌, false, IfOk, IfErr, OnOk, option_map, string_bytes};
ghost use Rattle.fzn_meaning.specs.WellFormed.{IsWellFormed};
ghost use Rattle.fzn_cert.specs.Writer.{contents_of as cert_contents, cert_name, has_failed_in as cert_failed};
ghost use Rattle.fzn_printer.specs.Printer.{out_contents, out_name, out_failed};
ghost use Rattle.fzn_solver.specs.Answer.{wanted};
ghost use Rattle.fzn_solver.specs.Causes.{AreSameStreams, AreStreamsAsAtFirst};
ghost use Rattle.fzn_solver.specs.Opening.{opening_of, IsOpening};
ghost use Rattle.fzn_solver.specs.Searched.{IsAnswerOfEach, IsLeftOfEach, HasCauseOfEach};
ghost use Rattle.fzn_solver.specs.Standing.{is_alone};
ghost use Rattle.fzn_solver.specs.Told.{IsTold};
ghost use Rattle.fzn_solver.specs.Writers.{IsUnwritten, opening_in};
ghost use Rattle.fzn_solver.specs.Run.{IsRun, IsRunFault, IsDue};

use crate::choice::choice_for;
use crate::fault::RunFault;
use crate::ghost_list::{GhostList, Initial};
use crate::progress::{Observer, Progress};
use crate::writers::{Writers, is_alone};
use fzn_cert::StepWriter;
use fzn_domain::Memory;
use fzn_engine::{Limits, Report, solve};
use fzn_find::found;
use fzn_head::open_with;
use fzn_meaning::Model;
use fzn_options::Options;
use fzn_printer::Printer;
use fzn_propagator::Constraints;
use fzn_propagators::Propagators;
use fzn_reading::read_annotated;
use fzn_strategy::Annotation;
use fzn_streams::{TrackedRead, TrackedReader, TrackedWrite, TrackedWriter};
use std::alloc::Global;
use std::io::{Read, Write};

/// Solves a file: prints its answer on `out`, and writes a certificate of the answer on `cert`. The paths among the options are not looked
/// at. The line of a solution stands on the certificate, flushed, before the solution is printed, and the whole certificate before the line
/// that ends the answer. At first and after decisions and conflicts `observer` is told how far the search has come, last of as many
/// decisions as the report has. It hands on to `run_tracked`, which promises besides that each fault has its cause. It answers `File` with
/// the first fault of the file, and `Read` where a read fails: both writers are as before then. It answers `Memory` where memory runs out,
/// `WriteOutput` and `WriteCert` where a write or a flush fails, and `StepTooLong` where a line of the certificate would pass its limit:
/// beginnings of the answer and of the certificate may stand then.
pub fn run<R: Read + Drop, W: Write, C: Write, P: Observer>(
    alloc: Global,
    input: R,
    options: &Options,
    out: &mut W,
    cert: &mut C,
    observer: &mut P,
) -> Result<Report, RunFault>
    ensures ran { IfOk result (IsRun (R.remaining input) options.now (W.contents out.old) (W.contents out.new) (C.contents cert.old) (C.contents cert.new)) }
    ensures fault { IfErr result (IsRunFault (R.remaining input) options.now (W.contents out.old) (W.contents out.new) (C.contents cert.old) (C.contents cert.new)) }
    ensures told { IfOk result (λ report. IsTold (P.nodes observer.new) report.nodes) }
{
    let mut input = TrackedReader::new(input);
    let mut out = TrackedWriter::new(out);
    let mut cert = TrackedWriter::new(cert);
    run_tracked(alloc, &mut input, options, &mut out, &mut cert, observer)
}

/// Solves a file as `run` does, on streams that remember whether a call on them failed. On none of them may one have failed before: else a
/// fault could be answered of it without another failed call. So `Read` is answered only after a failed read, `WriteOutput` only after a
/// failed write or flush of `out`, and `WriteCert` only after one of `cert`; `StepTooLong` only where the line of a step would pass its
/// limit.
pub fn run_tracked<R: TrackedRead, W: TrackedWrite, C: TrackedWrite, P: Observer>(
    alloc: Global,
    input: &mut R,
    options: &Options,
    out: &mut W,
    cert: &mut C,
    observer: &mut P,
) -> Result<Report, RunFault>
    requires fresh { (R.has_failed input.old ≡ false) × (W.has_failed out.old ≡ false) × (C.has_failed cert.old ≡ false) }
    ensures ran { IfOk result (IsRun (R.remaining input.old) options.now (W.contents out.old) (W.contents out.new) (C.contents cert.old) (C.contents cert.new)) }
    ensures fault { IfErr result (IsRunFault (R.remaining input.old) options.now (W.contents out.old) (W.contents out.new) (C.contents cert.old) (C.contents cert.new)) }
    ensures due { IfErr result (IsDue (R.has_failed input.new) (W.has_failed out.new) (C.has_failed cert.new) options.now.derive (R.remaining input.old) (C.contents cert.old) (C.contents cert.new)) }
    ensures same_streams { (W.stream out.new ≡ W.stream out.old) × (C.stream cert.new ≡ C.stream cert.old) }
    ensures told { IfOk result (λ report. IsTold (P.nodes observer.new) report.nodes) }
{
    let read = read_annotated(alloc, input)?;
    let mut model = read.model;
    let opening = opened(alloc, &mut model, options.derive)?;
    let mut propagators = Propagators::new(alloc, &model)?;
    write_answer(
        alloc,
        &model,
        read.annotations.as_slice(),
        &mut propagators,
        &opening,
        options,
        out,
        cert,
        observer,
    )
}

/// Searches a model, with these lines in front of the steps if there are any, for the answer of each one in whose place it may be that this
/// one is searched.
fn write_answer<W: TrackedWrite, C: TrackedWrite, P: Observer>(
    alloc: Global,
    model: &Model,
    annotations: &[Annotation],
    propagators: &mut Propagators,
    opening: &Option<String>,
    options: &Options,
    out: &mut W,
    cert: &mut C,
    observer: &mut P,
) -> Result<Report, RunFault>
    requires model { IsWellFormed model.now }
    requires propagators { ⟦<Propagators as Constraints>⟧.is_for propagators.old model.now }
    requires fresh { (W.has_failed out.old ≡ false) × (C.has_failed cert.old ≡ false) }
    ensures answer { IfOk result (IsAnswerOfEach options.now model.now (opening_of model.now (option_map string_bytes opening.now)) (W.contents out.old) (W.contents out.new) (C.contents cert.old) (C.contents cert.new)) }
    ensures left { IfErr result (IsLeftOfEach options.now model.now (opening_of model.now (option_map string_bytes opening.now)) (W.contents out.old) (W.contents out.new) (C.contents cert.old) (C.contents cert.new)) }
    ensures cause { IfErr result (HasCauseOfEach (W.has_failed out.new) (C.has_failed cert.new) options.now model.now (opening_of model.now (option_map string_bytes opening.now)) (C.contents cert.old) (C.contents cert.new)) }
    ensures same_streams { (W.stream out.new ≡ W.stream out.old) × (C.stream cert.new ≡ C.stream cert.old) }
    ensures told { IfOk result (λ report. IsTold (P.nodes observer.new) report.nodes) }
{
    let mut last = None;
    let first_out = Initial::of(&*out);
    let first_cert = Initial::of(&*cert);
    let mut writers = Writers {
        cert: StepWriter::over(cert),
        out: Printer::new(out),
        opening,
        alone: is_alone(model.goal, options.all),
        last: &mut last,
        stopped: None,
        taken: GhostList::new(),
        first_out,
        first_cert,
        observer,
        progress: Progress::default(),
    };
    search(
        alloc,
        model,
        annotations,
        propagators,
        options,
        &mut writers,
    )
}

/// Puts constraints that are derived from the model's own behind them, where that is asked for, and returns the lines that derive them;
/// `None` where there are none, and the model is as it was.
fn opened(alloc: Global, model: &mut Model, derive: bool) -> Result<Option<String>, Memory>
    requires { IsWellFormed model.old }
    ensures opening { IfOk result (λ lines. IsOpening derive model.old model.new (opening_of model.new (option_map string_bytes lines))) }
    ensures formed { OnOk result (IsWellFormed model.new) }
{
    if !derive {
        return Ok(None);
    }
    let derivations = found(alloc, model)?;
    open_with(alloc, model, derivations.as_slice())
}

/// Searches a model for the answer of each one in whose place it may be that this one is searched, on fresh writers.
fn search<W: TrackedWrite, C: TrackedWrite, P: Observer>(
    alloc: Global,
    model: &Model,
    annotations: &[Annotation],
    propagators: &mut Propagators,
    options: &Options,
    writers: &mut Writers<'_, '_, '_, '_, W, C, P>,
) -> Result<Report, RunFault>
    requires model { IsWellFormed model.now }
    requires propagators { ⟦<Propagators as Constraints>⟧.is_for propagators.old model.now }
    requires fresh { IsUnwritten W.contents C.contents writers.old }
    requires at_first { AreStreamsAsAtFirst W.stream C.stream writers.old }
    requires alone { writers.old.alone ≡ is_alone model.now.goal options.now.all }
    ensures answer { IfOk result (IsAnswerOfEach options.now model.now (opening_in model.now writers.old) (out_contents W.contents writers.old.out) (out_contents W.contents writers.new.out) (cert_contents C.contents writers.old.cert) (cert_contents C.contents writers.new.cert)) }
    ensures left { IfErr result (IsLeftOfEach options.now model.now (opening_in model.now writers.old) (out_contents W.contents writers.old.out) (out_contents W.contents writers.new.out) (cert_contents C.contents writers.old.cert) (cert_contents C.contents writers.new.cert)) }
    ensures cause { IfErr result (HasCauseOfEach (out_failed W.has_failed writers.new.out) (cert_failed C.has_failed writers.new.cert) options.now model.now (opening_in model.now writers.old) (cert_contents C.contents writers.old.cert) (cert_contents C.contents writers.new.cert)) }
    ensures same_streams { AreSameStreams W.stream C.stream writers.old writers.new }
    ensures same_out { out_name writers.new.out ≡ out_name writers.old.out }
    ensures same_cert { cert_name writers.new.cert ≡ cert_name writers.old.cert }
    ensures same_observer { writers.new.observer.ghost_name ≡ writers.old.observer.ghost_name }
    ensures told { IfOk result (λ report. IsTold (P.nodes writers.new.observer.now) report.nodes) }
{
    writers.begin(alloc, model)?;
    let limits = Limits {
        nodes: options.nodes,
        solutions: wanted(options.all, options.limit),
    };
    let report = match solve(
        alloc,
        model,
        limits,
        options.learn,
        choice_for(options),
        annotations,
        propagators,
        writers,
    ) {
        Ok(report) => report,
        Err(_) => return Err(writers.fault().into()),
    };
    writers.close(model, report.ending)?;
    Ok(report)
}

/// How many solutions are wanted at most, in satisfaction.
fn wanted(all: bool, limit: Option<u64>) -> Option<u64>
    ensures { result ≡ wanted all limit }
{
    match limit {
        Some(limit) => Some(limit.max(1)),
        None => { if all { None } else { Some(1) } }
    }
}
