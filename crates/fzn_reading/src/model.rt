//! From bytes to a model.

ghost use Rattle.std.specs.Prelude.{◌≡◌, true, IfOk, IfErr, IfSome};
ghost use Rattle.fzn_meaning.specs.WellFormed.{IsWellFormed};
ghost use Rattle.fzn_reading.specs.declared.fault.ModelFault.TheVariants.{Read as Failed};
ghost use Rattle.fzn_reading.specs.Reads.{Answers};

use crate::fault::ModelFault;
use crate::file::read_file;
use fzn_meaning::Model;
use fzn_streams::TrackedRead;
use std::alloc::Global;

/// The model of the file that the reader has left (MiniZinc Handbook, FlatZinc). It answers `File` with the first fault of the file,
/// `Memory` where memory runs out, and `Read` only after a read that failed. After an error the reader stands anywhere.
pub fn read_model<R: TrackedRead>(alloc: Global, input: &mut R) -> Result<Model, ModelFault>
    ensures right { IfSome (R.remaining input.old) (λ bytes. Answers bytes result) }
    ensures well_formed { IfOk result IsWellFormed }
    ensures due { IfErr result (λ fault. fault ≡ Failed → R.has_failed input.new ≡ true) }
{
    let file = read_file(alloc, input)?;
    Ok(file.model)
}
