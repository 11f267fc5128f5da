//! From bytes to a model with its search annotations.

ghost use Rattle.std.specs.Prelude.{◌≡◌, true, IfOk, IfErr, IfSome};
ghost use Rattle.fzn_meaning.specs.WellFormed.{IsWellFormed};
ghost use Rattle.fzn_reading.specs.Files.{model_read};
ghost use Rattle.fzn_reading.specs.declared.fault.ModelFault.TheVariants.{Read as Failed};
ghost use Rattle.fzn_reading.specs.Reads.{Answers};

use crate::fault::ModelFault;
use crate::file::read_file;
use crate::taken::annotations_of;
use fzn_meaning::Model;
use fzn_strategy::Annotation;
use fzn_streams::TrackedRead;
use std::alloc::Global;

/// A model, and what its file asks of a search.
#[derive(Drop)]
pub struct Annotated {
    /// What the file asks.
    pub model: Model,
    /// The search annotations of its solve item, in order.
    pub annotations: Vec<Annotation>,
}

/// The model of the file that the reader has left, with the search annotations. It answers `File` with the first fault of the file,
/// `Memory` where memory runs out, and `Read` only after a read that failed. After an error the reader stands anywhere.
pub fn read_annotated<R: TrackedRead>(alloc: Global, input: &mut R) -> Result<Annotated, ModelFault>
    ensures right { IfSome (R.remaining input.old) (λ bytes. Answers bytes (model_read result)) }
    ensures well_formed { IfOk result (λ read. IsWellFormed read.model) }
    ensures due { IfErr result (λ fault. fault ≡ Failed → R.has_failed input.new ≡ true) }
{
    let file = read_file(alloc, input)?;
    let anns = file.tree.solve.anns.as_slice();
    let Ok(annotations) = annotations_of(alloc, &file.names, file.model.vars.len(), anns) else {
        return Err(ModelFault::Memory);
    };
    Ok(Annotated {
        model: file.model,
        annotations,
    })
}
