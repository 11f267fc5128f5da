// From the bytes of a file to its model and the items of its constraints.
ghost use Rattle.std.specs.Prelude.{◌≡◌, true, Ok, IfOk, IfErr, IfSome};
ghost use Rattle.fzn_meaning.specs.WellFormed.{IsWellFormed};
ghost use Rattle.fzn_reading.specs.declared.fault.ModelFault.TheVariants.{Read as Failed};
ghost use Rattle.fzn_reading.specs.Reads.{Answers, Reads};
ghost use Rattle.fzn_sources.specs.Items.{AreSources};
ghost use Rattle.fzn_sources.specs.Files.{model_stated, model_located};

use crate::item::items_of;
use crate::source::sources_of;
use fzn_lexer::{Fault, Halt, Span, tokens};
use fzn_meaning::Model;
use fzn_parser::parse;
use fzn_reading::{ModelFault, read_bytes, within_limits};
use fzn_streams::TrackedRead;
use fzn_typing::type_check;
use std::alloc::Global;

/// A file's model, and the items that state its constraints.
#[derive(Drop)]
pub struct Stated {
    /// The model that the file states, which is well formed.
    pub model: Model,
    /// For each constraint of the model, in order, the item that states it.
    pub sources: Vec<Span>,
}

/// A file with its model.
#[derive(Drop)]
pub struct Located {
    /// The bytes of the file.
    pub bytes: Vec<u8>,
    /// What it asks.
    pub model: Model,
    /// For each constraint of the model the item that states it.
    pub sources: Vec<Span>,
}

/// The file that the reader has left, with its model as `read_model` of `fzn_reading` reads it. It answers `File` with the first fault of the
/// file, `Memory` where memory runs out, and `Read` only after a read that failed. After an error the reader stands anywhere.
pub fn read_located<R: TrackedRead>(alloc: Global, input: &mut R) -> Result<Located, ModelFault>
    ensures right { IfSome (R.remaining input.old) (λ bytes. Answers bytes (model_located result)) }
    ensures bytes { IfOk result (λ file. IfSome (R.remaining input.old) (λ bytes. bytes ≡ file.bytes.items)) }
    ensures reads { IfOk result (λ file. Reads file.bytes.items (Ok file.model)) }
    ensures sources { IfOk result (λ file. AreSources file.bytes.items file.model.constraints file.sources.items) }
    ensures well_formed { IfOk result (λ file. IsWellFormed file.model) }
    ensures due { IfErr result (λ fault. fault ≡ Failed → R.has_failed input.new ≡ true) }
{
    let bytes = read_bytes(alloc, input)?;
    match stated_in(alloc, bytes.as_slice()) {
        Ok(file) => Ok(Located {
            bytes,
            model: file.model,
            sources: file.sources,
        }),
        Err(Halt::Memory) => Err(ModelFault::Memory),
        Err(Halt::Fault(fault)) => Err(ModelFault::File(fault)),
    }
}

/// The model that these bytes state, with the item that states each of its constraints. It answers `Fault` with the first fault of the bytes,
/// and `Memory` where memory runs out.
pub fn stated_in(alloc: Global, bytes: &[u8]) -> Result<Stated, Halt<Fault>>
    ensures right { Reads bytes.now (model_stated result) }
    ensures sources { IfOk result (λ file. AreSources bytes.now file.model.constraints file.sources.items) }
    ensures well_formed { IfOk result (λ file. IsWellFormed file.model) }
{
    let (tree, items) = {
        let tokens = tokens(alloc, bytes)?;
        let tree = parse(alloc, &tokens)?;
        let items = items_of(alloc, &tokens)?;
        (tree, items)
    };
    within_limits();
    let named = type_check(alloc, &tree)?;
    let sources = sources_of(alloc, &tree, items.as_slice())?;
    Ok(Stated {
        model: named.model,
        sources,
    })
}
