//! From bytes to what a file says.

ghost use Rattle.std.specs.Prelude.{◌≡◌, true, IfOk, IfErr, IfSome};
ghost use Rattle.fzn_meaning.specs.WellFormed.{IsWellFormed};
ghost use Rattle.fzn_reading.specs.Files.{file_model, model_told};
ghost use Rattle.fzn_reading.specs.declared.fault.ModelFault.TheVariants.{Read as Failed};
ghost use Rattle.fzn_reading.specs.Reads.{Answers, Reads};

use crate::fault::ModelFault;
use crate::input::read_bytes;
use fzn_lexer::{Fault, Halt, tokens};
use fzn_meaning::Model;
use fzn_names::Names;
use fzn_parser::parse;
use fzn_streams::TrackedRead;
use fzn_tree::Tree;
use fzn_typing::type_check;
use std::alloc::Global;

/// The tree of a file, its model, and what its names stand for.
#[derive(Drop)]
pub struct File {
    /// What stands in the file.
    pub tree: Tree,
    /// What it asks, which is well formed.
    pub model: Model,
    /// What each declared name stands for.
    pub names: Names,
}

/// What these bytes say, or their first fault.
fn file_of(alloc: Global, bytes: &[u8]) -> Result<File, Halt<Fault>>
    ensures right { Reads bytes.now (file_model result) }
    ensures well_formed { IfOk result (λ file. IsWellFormed file.model) }
{
    let tree = {
        let tokens = tokens(alloc, bytes)?;
        parse(alloc, &tokens)?
    };
    let named = type_check(alloc, &tree)?;
    Ok(File {
        tree,
        model: named.model,
        names: named.names,
    })
}

/// What the file says that the reader has left. After an error the reader stands anywhere, and the fault `Read` is answered only
/// after a read that failed.
pub fn read_file<R: TrackedRead>(alloc: Global, input: &mut R) -> Result<File, ModelFault>
    ensures right { IfSome (R.remaining input.old) (λ bytes. Answers bytes (model_told result)) }
    ensures well_formed { IfOk result (λ file. IsWellFormed file.model) }
    ensures due { IfErr result (λ fault. fault ≡ Failed → R.has_failed input.new ≡ true) }
{
    let bytes = read_bytes(alloc, input)?;
    match file_of(alloc, bytes.as_slice()) {
        Ok(file) => Ok(file),
        Err(Halt::Memory) => Err(ModelFault::Memory),
        Err(Halt::Fault(fault)) => Err(ModelFault::File(fault)),
    }
}
