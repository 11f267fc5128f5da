// The bytes of a file.

ghost use Rattle.std.specs.Prelude.{◌≡◌, ◌⊎◌, true, IfOk, IfErr, IfSome};
ghost use Rattle.fzn_reading.specs.declared.fault.ModelFault.TheVariants.{Memory, Read as Failed};
ghost use Rattle.fzn_reading.specs.Reads.{IsEnoughOf};

use crate::fault::ModelFault;
use fzn_lexer::MAX_FILE;
use fzn_streams::TrackedRead;
use std::alloc::Global;

/// How many bytes one read asks for.
const CHUNK_LEN: usize = 16_384;

/// All bytes that the reader has left, or more of them than a file may have. It answers `Memory` where memory runs out, and `Read` only
/// after a read that failed. After an error the reader stands anywhere.
pub fn read_bytes<R: TrackedRead>(alloc: Global, input: &mut R) -> Result<Vec<u8>, ModelFault>
    ensures bytes { IfOk result (λ bytes. IfSome (R.remaining input.old) (λ whole. IsEnoughOf whole bytes.items)) }
    ensures err { IfErr result (λ fault. (fault ≡ Memory) ⊎ (fault ≡ Failed)) }
    ensures due { IfErr result (λ fault. fault ≡ Failed → R.has_failed input.new ≡ true) }
{
    let mut bytes = Vec::new(alloc);
    let mut chunk = [0; CHUNK_LEN];
    'reads: while bytes.len() <= MAX_FILE {
        let Ok(count) = input.read_some(&mut chunk) else {
            return Err(ModelFault::Read);
        };
        if count == 0 {
            return Ok(bytes);
        }
        bytes
            .extend_from_slice(&chunk[..count])
            .map_err(|_| ModelFault::Memory)?;
    }
    Ok(bytes)
}
