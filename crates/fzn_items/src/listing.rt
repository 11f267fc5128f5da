// The items of a file listed from its bytes, and printed.
ghost use Rattle.std.specs.Prelude.{◌≡◌, false, IfOk, IfErr};
ghost use Rattle.fzn_items.specs.Itemized.{IsItemized, IsItemsFault, IsItemsDue};

use crate::counts::Counts;
use crate::put::put_all;
use crate::read::read_listing;
use fzn_checker::CheckFault;
use fzn_streams::{TrackedRead, TrackedReader, TrackedWrite, TrackedWriter, WriteFailed};
use std::alloc::Global;
use std::io::{Read, Write};

/// Prints what a file declares, states and asks for, one line each, with the bytes of the item where it stands: the parameters, the variables
/// and arrays of variables, the constraints by their numbers, the search annotations that a search follows, the goal, and how many of each
/// there are.
///
/// Nothing is printed before the file is read whole, nor where it answers `File` with the first fault of the file, `Memory` where memory
/// runs out, or `Read` where a read fails. It answers `WriteOutput` where a write or the flush of `out` fails, and a beginning of the text
/// stands then.
pub fn items<R: Read + Drop, W: Write>(
    alloc: Global,
    file: R,
    out: &mut W,
) -> Result<Counts, CheckFault>
    ensures ok { IfOk result (IsItemized (R.remaining file) (W.contents out.old) (W.contents out.new)) }
    ensures err { IfErr result (IsItemsFault (R.remaining file) (W.contents out.old) (W.contents out.new)) }
{
    let mut file = TrackedReader::new(file);
    let mut out = TrackedWriter::new(out);
    items_tracked(alloc, &mut file, &mut out)
}

/// Lists as `items` does, on streams that remember whether a call on them failed. On neither may one have failed before: else a fault could
/// be answered of it without another failed call. So `Read` is answered only after a failed read of the file, and `WriteOutput` only after a
/// failed write or flush of `out`. Its faults are those of `items`.
pub fn items_tracked<R: TrackedRead, W: TrackedWrite>(
    alloc: Global,
    file: &mut R,
    out: &mut W,
) -> Result<Counts, CheckFault>
    requires fresh { (R.has_failed file.old ≡ false) × (W.has_failed out.old ≡ false) }
    ensures ok { IfOk result (IsItemized (R.remaining file.old) (W.contents out.old) (W.contents out.new)) }
    ensures err { IfErr result (IsItemsFault (R.remaining file.old) (W.contents out.old) (W.contents out.new)) }
    ensures due { IfErr result (IsItemsDue (R.has_failed file.new) (W.has_failed out.new)) }
    ensures same_stream { W.stream out.new ≡ W.stream out.old }
{
    let listing = read_listing(alloc, file)?;
    match put_all(out, listing.text.as_slice()) {
        Ok(()) => Ok(listing.counts),
        Err(WriteFailed) => Err(CheckFault::WriteOutput),
    }
}
