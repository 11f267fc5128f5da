// Writers that are given by the first write.
ghost use Rattle.std.specs.Prelude.{◌≡◌, ℕ, List, Option, None, IsOk, IsSome, IfOk, IfSome, OnOk};
ghost use Rattle.std.specs.Io.KnownBytes.{Keeps};

use std::io;
use std::io::Write;

/// What gives a writer, once there is something to write.
pub trait Target<W: Write + Drop> {
    /// The bytes that the writer is to hold when it is given, where they are known.
    ghost held: { Self → Option (List ℕ) } = { λ _. None };

    /// Gives the writer. It may be asked again after an `Err`.
    fn open(&mut self) -> io::Result<W>
        ensures ok { IfOk result (λ out. Keeps (held self.old) (W.contents out)) }
        ensures kept { Keeps (held self.old) (held self.new) };
}

/// A writer that its target gives at the first write, and not before.
#[derive(Drop)]
pub struct LateWriter<W: Write + Drop, T: Target<W>> {
    target: T,
    out: Option<W>,
}

impl<W: Write + Drop, T: Target<W>> LateWriter<W, T> {
    ghost use Rattle.fzn_paths.specs.Late.{target_of, given_writer, known_bytes};

    /// Nothing was given yet.
    pub fn new(target: T) -> LateWriter<W, T>
        ensures target { target_of result ≡ target }
        ensures out { given_writer result ≡ None }
    {
        LateWriter { target, out: None }
    }

    /// Asks the target for the writer, if it has not given it yet.
    pub fn open(&mut self) -> io::Result<()>
        ensures ok { OnOk result (IsSome (given_writer self.new)) }
        ensures kept { Keeps (known_bytes T.held W.contents self.old) (known_bytes T.held W.contents self.new) }
        ensures once { IfSome (given_writer self.old) (λ _. IsOk result × (self.new ≡ self.old)) }
    {
        if self.out.is_none() {
            self.out = Some(self.target.open()?);
        }
        Ok(())
    }
}

impl<W: Write + Drop, T: Target<W>> Write for LateWriter<W, T> {
    ghost use Rattle.fzn_paths.specs.Late.{known_bytes};

    ghost contents = { λ writer. known_bytes T.held W.contents writer };

    fn write(&mut self, bytes: &[u8]) -> io::Result<usize> {
        self.open()?;
        match &mut self.out {
            Some(out) => out.write(bytes),
            None => unreachable!(),
        }
    }

    fn flush(&mut self) -> io::Result<()> {
        match &mut self.out {
            Some(out) => out.flush(),
            None => Ok(()),
        }
    }
}
