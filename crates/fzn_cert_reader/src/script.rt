// Steps that are held as the text of their lines.
ghost use Rattle.std.specs.Prelude.{◌≡◌, ◌-◌, ◌<◌, ◌≤◌, ◌∷◌, [], ◌++◌, length, slice_get, slice_index, slice_range, Some, None, IfOk, IfSome, OnOk, OnErr, IfNone};
ghost use Rattle.fzn_cert.specs.declared.step.Step.{Step};
ghost use Rattle.fzn_cert.specs.declared.step.Version.TheVariants.{Two};
ghost use Rattle.fzn_cert.specs.Spelling.{step_text, IsSpelled};
ghost use Rattle.fzn_cert.specs.Reading.{step_of};
ghost use Rattle.fzn_cert.specs.Verdict.{lines_of};

use fzn_cert::{Step, Version, push_step};
use fzn_cert_line::read_line;
use fzn_domain::Memory;
use std::alloc::{AllocError, Global};
use std::marker::Model;

/// Steps that version 2 spells, in order, which contracts see as their list. They are held as the text of their lines, which takes a
/// fraction of their room, and are read again one by one.
#[derive(Drop)]
pub struct Script {
    /// Each line with its line feed.
    text: Vec<u8>,
    /// Where each line ends, behind its line feed.
    ends: Vec<usize>,
}

impl Model for Script {
    ghost use Rattle.std.specs.Prelude.{List};
    ghost use Rattle.fzn_cert.specs.declared.step.Step.{Step};
    ghost use Rattle.fzn_cert_reader.specs.Script.{steps_spelled, IsScript};

    ghost Value = { List Step };

    ghost view = { λ it. steps_spelled it.text.items it.ends.items };

    ghost invariant = { λ it. IsScript it.text.items it.ends.items (steps_spelled it.text.items it.ends.items) };
}

impl Script {
    /// No step.
    pub fn new(alloc: Global) -> Script
        ensures { result ≡ [] }
    {
        Script {
            text: Vec::new(alloc),
            ends: Vec::new(alloc),
        }
    }

    /// How many steps there are.
    pub fn len(&self) -> usize
        ensures { result ≡ length self.now }
    {
        self.ends.len()
    }

    /// Puts the step at the end. It answers `Err` where memory runs out, and the steps are as before.
    pub fn push(&mut self, alloc: Global, step: &Step) -> Result<(), Memory>
        requires { IsSpelled Two step.now }
        ensures ok { OnOk result (self.new ≡ self.old ++ step.now ∷ []) }
        ensures err { OnErr result (self.new ≡ self.old) }
    {
        let mut line = String::new(alloc);
        push_step(&mut line, step)?;
        line.push_str("\n")?;
        let before = self.text.len();
        self.text.extend_from_slice(line.as_bytes())?;
        match self.ends.push(self.text.len()) {
            Ok(()) => Ok(()),
            Err(_) => {
                self.text.truncate(before);
                Err(AllocError)
            }
        }
    }

    /// The step at this place, counted from 0, and none behind the last. It answers `Err` where memory runs out.
    pub fn get(&self, alloc: Global, place: usize) -> Result<Option<Step>, Memory>
        ensures value { IfOk result (λ found. found ≡ slice_get self.now place) }
        ensures spelled { IfOk result (λ found. IfSome found (IsSpelled Two)) }
    {
        match self.line(place) {
            None => Ok(None),
            Some(line) => read_line(alloc, line, Version::Two),
        }
    }

    /// The line of the step at this place, without its line feed, and none behind the last.
    pub fn line(&self, place: usize) -> Option<&[u8]>
        ensures some { IfSome result (λ line. step_of Two line.now ≡ slice_get self.now place) }
        ensures text { IfSome result (λ line. (step : Step) × (slice_get self.now place ≡ Some step) × (line.now ≡ step_text step)) }
        ensures none { IfNone result (slice_get self.now place ≡ None) }
    {
        let end = *self.ends.get(place)?;
        let start = start_of(self.ends.as_slice(), place);
        Some(line_between(&self.text, start, end))
    }

    /// The lines of all steps, each with its line feed.
    pub fn text(&self) -> &[u8]
        ensures { result.now ≡ lines_of self.now }
    {
        self.text.as_slice()
    }
}

/// The line that begins and ends there, without its line feed.
fn line_between(text: &[u8], start: usize, end: usize) -> &[u8]
    requires forth { start < end }
    requires within { end ≤ length text.now }
    ensures { result.now ≡ slice_range text.now start (end - 1) }
{
    &text[start..end - 1]
}

/// Where the line at this place begins.
fn start_of(ends: &[usize], place: usize) -> usize
    requires { place < length ends.now }
    ensures { result ≡ slice_index (0 ∷ ends.now) place }
{
    if place == 0 { 0 } else { ends[place - 1] }
}
