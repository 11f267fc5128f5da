// The first two lines.
ghost use Rattle.std.specs.Prelude.{◌≡◌, IfSome, IfNone};
ghost use Rattle.fzn_cert.specs.Spelling.{version_text, counts_text, IsSized};
ghost use Rattle.fzn_cert.specs.Stream.{IsVersionText, IsCountsText};
ghost use Rattle.fzn_cert.specs.Reading.{words_of, counts_of};
ghost use Rattle.fzn_head.specs.Head.{head_counts, head_of_words, IsSizedHead, IsFirstText, IsHeadCountsText};
ghost use Rattle.fzn_cert_reader.specs.First.{first_text};

use fzn_cert::Version;
use fzn_cert_line::{natural_of, words_of};
use fzn_head::Head;

/// What a first line says.
#[derive(Clone, Copy, Debug, PartialEq, Eq)]
pub enum FirstLine {
    /// Version one or two: the counts of a model come next, and then steps.
    Early(Version),
    /// Version three: a head comes next.
    Third,
}

/// The version that the first line says, without its line feed.
pub fn version_of_line(line: &[u8]) -> Option<Version>
    ensures found { IfSome result (λ version. line.now ≡ version_text version) }
    ensures none { IfNone result (IsVersionText line.now → ⊥) }
{
    if line == b"fzc 1".as_slice() {
        Some(Version::One)
    } else if line == b"fzc 2".as_slice() {
        Some(Version::Two)
    } else {
        None
    }
}

/// How many variables and constraints the second line says, without its line feed.
pub fn counts_of_line(line: &[u8]) -> Option<(u64, u64)>
    ensures found { IfSome result (λ counts. (line.now ≡ counts_text counts.0 counts.1) × (IsSized counts.0 × IsSized counts.1)) }
    ensures none { IfNone result (IsCountsText line.now → ⊥) }
{
    read_counts(line)
}

#[tactic(auto, unfolding(fzn_cert::specs::Reading::counts_of))]
fn read_counts(line: &[u8]) -> Option<(u64, u64)>
    ensures { result ≡ counts_of (words_of line.now) }
{
    let mut words = words_of(line);
    let first = words.next()?;
    let variables = words.next()?;
    let third = words.next()?;
    let constraints = words.next()?;
    if words.next().is_some() {
        return None;
    }
    if first == b"vars".as_slice() && third == b"cons".as_slice() {
        let variables = natural_of(variables)?;
        let constraints = natural_of(constraints)?;
        Some((variables, constraints))
    } else {
        None
    }
}

/// What a first line says, without its line feed.
pub fn first_of_line(line: &[u8]) -> Option<FirstLine>
    ensures found { IfSome result (λ first. line.now ≡ first_text first) }
    ensures none { IfNone result (IsFirstText line.now → ⊥) }
{
    if line == b"fzc 3".as_slice() {
        return Some(FirstLine::Third);
    }
    let version = version_of_line(line)?;
    Some(FirstLine::Early(version))
}

/// What the second line of version three says, without its line feed.
pub fn head_of_line(line: &[u8]) -> Option<Head>
    ensures found { IfSome result (λ head. (line.now ≡ head_counts head) × IsSizedHead head) }
    ensures none { IfNone result (IsHeadCountsText line.now → ⊥) }
{
    read_head(line)
}

#[tactic(auto, unfolding(fzn_head::specs::Head::head_of_words))]
fn read_head(line: &[u8]) -> Option<Head>
    ensures { result ≡ head_of_words (words_of line.now) }
{
    let mut words = words_of(line);
    let first = words.next()?;
    let variables = words.next()?;
    let third = words.next()?;
    let constraints = words.next()?;
    let fifth = words.next()?;
    let derived = words.next()?;
    if words.next().is_some() {
        return None;
    }
    if first == b"vars".as_slice() && third == b"cons".as_slice() && fifth == b"new".as_slice() {
        let variables = natural_of(variables)?;
        let constraints = natural_of(constraints)?;
        let derived = natural_of(derived)?;
        Some(Head {
            variables,
            constraints,
            derived,
        })
    } else {
        None
    }
}
