// From the bytes of a file to the list of its items.
ghost use Rattle.std.specs.Prelude.{◌≡◌, true, IfOk, IfErr, IfSome, Ok, Err, Some};
ghost use Rattle.fzn_lexer.specs.Tokens.{EndsInEnd, Lexes};
ghost use Rattle.fzn_meaning.specs.WellFormed.{IsWellFormed};
ghost use Rattle.fzn_names.specs.Known.{known};
ghost use Rattle.fzn_names.specs.Positions.{first};
ghost use Rattle.fzn_parser.specs.Parse.{IsTree};
ghost use Rattle.fzn_reading.specs.declared.fault.ModelFault.TheVariants.{Read as Failed};
ghost use Rattle.fzn_reading.specs.Reads.{Answers};
ghost use Rattle.fzn_typing.specs.Faults.{faults_of, tree_names};
ghost use Rattle.fzn_typing.specs.Limits.{IsTreeWithin};
ghost use Rattle.fzn_typing.specs.Typed.{IsTyped};
ghost use Rattle.fzn_sources.specs.Items.{item_spans};
ghost use Rattle.fzn_items.specs.Listed.{IsFaultOrMemory, IsListing, IsListingFault, Itemizes};

use crate::list::{Listing, listing_of};
use fzn_lexer::{Fault, Halt, Span, TokenList, tokens};
use fzn_mending::{constant_goal, mended_tokens, mended_types};
use fzn_parser::parse;
use fzn_reading::{ModelFault, read_bytes, small_tokens, small_within_limits, within_limits};
use fzn_sources::items_of;
use fzn_streams::TrackedRead;
use fzn_tree::Tree;
use fzn_typing::{Named, type_check};
use std::alloc::{AllocError, Global};

/// The list of the items of the file that the reader has left, as it stands or mended. It answers `File` with the first fault of the file,
/// `Memory` where memory runs out, and `Read` only after a read that failed. After an error the reader stands anywhere.
pub fn read_listing<R: TrackedRead>(alloc: Global, input: &mut R) -> Result<Listing, ModelFault>
    ensures ok { IfOk result (λ listing. Itemizes (R.remaining input.old) listing.text.items listing.counts) }
    ensures err { IfErr result (λ fault. IfSome (R.remaining input.old) (λ bytes. Answers bytes (Err fault))) }
    ensures due { IfErr result (λ fault. fault ≡ Failed → R.has_failed input.new ≡ true) }
{
    let bytes = read_bytes(alloc, input)?;
    match listing_in(alloc, bytes.as_slice()) {
        Ok(listing) => Ok(listing),
        Err(Halt::Memory) => Err(ModelFault::Memory),
        Err(Halt::Fault(fault)) => Err(ModelFault::File(fault)),
    }
}

/// The list of the items of these bytes, or their first fault.
fn listing_in(alloc: Global, bytes: &[u8]) -> Result<Listing, Halt<Fault>>
    ensures ok { IfOk result (λ listing. IsListing bytes.now listing.text.items listing.counts) }
    ensures err { IfErr result (IsListingFault bytes.now) }
{
    let tokens = tokens(alloc, bytes)?;
    let tree = parse(alloc, &tokens)?;
    let items = items_of(alloc, &tokens)?;
    within_limits();
    match type_check(alloc, &tree) {
        Ok(named) => {
            let listing = own_in(alloc, bytes, &tokens, &tree, items.as_slice(), &named)?;
            Ok(listing)
        }
        Err(Halt::Memory) => Err(Halt::Memory),
        Err(Halt::Fault(fault)) => {
            mended_in(alloc, bytes, &tokens, &tree, items.as_slice(), fault)
        }
    }
}

/// The list of the items of these bytes, which state this model.
fn own_in(
    alloc: Global,
    bytes: &[u8],
    tokens: &TokenList<'_>,
    tree: &Tree,
    items: &[Span],
    named: &Named,
) -> Result<Listing, AllocError>
    requires lexed { Lexes bytes.now (Ok tokens.now) }
    requires parsed { IsTree tokens.now tree.now }
    requires items { items.now ≡ item_spans tokens.now }
    requires names { known named.now.names ≡ tree_names tree.now }
    requires within { IsTreeWithin tree.now }
    requires typed { IsTyped tree.now (Ok named.now.model) }
    requires well_formed { IsWellFormed named.now.model }
    ensures { IfOk result (λ listing. IsListing bytes.now listing.text.items listing.counts) }
{
    let listing = listing_of(alloc, bytes, tree, items, named, &[], None)?;
    Ok(listing)
}

/// The list of the items of these bytes mended, or else this fault of theirs as they stand.
fn mended_in(
    alloc: Global,
    bytes: &[u8],
    tokens: &TokenList<'_>,
    stated: &Tree,
    items: &[Span],
    fault: Fault,
) -> Result<Listing, Halt<Fault>>
    requires lexed { Lexes bytes.now (Ok tokens.now) }
    requires ends { EndsInEnd tokens.now }
    requires parsed { IsTree tokens.now stated.now }
    requires items { items.now ≡ item_spans tokens.now }
    requires faulty { first (faults_of stated.now) ≡ Some fault }
    ensures ok { IfOk result (λ listing. IsListing bytes.now listing.text.items listing.counts) }
    ensures err { IfErr result (IsFaultOrMemory fault) }
{
    let params = stated.params.as_slice();
    let told = mended_tokens(alloc, tokens, params)?;
    let tree = tree_or(alloc, &told, fault)?;
    small_tokens();
    small_within_limits();
    let named = named_or(alloc, &tree, fault)?;
    let types = mended_types(alloc, tokens, params)?;
    let goal = constant_goal(tokens, params);
    let listed = types.as_slice();
    let listing = listing_of(alloc, bytes, &tree, items, &named, listed, goal)?;
    Ok(listing)
}

/// The tree of the tokens, or else this fault.
fn tree_or(alloc: Global, tokens: &TokenList<'_>, fault: Fault) -> Result<Tree, Halt<Fault>>
    requires { EndsInEnd tokens.now }
    ensures ok { IfOk result (IsTree tokens.now) }
    ensures err { IfErr result (IsFaultOrMemory fault) }
{
    match parse(alloc, tokens) {
        Ok(tree) => Ok(tree),
        Err(Halt::Memory) => Err(Halt::Memory),
        Err(Halt::Fault(_)) => Err(Halt::Fault(fault)),
    }
}

/// The model of the tree with its names, or else this fault.
fn named_or(alloc: Global, tree: &Tree, fault: Fault) -> Result<Named, Halt<Fault>>
    requires { IsTreeWithin tree.now }
    ensures typed { IfOk result (λ named. IsTyped tree.now (Ok named.model)) }
    ensures names { IfOk result (λ named. known named.names ≡ tree_names tree.now) }
    ensures well_formed { IfOk result (λ named. IsWellFormed named.model) }
    ensures err { IfErr result (IsFaultOrMemory fault) }
{
    match type_check(alloc, tree) {
        Ok(named) => Ok(named),
        Err(Halt::Memory) => Err(Halt::Memory),
        Err(Halt::Fault(_)) => Err(Halt::Fault(fault)),
    }
}
