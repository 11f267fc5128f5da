// The words of a line, and lists of items among them.
ghost use Rattle.std.specs.Prelude.{◌≡◌, ℕ, List, Option, IfOk};
ghost use Rattle.std.specs.Option.{option_map};
ghost use Rattle.fzn_cert.specs.Words.{items_of, items_before_mark};
ghost use Rattle.fzn_cert.specs.Reading.{words_of};

use bstr::{ByteSlice, Split};
use fzn_domain::Memory;
use fzn_list::Items;
use std::alloc::Global;

/// What one word of a line may spell.
pub trait Item: Drop {
    // The item that a word spells.
    ghost item_of: { List ℕ → Option Self };

    fn of_word(word: &[u8]) -> Option<Self>
    where
        Self: Sized,
        ensures { result ≡ item_of word.now };
}

/// The words of a line in order, parted by each space: there is one word more than spaces, and a word may be empty.
pub fn words_of(line: &[u8]) -> Split<'_, 'static>
    ensures { result ≡ words_of line.now }
{
    line.split_str(b" ")
}

/// The items that all the words spell.
pub fn items_of<T: Item>(
    alloc: Global,
    mut words: Split<'_, '_>,
) -> Result<Option<Items<T>>, Memory>
    ensures { IfOk result (λ found. found ≡ items_of T.item_of words.entry) }
{
    let mut items = Items::new(alloc);
    while let Some(word) = words.next() {
        match T::of_word(word) {
            Some(item) => items.push(item)?,
            None => return Ok(None),
        }
    }
    Ok(Some(items))
}

/// The items before the mark `;`, which is taken too.
pub fn items_before_mark<T: Item>(
    alloc: Global,
    words: &mut Split<'_, '_>,
) -> Result<Option<Items<T>>, Memory>
    ensures { IfOk result (λ found. option_map (λ items. (items, words.new)) found ≡ items_before_mark T.item_of words.old) }
{
    let mut items = Items::new(alloc);
    while let Some(word) = words.next() {
        if word == b";".as_slice() {
            return Ok(Some(items));
        }
        match T::of_word(word) {
            Some(item) => items.push(item)?,
            None => return Ok(None),
        }
    }
    Ok(None)
}
