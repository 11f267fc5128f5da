ghost use Rattle.std.specs.Prelude.{◌≡◌};
ghost use Rattle.fzn_options.specs.Words.{learning_of};

use fzn_strategy::Learn;

/// What a word says is learned.
pub fn learning_of(word: &str) -> Option<Learn>
    ensures { result ≡ learning_of word.now }
{
    if word == "plain" {
        Some(Learn::Plain)
    } else if word == "first" {
        Some(Learn::First)
    } else {
        None
    }
}
