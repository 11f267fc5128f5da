// The form of an annotation as it is written.
use fzn_list::Items;
use fzn_strategy::{ValueChoice, VarChoice};
use fzn_tree::{Ann, AnnArg, AnnTerm};

/// `int_search` or `bool_search`, with the variables as they are written.
#[derive(Clone, Copy)]
pub struct Search<'a> {
    /// The first argument, which is an array of variables or the name of one.
    pub vars: &'a AnnArg<Ann>,
    /// Which variable is decided next.
    pub var_choice: VarChoice,
    /// Which of its values are tried first.
    pub value_choice: ValueChoice,
}

/// `seq_search` with its list, a search, or something else.
#[derive(Clone, Copy)]
pub enum Written<'a> {
    Sequence(&'a [AnnTerm<Ann>]),
    Search(Search<'a>),
    Other,
}

/// What is written.
pub fn written_in(ann: &Ann) -> Written<'_> {
    let Some(args) = &ann.args else {
        return Written::Other;
    };
    let name = ann.name.text.as_slice();
    if name == b"seq_search".as_slice() {
        return sequence_of(args.as_slice());
    }
    if name == b"int_search".as_slice() || name == b"bool_search".as_slice() {
        return search_of(args.as_slice());
    }
    Written::Other
}

fn sequence_of(args: &[AnnArg<Ann>]) -> Written<'_> {
    match args {
        [AnnArg::List(terms)] => Written::Sequence(terms.as_slice()),
        _ => Written::Other,
    }
}

fn search_of(args: &[AnnArg<Ann>]) -> Written<'_> {
    match args {
        [vars, var_choice, value_choice] => chosen(vars, var_choice, value_choice),
        [vars, var_choice, value_choice, last] if is_complete(last) => {
            chosen(vars, var_choice, value_choice)
        }
        _ => Written::Other,
    }
}

fn chosen<'a>(
    vars: &'a AnnArg<Ann>,
    var_choice: &AnnArg<Ann>,
    value_choice: &AnnArg<Ann>,
) -> Written<'a> {
    match (
        var_choice_of(word_of(var_choice)),
        value_choice_of(word_of(value_choice)),
    ) {
        (Some(var_choice), Some(value_choice)) => Written::Search(Search {
            vars,
            var_choice,
            value_choice,
        }),
        _ => Written::Other,
    }
}

/// The name that stands alone, else nothing.
pub fn name_alone(term: &AnnTerm<Ann>) -> Option<&Ann> {
    match term {
        AnnTerm::Ann(ann) if has_no_args(&ann.args) => Some(ann),
        _ => None,
    }
}

fn has_no_args(args: &Option<Items<AnnArg<Ann>>>) -> bool {
    match args {
        None => true,
        Some(args) => args.as_slice().is_empty(),
    }
}

/// The word of a name that stands alone, else no letter.
fn word_of(arg: &AnnArg<Ann>) -> &[u8] {
    match arg {
        AnnArg::One(term) => match name_alone(term) {
            Some(ann) => ann.name.text.as_slice(),
            None => &[],
        },
        AnnArg::List(_) => &[],
    }
}

fn is_complete(arg: &AnnArg<Ann>) -> bool {
    word_of(arg) == b"complete".as_slice()
}

fn var_choice_of(word: &[u8]) -> Option<VarChoice> {
    if word == b"input_order".as_slice() {
        Some(VarChoice::InputOrder)
    } else if word == b"first_fail".as_slice() {
        Some(VarChoice::FirstFail)
    } else if word == b"anti_first_fail".as_slice() {
        Some(VarChoice::AntiFirstFail)
    } else if word == b"smallest".as_slice() {
        Some(VarChoice::Smallest)
    } else if word == b"largest".as_slice() {
        Some(VarChoice::Largest)
    } else {
        None
    }
}

fn value_choice_of(word: &[u8]) -> Option<ValueChoice> {
    if word == b"indomain_min".as_slice() {
        Some(ValueChoice::Min)
    } else if word == b"indomain_max".as_slice() {
        Some(ValueChoice::Max)
    } else if word == b"indomain_split".as_slice() {
        Some(ValueChoice::Split)
    } else if word == b"indomain_reverse_split".as_slice() {
        Some(ValueChoice::ReverseSplit)
    } else {
        None
    }
}
