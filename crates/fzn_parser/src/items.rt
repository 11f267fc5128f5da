//! Constraints, the goal and the whole file.

ghost use Rattle.std.specs.Prelude.{◌≡◌, ◌<◌, Err, length, nat_lt, OnOk, IfOk};
ghost use Rattle.fzn_lexer.specs.declared.halt.Halt.TheVariants.{Fault};
ghost use Rattle.fzn_lexer.specs.Tokens.{EndsInEnd};
ghost use Rattle.fzn_tree.specs.Grammar as grammar;
ghost use Rattle.fzn_tree.specs.Piece.{marked};
ghost use Rattle.fzn_parser.specs.GoesOn.{never, goes_further};
ghost use Rattle.fzn_parser.specs.Reads.{ReadsValue};
ghost use Rattle.fzn_parser.specs.Whole.{IsOneTree, IsFirstFault};

use crate::annotations::anns;
use crate::cursor::Start::Sign;
use crate::cursor::{Refusal, Stop, Tokens};
use crate::declarations::declarations;
use crate::lists::{Part, listed, many};
use crate::values::basic;
use fzn_lexer::Symbol;
use fzn_list::{Items, LONGEST};
use fzn_tree::{Arg, Con, Goal, Predicate, Solve, Tree};
use std::alloc::Global;

fn con(alloc: Global, tokens: &mut Tokens<'_>) -> Result<Con, Stop>
    ensures reads { ReadsValue grammar.con never tokens.old result tokens.new }
    ensures shorter { OnOk result (length tokens.new < length tokens.old) }
{
    tokens.symbol(Symbol::Constraint)?;
    let name = tokens.name(alloc)?;
    tokens.symbol(Symbol::OpenParen)?;
    let args: Items<Arg> = listed(alloc, tokens, Symbol::CloseParen)?;
    let anns = anns(alloc, tokens)?;
    tokens.symbol(Symbol::Semicolon)?;
    Ok(Con { name, args, anns })
}

impl Part for Con {
    ghost spell = { λ n c. marked (nat_lt n grammar.most) (grammar.con c) };

    ghost goes_on = { never };

    fn read(alloc: Global, tokens: &mut Tokens<'_>, number: usize) -> Result<Con, Stop> {
        if number < LONGEST {
            con(alloc, tokens)
        } else {
            Err(tokens.refuse_more(Sign(Symbol::Constraint)))
        }
    }
}

fn goal(alloc: Global, tokens: &mut Tokens<'_>) -> Result<Goal, Stop>
    ensures reads { ReadsValue grammar.goal goes_further tokens.old result tokens.new }
{
    if tokens.sees(Sign(Symbol::Satisfy)) {
        tokens.symbol(Symbol::Satisfy)?;
        return Ok(Goal::Satisfy);
    }
    if tokens.sees(Sign(Symbol::Minimize)) {
        tokens.symbol(Symbol::Minimize)?;
        return Ok(Goal::Minimize(basic(alloc, tokens)?));
    }
    tokens.symbol(Symbol::Maximize)?;
    Ok(Goal::Maximize(basic(alloc, tokens)?))
}

fn solve(alloc: Global, tokens: &mut Tokens<'_>) -> Result<Solve, Stop>
    ensures reads { ReadsValue grammar.solve never tokens.old result tokens.new }
{
    tokens.symbol(Symbol::Solve)?;
    let anns = anns(alloc, tokens)?;
    let goal = goal(alloc, tokens)?;
    tokens.symbol(Symbol::Semicolon)?;
    Ok(Solve { anns, goal })
}

fn items(alloc: Global, tokens: &mut Tokens<'_>) -> Result<Tree, Stop>
    ensures reads { ReadsValue grammar.items never tokens.old result tokens.new }
{
    let predicates: Items<Predicate> = many(alloc, tokens, Symbol::Predicate)?;
    let (params, vars) = declarations(alloc, tokens)?;
    let cons: Items<Con> = many(alloc, tokens, Symbol::Constraint)?;
    let solve = solve(alloc, tokens)?;
    Ok(Tree {
        predicates,
        params,
        vars,
        cons,
        solve,
    })
}

/// The whole file, with its end.
pub fn tree(alloc: Global, tokens: &mut Tokens<'_>) -> Result<Tree, Stop>
    requires { EndsInEnd tokens.old }
    ensures ok { IfOk result (λ t. IsOneTree tokens.old t) }
    ensures err { (found : Refusal) → result ≡ Err (Fault found) → IsFirstFault tokens.old found }
{
    let tree = items(alloc, tokens)?;
    tokens.end()?;
    Ok(tree)
}
