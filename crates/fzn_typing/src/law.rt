// A tree has one model or one fault.
ghost use Rattle.std.specs.Prelude.{◌≡◌, ◌≢◌, Result, Err};
ghost use Rattle.fzn_lexer.specs.declared.fault.Fault.{Fault};
ghost use Rattle.fzn_lexer.specs.declared.halt.Halt.{Halt};
ghost use Rattle.fzn_lexer.specs.declared.halt.Halt.TheVariants.{Memory};
ghost use Rattle.fzn_meaning.specs.declared.model.Model.{Model};
ghost use Rattle.fzn_tree.specs.declared.tree.Tree.{Tree};
ghost use Rattle.fzn_typing.specs.Typed.{IsTyped};

/// A tree has one model or one fault: two answers for it are the same, unless memory ran out.
pub fn one_model()
    ensures { (tree : Tree) (x y : Result Model (Halt Fault)) → IsTyped tree x → IsTyped tree y
        → x ≢ Err Memory → y ≢ Err Memory → x ≡ y }
{}
