// Which models can be shown.
ghost use Rattle.fzn_meaning.specs.declared.model.Model.{Model};
ghost use Rattle.fzn_meaning.specs.WellFormed.{IsWellFormed};
ghost use Rattle.fzn_printer.specs.Showable.{CanBeShown};

/// A well-formed model can be shown.
pub fn well_formed_can_be_shown()
    ensures { (model : Model) → IsWellFormed model → CanBeShown model }
{}
