// The annotations in turn.
ghost use Rattle.std.specs.Prelude.{◌≡◌, IfOk, OnOk};
ghost use Rattle.std.specs.List.{All};
ghost use Rattle.fzn_domain.specs.Narrow.{IsVariable};
ghost use Rattle.fzn_reading.specs.Over.{IsAnnotationOver};
ghost use Rattle.fzn_reading.specs.Taken.{variable_count, StaysOver, KeepsAnnotations};

use crate::written::{Search, Written, name_alone, written_in};
use fzn_domain::VarId;
use fzn_list::{Items, Text};
use fzn_names::{Declared, Names};
use fzn_strategy::Annotation;
use fzn_tree::{Ann, AnnArg, AnnTerm, Literal};
use fzn_values::Term;
use indexmap::IndexMap;
use std::alloc::{AllocError, Global};

/// How deep sequences of annotations nest at most, since their brackets do.
const LEVELS: u32 = 64;

/// The search annotations of a solve item over this many variables, in order. A variable stands only where it is named first: by a later
/// annotation it is decided already. So there is no more of them than there are variables. It answers `Err` where memory runs out.
pub fn annotations_of(
    alloc: Global,
    names: &Names,
    count: usize,
    anns: &[Ann],
) -> Result<Vec<Annotation>, AllocError>
    ensures { IfOk result (λ annotations. All (IsAnnotationOver count) annotations.items) }
{
    let mut taken = Taken {
        is_named: vec![in alloc; false; count]?,
        arrays: IndexMap::new(alloc),
        annotations: Vec::new(alloc),
    };
    for ann in anns {
        taken.take(alloc, names, ann, LEVELS)?;
    }
    Ok(taken.annotations)
}

/// The annotations so far, with the variables and the arrays that they name.
#[derive(Drop)]
pub struct Taken {
    is_named: Vec<bool>,
    arrays: IndexMap<Vec<u8>, ()>,
    annotations: Vec<Annotation>,
}

impl Taken {
    /// Takes an annotation, and those of its sequence down to this many levels.
    fn take(
        &mut self,
        alloc: Global,
        names: &Names,
        ann: &Ann,
        levels: u32,
    ) -> Result<(), AllocError>
        ensures over { OnOk result (StaysOver self.old self.new) }
        ensures count { variable_count self.new ≡ variable_count self.old }
    {
        match written_in(ann) {
            Written::Search(search) => self.take_search(alloc, names, &search),
            Written::Sequence(terms) if 0 < levels => {
                for term in terms {
                    if let AnnTerm::Ann(ann) = term {
                        self.take(alloc, names, ann, levels - 1)?;
                    }
                }
                Ok(())
            }
            _ => Ok(()),
        }
    }

    fn take_search(
        &mut self,
        alloc: Global,
        names: &Names,
        search: &Search<'_>,
    ) -> Result<(), AllocError>
        ensures over { OnOk result (StaysOver self.old self.new) }
        ensures count { variable_count self.new ≡ variable_count self.old }
    {
        let vars = self.vars_of(alloc, names, search.vars)?;
        if vars.len() == 0 {
            return Ok(());
        }
        self.annotations.push(Annotation {
            vars,
            var_choice: search.var_choice,
            value_choice: search.value_choice,
        })?;
        Ok(())
    }

    /// The variables of an array literal or of the array of a name that are named first here.
    fn vars_of(
        &mut self,
        alloc: Global,
        names: &Names,
        arg: &AnnArg<Ann>,
    ) -> Result<Items<VarId>, AllocError>
        ensures vars { IfOk result (All (IsVariable (variable_count self.old))) }
        ensures same { KeepsAnnotations self.old self.new }
    {
        match arg {
            AnnArg::List(terms) => self.vars_in(alloc, names, terms.as_slice()),
            AnnArg::One(term) => match name_alone(term) {
                Some(ann) => self.vars_named(alloc, names, &ann.name.text),
                None => Ok(Items::new(alloc)),
            },
        }
    }

    fn vars_in(
        &mut self,
        alloc: Global,
        names: &Names,
        terms: &[AnnTerm<Ann>],
    ) -> Result<Items<VarId>, AllocError>
        ensures vars { IfOk result (All (IsVariable (variable_count self.old))) }
        ensures same { KeepsAnnotations self.old self.new }
    {
        let mut vars = Items::new(alloc);
        if !are_entries(names, terms) {
            return Ok(vars);
        }
        for term in terms {
            if let Some(var) = variable_of(names, term) {
                self.take_var(&mut vars, var)?;
            }
        }
        Ok(vars)
    }

    fn vars_named(
        &mut self,
        alloc: Global,
        names: &Names,
        name: &Text,
    ) -> Result<Items<VarId>, AllocError>
        ensures vars { IfOk result (All (IsVariable (variable_count self.old))) }
        ensures same { KeepsAnnotations self.old self.new }
    {
        let mut vars = Items::new(alloc);
        let Some(Declared::Array(_, terms)) = names.meaning(name) else {
            return Ok(vars);
        };
        if !self.take_name(alloc, name)? {
            return Ok(vars);
        }
        for term in terms.as_slice() {
            if let Term::Variable(var) = term {
                self.take_var(&mut vars, *var)?;
            }
        }
        Ok(vars)
    }

    /// Takes the name of an array, and answers whether it is named here first.
    fn take_name(&mut self, alloc: Global, name: &Text) -> Result<bool, AllocError>
        ensures { KeepsAnnotations self.old self.new }
    {
        if self.arrays.get(name.as_slice()).is_some() {
            return Ok(false);
        }
        let key = Vec::from_slice(alloc, name.as_slice())?;
        self.arrays.insert(key, ())?;
        Ok(true)
    }

    /// The variable with those before it, where it is named here first.
    fn take_var(&mut self, vars: &mut Items<VarId>, var: VarId) -> Result<(), AllocError>
        ensures vars { OnOk result (All (IsVariable (variable_count self.old)) vars.old → All (IsVariable (variable_count self.old)) vars.new) }
        ensures same { KeepsAnnotations self.old self.new }
    {
        if var.0 == 0 || self.is_named.len() < var.0 || self.is_named[var.0 - 1] {
            return Ok(());
        }
        self.is_named[var.0 - 1] = true;
        vars.push(var)
    }
}

/// Whether each term is a variable or a constant.
fn are_entries(names: &Names, terms: &[AnnTerm<Ann>]) -> bool {
    terms.iter().all(|term| is_entry(names, term))
}

fn is_entry(names: &Names, term: &AnnTerm<Ann>) -> bool {
    match term {
        AnnTerm::Literal(Literal::Bool(..)) | AnnTerm::Literal(Literal::Int(_)) => true,
        _ => match declared(names, term) {
            Some(Declared::Constant(..)) | Some(Declared::Variable(..)) => true,
            _ => false,
        },
    }
}

fn variable_of(names: &Names, term: &AnnTerm<Ann>) -> Option<VarId> {
    match declared(names, term) {
        Some(Declared::Variable(_, var)) => Some(*var),
        _ => None,
    }
}

/// What the name stands for that the term is.
fn declared<'a>(names: &'a Names, term: &AnnTerm<Ann>) -> Option<&'a Declared> {
    let ann = name_alone(term)?;
    names.meaning(&ann.name.text)
}
