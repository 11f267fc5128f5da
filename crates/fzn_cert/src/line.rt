// The line of a step, word after word.
ghost use Rattle.std.specs.Prelude.{◌≡◌, ◌∷◌, [], ◌++◌, List, ℕ, ℤ, map, codes, OnOk, string_bytes};
ghost use Rattle.std.specs.List.{flat_map};
ghost use Rattle.std.specs.Fmt.{decimal, signed_decimal};
ghost use Rattle.fzn_cert.specs.Spelling.{op_text, rule_name, hints, literal_text, step_words, step_text};
ghost use Rattle.fzn_cert.specs.Parts.{after_space, after_spaces, step_parts};

use crate::step::{Inference, Step};
use fzn_domain::{Lit, Memory, Op};
use fzn_rules::Rule;
use itoa::Buffer;

/// Appends the text of a step, without a line feed. It answers `Err` where memory runs out, and nothing is known of the text then.
#[tactic(auto, using(crate::proofs::SpaceLaws::step_text_is))]
pub fn push_step(text: &mut String, step: &Step) -> Result<(), Memory>
    ensures { OnOk result (string_bytes text.new ≡ string_bytes text.old ++ step_text step.now) }
{
    push_parts(text, step)
}

fn push_parts(text: &mut String, step: &Step) -> Result<(), Memory>
    ensures { OnOk result (string_bytes text.new ≡ string_bytes text.old ++ step_parts step.now) }
{
    match step {
        Step::Infer(
            Inference {
                constraint,
                rule,
                clause,
            },
        ) => {
            write!(text, "i {constraint} ")?;
            push_rule(text, rule)?;
            text.push_str(" ;")?;
            push_literals(text, clause.as_slice())
        }
        Step::Resolve { clause, ids } => {
            text.push_str("r")?;
            push_literals(text, clause.as_slice())?;
            text.push_str(" ;")?;
            push_ids(text, ids.as_slice())
        }
        Step::Solution(values) => {
            text.push_str("s")?;
            push_integers(text, values.as_slice())
        }
        Step::Delete { ids } => {
            text.push_str("d")?;
            push_ids(text, ids.as_slice())
        }
    }
}

fn push_rule(text: &mut String, rule: &Rule) -> Result<(), Memory>
    ensures { OnOk result (string_bytes text.new ≡ string_bytes text.old ++ (rule_name rule.now ++ after_spaces (map signed_decimal (hints rule.now)))) }
{
    match rule {
        Rule::Lin => text.push_str("lin")?,
        Rule::Rows => text.push_str("rows")?,
        Rule::Box => text.push_str("box")?,
        Rule::Fixed => text.push_str("fixed")?,
        Rule::Enum => text.push_str("enum")?,
        Rule::Hall(first, last) => write!(text, "hall {first} {last}")?,
        Rule::Load(time) => write!(text, "load {time}")?,
        Rule::Energy(from, to) => write!(text, "energy {from} {to}")?,
        Rule::Cut(places) => {
            text.push_str("cut")?;
            push_integers(text, places.as_slice())?;
        }
        Rule::Pair(first, second) => write!(text, "pair {first} {second}")?,
        Rule::Row => text.push_str("row")?,
    }
    Ok(())
}

fn push_literals(text: &mut String, clause: &[Lit]) -> Result<(), Memory>
    ensures { OnOk result (string_bytes text.new ≡ string_bytes text.old ++ after_spaces (map literal_text clause.now)) }
{
    for lit in clause {
        push_literal(text, lit)?;
    }
    Ok(())
}

fn push_literal(text: &mut String, lit: &Lit) -> Result<(), Memory>
    ensures { OnOk result (string_bytes text.new ≡ string_bytes text.old ++ after_space (literal_text lit.now)) }
{
    text.push(' ')?;
    text.push_str(Buffer::new().format(lit.var.0))?;
    push_sign(text, lit.op)?;
    text.push_str(Buffer::new().format(lit.value))?;
    Ok(())
}

fn push_sign(text: &mut String, op: Op) -> Result<(), Memory>
    ensures { OnOk result (string_bytes text.new ≡ string_bytes text.old ++ op_text op) }
{
    let first = match op {
        Op::AtMost => '<',
        Op::AtLeast => '>',
        Op::Equal => '=',
        Op::NotEqual => '!',
    };
    text.push(first)?;
    text.push('=')?;
    Ok(())
}

pub(crate) fn push_integers(text: &mut String, integers: &[i64]) -> Result<(), Memory>
    ensures { OnOk result (string_bytes text.new ≡ string_bytes text.old ++ after_spaces (map signed_decimal integers.now)) }
{
    for integer in integers {
        text.push(' ')?;
        text.push_str(Buffer::new().format(*integer))?;
    }
    Ok(())
}

pub(crate) fn push_ids(text: &mut String, ids: &[u64]) -> Result<(), Memory>
    ensures { OnOk result (string_bytes text.new ≡ string_bytes text.old ++ after_spaces (map decimal ids.now)) }
{
    for id in ids {
        text.push(' ')?;
        text.push_str(Buffer::new().format(*id))?;
    }
    Ok(())
}
