// Questions 8 to 13 of one name, by its definition: a yes, or the question that it fails. Each is asked of whatever a scope answers, so each says of no definition itself that it is 8, by the `let .. else` that document 01 names for a scope's answer.
ghost use Rattle.std.specs.Prelude.{◌≡◌};
ghost use Rattle.resolve.specs.Names.{condition_says, nonterminal_says, macro_says, ambiguous_says};

use crate::Definition;
use parse_tree::refusal::Question;

// "condition's name defined? 8. An argument? 9"
pub fn validate_condition(f: Option<Definition>) -> Result<(), Question>
    ensures { result ≡ condition_says f }
{
    let Some(d) = f else {
        return Err(Question::Defined);
    };
    match d {
        Definition::Argument(_) => Ok(()),
        Definition::Terminal | Definition::Nonterminal(_) => Err(Question::ConditionName),
        Definition::Unknown => Err(Question::ConditionName),
    }
}

// "Does 24 name a plain nonterminal or argument? 10"
pub fn validate_nonterminal(f: Option<Definition>) -> Result<(), Question>
    ensures { result ≡ nonterminal_says f }
{
    let Some(d) = f else {
        return Err(Question::Defined);
    };
    match d {
        Definition::Terminal => Err(Question::Nonterminal),
        Definition::Nonterminal(n) => if n == 0 {
            Ok(())
        } else {
            Err(Question::Nonterminal)
        },
        Definition::Argument(_) => Ok(()),
        Definition::Unknown => Err(Question::Nonterminal),
    }
}

// "Does 25 name a macro? 11, with its count? 12"
pub fn validate_macro(f: Option<Definition>, k: usize) -> Result<(), Question>
    ensures { result ≡ macro_says f k }
{
    let Some(d) = f else {
        return Err(Question::Defined);
    };
    match d {
        Definition::Terminal | Definition::Argument(_) => Err(Question::Macro),
        Definition::Nonterminal(n) => {
            if n == 0 {
                Err(Question::Macro)
            } else if n == k {
                Ok(())
            } else {
                Err(Question::ArgumentCount)
            }
        }
        Definition::Unknown => Err(Question::Macro),
    }
}

// "Is 20 no macro? 13": the code that it becomes, of a 21 or a 24.
pub fn rewrite_ambiguous_id(f: Option<Definition>) -> Result<u8, Question>
    ensures { result ≡ ambiguous_says f }
{
    let Some(d) = f else {
        return Err(Question::Defined);
    };
    match d {
        Definition::Terminal => Ok(33),
        Definition::Nonterminal(n) => if n == 0 {
            Ok(36)
        } else {
            Err(Question::AmbiguousId)
        },
        Definition::Argument(_) => Ok(36),
        Definition::Unknown => Err(Question::AmbiguousId),
    }
}
