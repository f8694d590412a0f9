//! Why a grammar file is rejected.
ghost use Rattle.std.specs.Prelude.{◌≡◌, IfOk, map};
ghost use Rattle.peg_semantics.specs.Rules.{names};
ghost use Rattle.peg_grammar.specs.GrammarRules.{rules_in};

use peg_check::CheckFault;
use peg_code::CodeFault;
use peg_grammar::{Grammar, GrammarFault};
use peg_notation::NotationFault;
use std::alloc::{AllocError, Global};
use thiserror::Error;

/// Why a grammar file is rejected. A failed allocation of any stage is `Memory`.
#[derive(Debug, Drop, Error)]
pub enum Refusal {
    /// The file isn't in the notation, or it exceeds a limit of it.
    #[error("the file isn't in the notation, or exceeds a limit")]
    Notation(NotationFault),
    /// The definitions aren't a grammar, or the grammar is too large.
    #[error("the definitions aren't a grammar, or exceed a limit")]
    Grammar(GrammarFault),
    /// The grammar isn't well-formed. The grammar comes along because the fault refers to its rules by number.
    #[error("the grammar isn't well-formed")]
    NotWellFormed(CheckFault, Grammar),
    /// The grammar's code has more than 1,000,000 instructions.
    #[error("the grammar's code is too large")]
    CodeTooLarge,
    /// Out of memory.
    #[error("out of memory")]
    Memory,
}

impl From<AllocError> for Refusal {
    ghost use Rattle.std.specs.Prelude.{◌≡◌};
    ghost use Rattle.peg_parser.specs.declared.refusal.Refusal.TheVariants.{Memory};

    ghost from_gives = { λ _ refusal. refusal ≡ Memory };

    fn from(_error: AllocError) -> Refusal {
        Refusal::Memory
    }
}

impl From<NotationFault> for Refusal {
    ghost use Rattle.std.specs.Prelude.{◌≡◌};
    ghost use Rattle.peg_parser.specs.Faults.{of_notation};

    ghost from_gives = { λ fault refusal. refusal ≡ of_notation fault };

    fn from(fault: NotationFault) -> Refusal {
        match fault {
            NotationFault::Memory => Refusal::Memory,
            other => Refusal::Notation(other),
        }
    }
}

impl From<GrammarFault> for Refusal {
    ghost use Rattle.std.specs.Prelude.{◌≡◌};
    ghost use Rattle.peg_parser.specs.Faults.{of_grammar};

    ghost from_gives = { λ fault refusal. refusal ≡ of_grammar fault };

    fn from(fault: GrammarFault) -> Refusal {
        match fault {
            GrammarFault::Memory => Refusal::Memory,
            other => Refusal::Grammar(other),
        }
    }
}

impl From<CodeFault> for Refusal {
    ghost use Rattle.std.specs.Prelude.{◌≡◌};
    ghost use Rattle.peg_parser.specs.Faults.{of_code};

    ghost from_gives = { λ fault refusal. refusal ≡ of_code fault };

    fn from(fault: CodeFault) -> Refusal {
        match fault {
            CodeFault::CodeTooLarge => Refusal::CodeTooLarge,
            CodeFault::Memory => Refusal::Memory,
        }
    }
}

impl Refusal {
    ghost use Rattle.peg_parser.specs.Faults.{refusal_names, from_check};

    // Converts a fault of the check to a refusal.
    pub(crate) fn from_check(fault: CheckFault, grammar: Grammar) -> Refusal
        ensures { result ≡ from_check fault grammar }
    {
        match fault {
            CheckFault::Memory => Refusal::Memory,
            other => Refusal::NotWellFormed(other, grammar),
        }
    }

    /// Returns the names of the grammar's rules, in order, if the refusal refers to rules by number; otherwise an
    /// empty list. Linear in the number of rules.
    pub fn names(&self, alloc: Global) -> Result<Vec<&str>, AllocError>
        ensures { IfOk result (λ list. map (λ name. name.now) list.items ≡ refusal_names self.now) }
    {
        match self {
            Refusal::NotWellFormed(_, grammar) => names_of(alloc, grammar),
            _ => Ok(Vec::new(alloc)),
        }
    }
}

fn names_of(alloc: Global, grammar: &Grammar) -> Result<Vec<&str>, AllocError>
    ensures { IfOk result (λ list. map (λ name. name.now) list.items ≡ names (rules_in grammar.now)) }
{
    let mut list = Vec::new(alloc);
    for rule in 0..grammar.rules() {
        list.push(grammar.rule_name(rule))?;
    }
    Ok(list)
}
